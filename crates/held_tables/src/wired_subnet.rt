ghost use Rattle.std.specs.Prelude.{◌≡◌, IfOk, length, map, slice_get};
ghost use Rattle.fact_store.specs.View.{cells_of};
ghost use Rattle.subnet_view.specs.EndPort.{end_ports};
ghost use Rattle.subnet_view.specs.Reading.{switches};
ghost use Rattle.held_tables.specs.Switches.{all_begin, far_by, first_switch, node_of, sender_of};

use crate::audited_switch::{AuditedSwitch, nodes};
use crate::far_end::Far;
use crate::held::Held;
use crate::senders::{Sender, all_begin, firsts, sources};
use crate::wired_switch::{WiredSwitch, wired_switches};
use std::alloc::{AllocError, Global};
use std::marker::Model;
use subnet_view::Subnet;

/// A subnet with what packets need that go by the tables of its switches: the far end of each wire of a usable switch,
/// and the first switch that the packets of each end port reach.
#[derive(Drop)]
pub struct WiredSubnet<'s> {
    subnet: &'s Subnet<'s>,
    /// The usable switches, in ascending order of GUID.
    switches: Vec<WiredSwitch>,
    /// The end ports as senders, in the order of `Subnet::end_ports`.
    sources: Vec<Sender>,
    /// For each sender, the index of the first switch that the sender's packets reach, or `None` if these packets
    /// reach no switch.
    firsts: Vec<Option<usize>>,
    /// Whether the packets of each sender reach a switch.
    begin: bool,
}

impl<'s> Model for WiredSubnet<'s> {
    ghost use Rattle.fact_store.specs.Coded.{facts_code};
    ghost use Rattle.fact_store.specs.View.{Facts, cells_of};
    ghost use Rattle.held_tables.specs.WiredSubnet.{IsWired};

    ghost Value = { Facts };

    ghost coded = { facts_code };

    ghost view = { λ a. a.subnet.now };

    ghost invariant = { λ a. IsWired (cells_of a.subnet.now) a.switches.items a.sources.items a.firsts.items a.begin };
}

impl<'s> WiredSubnet<'s> {
    /// Finds the far ends of the wires of `subnet`, and where the packets of its end ports begin.
    pub fn of(alloc: Global, subnet: &'s Subnet<'s>) -> Result<Self, AllocError>
        ensures { IfOk result (λ wired. wired ≡ subnet.now) }
    {
        let switches = wired_switches(alloc, subnet)?;
        let sources = sources(alloc, subnet)?;
        let firsts = firsts(alloc, &sources)?;
        let begin = all_begin(switches.len(), &firsts);
        Ok(WiredSubnet {
            subnet,
            switches,
            sources,
            firsts,
            begin,
        })
    }

    /// Returns the subnet.
    pub fn subnet(&self) -> &'s Subnet<'s>
        ensures { result.now ≡ self.now }
    {
        self.subnet
    }

    /// Returns the end ports as senders, in the order of `Subnet::end_ports`.
    pub fn sources(&self) -> &[Sender]
        ensures { result.now ≡ map (sender_of (cells_of self.now)) (end_ports (cells_of self.now)) }
    {
        &self.sources
    }

    /// Returns, for each sender, in the order of the senders, the index of the first switch that the sender's packets
    /// reach, or `None` if these packets reach no switch.
    pub fn firsts(&self) -> &[Option<usize>]
        ensures { result.now
            ≡ map first_switch (map (sender_of (cells_of self.now)) (end_ports (cells_of self.now))) }
    {
        &self.firsts
    }

    /// Returns whether the packets of each sender reach a switch.
    pub fn all_begin(&self) -> bool
        ensures { result ≡ all_begin (length (switches (cells_of self.now)))
            (map first_switch (map (sender_of (cells_of self.now)) (end_ports (cells_of self.now)))) }
    {
        self.begin
    }

    /// Returns the far end of the wire in port `number` % 256 of the usable switch at index `number` / 256, where
    /// switches are in ascending order of GUID. Returns `Nothing` if there is no such wire or no such switch. Takes
    /// constant time.
    pub fn far(&self, number: usize) -> Far
        ensures { result ≡ far_by (cells_of self.now) number }
    {
        match self.switches.get(number / 256) {
            Some(switch) => switch.row.far((number % 256) as u8),
            None => Far::Nothing,
        }
    }

    /// Returns the usable switches in ascending order of GUID, each with its index and its top in `held`.
    pub fn audited(&self, alloc: Global, held: &Held) -> Result<Vec<AuditedSwitch>, AllocError>
        ensures { IfOk result (λ nodes.
            nodes.items ≡ map (node_of (cells_of self.now) held.now) (switches (cells_of self.now))) }
    {
        nodes(alloc, &self.switches, held)
    }
}
