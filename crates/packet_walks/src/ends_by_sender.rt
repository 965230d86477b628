//! Where packets for the LID of an end port end.
ghost use Rattle.std.specs.Prelude.{◌≡◌, ◌&&◌, IfOk, None, length, map, not, position, slice_index_or};
ghost use Rattle.std.specs.List.{list_all};
ghost use Rattle.held_tables.specs.Owners.{is_sole};
ghost use Rattle.packet_walks.specs.EndsBySender.{all_come, arrivals, comes_by, end_from};
ghost use Rattle.held_tables.specs.Switches.{all_begin, first_switch};
ghost use Rattle.packet_walks.specs.HopsByTables.{is_at};

use crate::ends_by_switch::{end_of, onward};
use crate::hops_by_tables::first_hop;
use crate::next_hop::NextHop;
use crate::packet_end::{End, is_at};
use held_tables::{Sender, is_same_end};
use std::alloc::{AllocError, Global};
use std::marker::Model;
use subnet_view::EndPort;

/// For each source, in the order of the sources, the end of the source's packet for the same LID.
#[derive(Drop)]
pub struct Ends<'a> {
    /// The end port that the packets should reach.
    port: EndPort,
    sources: &'a [Sender],
    /// For each source, the index of the first switch that the source's packet reaches, or `None` if the packet
    /// reaches no switch.
    firsts: &'a [Option<usize>],
    /// The end ports that hold the LID.
    owners: Vec<EndPort>,
    /// For each switch, the end of the walk from there, or a hop to a switch if the walk goes on forever.
    walks: Vec<NextHop>,
    /// For each switch, whether the walk from there ends at `port`.
    arrive: Vec<bool>,
    /// Whether no end port other than `port` holds the LID.
    sole: bool,
    /// Whether each source's packet first reaches a switch, the walk from each switch ends at `port`, and no other end
    /// port holds the LID. If so, all packets end at `port`.
    all: bool,
}

impl<'a> Model for Ends<'a> {
    ghost use Rattle.std.specs.Prelude.{map};
    ghost use Rattle.packet_walks.specs.EndsBySender.{AreEnds, Ended, end_from};

    ghost Value = { Ended };

    ghost view = { λ a. record { port = a.port; ends = map (end_from a.owners.items a.walks.items) a.sources.now } };

    ghost invariant = { λ a. AreEnds a.port a.sources.now a.firsts.now a.owners.items a.walks.items
        a.arrive.items a.sole a.all };
}

impl<'a> Ends<'a> {
    /// Builds the ends of the packets of `sources`. `owners` are the end ports that hold the LID, and `walks` has the
    /// end of the walk from each switch.
    pub(crate) fn new(
        alloc: Global,
        port: EndPort,
        sources: &'a [Sender],
        firsts: &'a [Option<usize>],
        begin: bool,
        owners: Vec<EndPort>,
        walks: Vec<NextHop>,
    ) -> Result<Self, AllocError>
        requires firsts { firsts.now ≡ map first_switch sources.now }
        requires begin { begin ≡ all_begin (length walks.items) firsts.now }
        ensures { IfOk result (λ ended. (ended.port ≡ port)
            × (ended.ends ≡ map (end_from owners.items walks.items) sources.now)) }
    {
        let sole = is_sole(&port, &owners);
        let arrive = arrivals(alloc, &port, &walks)?;
        let all = all_come(begin, &arrive, sole);
        Ok(Ends {
            port,
            sources,
            firsts,
            owners,
            walks,
            arrive,
            sole,
            all,
        })
    }

    /// Returns the end of the packet of the source at `index`, or `None` if the packet loops forever or there is no
    /// such source. Takes time linear in the number of owners of the LID.
    pub fn at(&self, index: usize) -> Option<End>
        ensures { result ≡ slice_index_or self.now.ends index None }
    {
        end_at(&self.owners, &self.walks, self.sources, index)
    }

    /// Returns whether the packet of the source at `index` is delivered at `self.port`. Returns false if there is no
    /// such source. Takes constant time if the packet is delivered there via a switch and no other end port holds the
    /// LID.
    pub fn arrives(&self, index: usize) -> bool
        ensures { result ≡ is_at self.now.port (slice_index_or self.now.ends index None) }
    {
        if comes_there(self.sole, self.firsts, &self.arrive, index) {
            return true;
        }
        is_at(&self.port, &self.at(index))
    }

    /// Returns the index of the first source whose packet is not delivered at `self.port`, or `None` if there is none.
    /// Takes constant time if all packets first reach a switch, each walk from a switch ends at `self.port`, and no
    /// other end port holds the LID.
    pub fn first_elsewhere(&self) -> Option<usize>
        ensures { result ≡ position (λ end. not (is_at self.now.port end)) self.now.ends }
    {
        if self.all {
            return None;
        }
        self.look_elsewhere()
    }

    /// Returns the index of the first source whose packet is not delivered at `self.port`, or `None` if there is none.
    /// Calls `arrives` for each source up to that one.
    fn look_elsewhere(&self) -> Option<usize>
        ensures { result ≡ position (λ end. not (is_at self.now.port end)) self.now.ends }
    {
        for index in 0..self.count() {
            if !self.arrives(index) {
                return Some(index);
            }
        }
        None
    }

    /// Returns the number of sources.
    fn count(&self) -> usize
        ensures { result ≡ length self.now.ends }
    {
        self.sources.len()
    }
}

/// Returns the end of the packet of the source at `index`, or `None` if the packet loops forever.
#[tactic(auto, using(crate::proofs::Arrivals::found_there, crate::proofs::Arrivals::none_there))]
fn end_at(owners: &[EndPort], walks: &[NextHop], sources: &[Sender], index: usize) -> Option<End>
    ensures { result ≡ slice_index_or (map (end_from owners.now walks.now) sources.now) index None }
{
    if index < sources.len() {
        end_from(owners, walks, &sources[index])
    } else {
        None
    }
}

/// Returns the end of the packet of `source`, by the ends `walks` of walks from switches, or `None` if it loops.
fn end_from(owners: &[EndPort], walks: &[NextHop], source: &Sender) -> Option<End>
    ensures { result ≡ end_from owners.now walks.now source.now }
{
    end_of(onward(walks, first_hop(owners, source)))
}

/// Returns whether `sole`, and the walk from the first switch of the source at `index` ends at the port, by `arrive`.
fn comes_there(sole: bool, firsts: &[Option<usize>], arrive: &[bool], index: usize) -> bool
    ensures { result ≡ (sole && comes_by (slice_index_or firsts.now index None) arrive.now) }
{
    sole && comes_by(first_at(firsts, index), arrive)
}

/// Returns the item of `firsts` at `index`, or `None` if there is no such item.
fn first_at(firsts: &[Option<usize>], index: usize) -> Option<usize>
    ensures { result ≡ slice_index_or firsts.now index None }
{
    firsts.get(index).copied().flatten()
}

/// Returns whether the walk from the switch at index `first` ends at the port, as `arrive` says for each switch.
fn comes_by(first: Option<usize>, arrive: &[bool]) -> bool
    ensures { result ≡ comes_by first arrive.now }
{
    match first {
        Some(index) => arrive.get(index).copied().unwrap_or(false),
        None => false,
    }
}

/// Returns, for each of `walks`, whether it has ended at `port`.
fn arrivals(alloc: Global, port: &EndPort, walks: &[NextHop]) -> Result<Vec<bool>, AllocError>
    ensures { IfOk result (λ arrive. arrive.items ≡ arrivals port.now walks.now) }
{
    walks
        .iter()
        .map(|walk| is_at(port, &end_of(*walk)))
        .collect(alloc)
}

/// Returns whether each of `owners` is `port`, which is true if there are no owners.
fn is_sole(port: &EndPort, owners: &[EndPort]) -> bool
    ensures { result ≡ is_sole port.now owners.now }
{
    owners.iter().all(|owner| is_same_end(port, owner))
}

/// Returns whether all packets end at the port: they reach a switch (`begin`), all `arrive`, and the port is `sole`.
fn all_come(begin: bool, arrive: &[bool], sole: bool) -> bool
    ensures { result ≡ all_come begin arrive.now sole }
{
    begin && sole && all_arrive(arrive)
}

/// Returns whether all walks end at the port, as `arrive` says for each of them.
fn all_arrive(arrive: &[bool]) -> bool
    ensures { result ≡ list_all (λ arrives. arrives) arrive.now }
{
    arrive.iter().all(|arrives| *arrives)
}
