ghost use Rattle.std.specs.Prelude.{◌≡◌, ◌<◌, ◌/◌, IfOk, length, map, slice_get, slice_index_or};
ghost use Rattle.std.specs.Prelude.{true};
ghost use Rattle.std.specs.Option.{option_map_or};
ghost use Rattle.fact_store.specs.View.{cells_of};
ghost use Rattle.subnet_view.specs.EndPort.{end_ports};
ghost use Rattle.lid_assign.specs.Lids.{greatest};
ghost use Rattle.subnet_view.specs.Reading.{switches};
ghost use Rattle.packet_walks.specs.Deliveries.{AreDeliveries};
ghost use Rattle.packet_walks.specs.Edges.{edges_of, greatest_top};
ghost use Rattle.held_tables.specs.Switches.{far_by, sender_of};
ghost use Rattle.held_tables.specs.Blocks.{AreBlocks};
ghost use Rattle.packet_walks.specs.HopsByTables.{AreBrought, LineArrives, entry_by, switch_step};
ghost use Rattle.held_tables.specs.Owners.{AreOwners, has_several_owners, is_sole};
ghost use Rattle.held_tables.specs.Tables.{entry_for, lines_of, owners_of, top_of};

use crate::block_deliveries::{Deliveries, delivered};
use crate::ends_by_sender::Ends;
use crate::ends_by_switch::ends;
use crate::entry::entry_for;
use crate::hops_by_tables::{edges, entries, steps, switch_steps};
use crate::next_hop::SwitchStep;
use held_tables::{
    AuditedSwitch, Chains, Far, Held, HeldLid, Owner, Sender, WiredSubnet, block_chains,
    block_rows, has_several_owners, is_sole_owner, lid_owners, lines_of, owners_of,
};
use port_graph::Edge;
use smp_bytes::{Guid, Lid};
use std::alloc::{AllocError, Global};
use std::marker::Model;
use subnet_view::{EndPort, Subnet, is_usable};

/// A subnet, with the forwarding tables that its switches hold.
#[derive(Drop)]
pub struct Network<'a> {
    wired: &'a WiredSubnet<'a>,
    held: &'a Held,
    /// The usable switches, in ascending order of GUID.
    nodes: Vec<AuditedSwitch>,
    /// The chains of the held blocks' numbers.
    chains: Chains,
    /// The held LIDs; each pair of a LID and an end port that holds it occurs once.
    lines: Vec<HeldLid>,
    /// Who holds each LID.
    owners: Vec<Owner>,
}

impl<'a> Model for Network<'a> {
    ghost use Rattle.fact_store.specs.View.{cells_of};
    ghost use Rattle.packet_walks.specs.Network.{Seen, seen_code, IsNetwork};

    ghost Value = { Seen };

    ghost coded = { seen_code };

    ghost view = { λ a. record { facts = a.wired.now; held = a.held.now } };

    ghost invariant = { λ a. IsNetwork (cells_of a.wired.now) a.held.now a.nodes.items a.chains a.lines.items
        a.owners.items };
}

/// The held blocks with the same number.
#[derive(Drop)]
pub(crate) struct Blocks {
    pub(crate) number: u16,
    /// For each held switch, in the order of the held switches, the entries of its block with the number `number`.
    pub(crate) rows: Vec<[u8; 64]>,
}

impl<'a> Network<'a> {
    /// Builds the network of the subnet `wired` with the tables `held`.
    pub fn of(alloc: Global, wired: &'a WiredSubnet<'a>, held: &'a Held) -> Result<Self, AllocError>
        ensures facts { IfOk result (λ network. network.facts ≡ wired.now) }
        ensures held { IfOk result (λ network. network.held ≡ held.now) }
    {
        let nodes = wired.audited(alloc, held)?;
        let chains = block_chains(alloc, held)?;
        let (lines, owners) = lines_and_owners(alloc, held)?;
        Ok(Network {
            wired,
            held,
            nodes,
            chains,
            lines,
            owners,
        })
    }

    /// Returns the held blocks with the number `number`, in time linear in the held switches and these blocks.
    pub(crate) fn blocks(&self, alloc: Global, number: u16) -> Result<Blocks, AllocError>
        ensures { IfOk result (λ blocks. AreBlocks self.now.held blocks.number blocks.rows.items
            × (blocks.number ≡ number)) }
    {
        let rows = block_rows(alloc, self.held, &self.chains, number)?;
        Ok(Blocks { number, rows })
    }

    /// Returns, for each end port, in the order of the end ports, the end of the packet that it sends for `lid`, or
    /// `None` if the packet loops forever. The result also says which of these packets are delivered at `port`.
    pub(crate) fn ends(
        &self,
        alloc: Global,
        blocks: &Blocks,
        lid: Lid,
        port: EndPort,
    ) -> Result<Ends<'a>, AllocError>
        requires held { AreBlocks self.now.held blocks.now.number blocks.now.rows.items }
        requires number { blocks.now.number ≡ lid / 64 }
        ensures { IfOk result (λ ended. AreBrought (cells_of self.now.facts) self.now.held lid ended.ends
            × (ended.port ≡ port)) }
    {
        let owners = owners_of(alloc, &self.lines, &self.owners, lid)?;
        let steps = steps(alloc, &self.nodes, &owners, &blocks.rows, lid)?;
        let walks = ends(steps);
        Ends::new(
            alloc,
            port,
            self.wired.sources(),
            self.wired.firsts(),
            self.wired.all_begin(),
            owners,
            walks,
        )
    }

    /// Returns the effective entry and the next hop of each usable switch for `lid`, in ascending order of GUID.
    pub(crate) fn switch_steps(
        &self,
        alloc: Global,
        blocks: &Blocks,
        lid: Lid,
    ) -> Result<Vec<SwitchStep>, AllocError>
        requires held { AreBlocks self.now.held blocks.now.number blocks.now.rows.items }
        requires number { blocks.now.number ≡ lid / 64 }
        ensures { IfOk result (λ steps. steps.items
            ≡ map (switch_step (cells_of self.now.facts) self.now.held lid) (switches (cells_of self.now.facts))) }
    {
        let owners = owners_of(alloc, &self.lines, &self.owners, lid)?;
        switch_steps(alloc, &self.nodes, &owners, &blocks.rows, lid)
    }

    /// Returns the effective entry of each usable switch for `lid`, in ascending order of GUID, or 255 for none.
    pub(crate) fn entries(
        &self,
        alloc: Global,
        blocks: &Blocks,
        lid: Lid,
    ) -> Result<Vec<u8>, AllocError>
        requires held { AreBlocks self.now.held blocks.now.number blocks.now.rows.items }
        requires number { blocks.now.number ≡ lid / 64 }
        ensures { IfOk result (λ entries. entries.items
            ≡ map (entry_for self.now.held lid) (switches (cells_of self.now.facts))) }
    {
        entries(alloc, &self.nodes, &blocks.rows, lid)
    }

    /// Returns the LIDs of the block of `blocks` that exactly one end port holds and whose packets reach this end port
    /// from every usable switch. Can miss such LIDs if a walk has more than 64 switches.
    pub(crate) fn deliveries(
        &self,
        alloc: Global,
        blocks: &Blocks,
    ) -> Result<Deliveries, AllocError>
        requires { AreBlocks self.now.held blocks.now.number blocks.now.rows.items }
        ensures { IfOk result (AreDeliveries (cells_of self.now.facts) self.now.held) }
    {
        let lids = delivered(
            alloc,
            &self.nodes,
            &self.owners,
            &blocks.rows,
            blocks.number,
        )?;
        Ok(Deliveries {
            number: blocks.number,
            lids,
        })
    }

    /// Returns true only if each packet that an end port sends to the LID of `line` is delivered at the port of `line`.
    /// Can return false although all these packets arrive. Takes constant time.
    pub(crate) fn all_arrive(&self, deliveries: &Deliveries, line: &HeldLid) -> bool
        requires { AreDeliveries (cells_of self.now.facts) self.now.held deliveries.now }
        ensures { result ≡ true → LineArrives (cells_of self.now.facts) self.now.held line.now }
    {
        self.wired.all_begin() && deliveries.has(line.lid) && self.is_sole_owner(line)
    }

    /// Returns the end ports that hold `lid`. Takes constant time if `lid` is below 49,152 and at most one end port
    /// holds it. Otherwise takes time linear in the number of held LIDs.
    pub fn owners(&self, alloc: Global, lid: Lid) -> Result<Vec<EndPort>, AllocError>
        ensures { IfOk result (λ owners. owners.items ≡ owners_of self.now.held lid) }
    {
        owners_of(alloc, &self.lines, &self.owners, lid)
    }

    /// Returns whether no end port other than that of `line` holds the LID of `line`. Takes constant time if the LID is
    /// below 49,152 and at most one end port holds it. Otherwise takes time linear in the number of held LIDs. Does not
    /// allocate.
    pub fn is_sole_owner(&self, line: &HeldLid) -> bool
        ensures { result ≡ is_sole line.now.port (owners_of self.now.held line.now.lid) }
    {
        is_sole_owner(&self.lines, &self.owners, line)
    }

    /// Returns whether more than one end port holds `lid`. Takes constant time if `lid` is below 49,152. Does not
    /// allocate.
    pub fn has_several_owners(&self, lid: Lid) -> bool
        ensures { result ≡ has_several_owners (lines_of self.now.held) lid }
    {
        has_several_owners(&self.lines, &self.owners, lid)
    }

    /// Returns the subnet, without its tables.
    pub fn subnet(&self) -> &'a Subnet<'a>
        ensures { result.now ≡ self.now.facts }
    {
        self.wired.subnet()
    }

    /// Returns the subnet, without its tables, with the far ends of its wires.
    pub fn wired(&self) -> &'a WiredSubnet<'a>
        ensures { result.now ≡ self.now.facts }
    {
        self.wired
    }

    /// Returns the tables that the switches hold.
    pub fn held(&self) -> &Held
        ensures { result.now ≡ self.now.held }
    {
        self.held
    }

    /// Returns the top of the usable switch at `index`, counted in ascending order of GUID, or 0 if there is no such
    /// switch, or the held tables do not have the switch. Takes constant time.
    pub fn top(&self, index: usize) -> Lid
        ensures { result
            ≡ option_map_or (top_of self.now.held) (slice_get (switches (cells_of self.now.facts)) index) 0 }
    {
        match self.nodes.get(index) {
            Some(node) => node.top,
            None => Lid::NONE,
        }
    }

    /// Returns, for each usable switch, the edge along which it forwards packets for `lid` to one of them, or `None`.
    pub(crate) fn edges(
        &self,
        alloc: Global,
        blocks: &Blocks,
        lid: Lid,
    ) -> Result<Vec<Option<Edge>>, AllocError>
        requires held { AreBlocks self.now.held blocks.now.number blocks.now.rows.items }
        requires number { blocks.now.number ≡ lid / 64 }
        ensures { IfOk result (λ edges. edges.items ≡ edges_of (cells_of self.now.facts) self.now.held lid) }
    {
        edges(alloc, &self.nodes, &blocks.rows, lid)
    }

    /// Returns the number of usable switches of the network.
    pub fn switch_count(&self) -> usize
        ensures { result ≡ length (switches (cells_of self.now.facts)) }
    {
        self.nodes.len()
    }

    /// Returns the greatest held top of a usable switch, or 0 if there is no usable switch. No usable switch forwards
    /// packets for a LID above this top to another switch. Takes time linear in the number of usable switches.
    pub fn greatest_top(&self) -> Lid
        ensures { result ≡ greatest_top (cells_of self.now.facts) self.now.held }
    {
        greatest_top(&self.nodes)
    }

    /// Returns the GUID of the usable switch at `index`, counted in ascending order of GUID, or `None` if there is no
    /// such switch. Takes constant time.
    pub fn switch(&self, index: usize) -> Option<Guid>
        ensures { result ≡ slice_get (switches (cells_of self.now.facts)) index }
    {
        let node = self.nodes.get(index)?;
        Some(node.guid)
    }

    /// Returns the GUID of the usable switch at `index`, counted in ascending order of GUID, or GUID 0 if there is no
    /// such switch. Takes constant time.
    pub fn guid(&self, index: usize) -> Guid
        ensures { result ≡ slice_index_or (switches (cells_of self.now.facts)) index 0 }
    {
        self.switch(index).unwrap_or(Guid::new(0))
    }

    /// Returns the far end of the wire in port `number` % 256 of the usable switch at index `number` / 256, where
    /// switches are in ascending order of GUID. Returns `Nothing` if there is no such wire or no such switch.
    pub fn far(&self, number: usize) -> Far
        ensures { result ≡ far_by (cells_of self.now.facts) number }
    {
        self.wired.far(number)
    }

    /// Returns the end ports as senders, in the order of `Subnet::end_ports`.
    pub fn sources(&self) -> &[Sender]
        ensures { result.now ≡ map (sender_of (cells_of self.now.facts)) (end_ports (cells_of self.now.facts)) }
    {
        self.wired.sources()
    }

    /// Returns the held LIDs, each with an end port that holds it, in the order of the lines. Each such pair occurs
    /// once.
    pub fn lids(&self) -> &[HeldLid]
        ensures { result.now ≡ lines_of self.now.held }
    {
        &self.lines
    }

    /// Returns the effective entry of `node` for `lid`, which is 255 if there is no entry. Returns `None` if `node`
    /// is not a usable switch. Takes time linear in the number of held switches and blocks.
    pub fn entry(&self, node: Guid, lid: Lid) -> Option<u8>
        ensures { result ≡ entry_by (cells_of self.now.facts) self.now.held node lid }
    {
        if !is_usable(self.subnet().store(), node) {
            return None;
        }
        Some(entry_for(self.held, node, lid))
    }
}

/// Returns the held LIDs, each pair of a LID and an end port once, and who holds each LID.
fn lines_and_owners(alloc: Global, held: &Held) -> Result<(Vec<HeldLid>, Vec<Owner>), AllocError>
    ensures lines { IfOk result (λ both. both.0.items ≡ lines_of held.now) }
    ensures owners { IfOk result (λ both. AreOwners both.0.items both.1.items) }
{
    let lines = lines_of(alloc, held)?;
    let owners = lid_owners(alloc, &lines)?;
    Ok((lines, owners))
}

/// Returns the greatest top of `nodes`, or 0 if `nodes` is empty.
fn greatest_top(nodes: &[AuditedSwitch]) -> Lid
    ensures { result ≡ greatest (map (λ node. node.top) nodes.now) }
{
    let mut greatest = Lid::NONE;
    for node in nodes {
        if greatest < node.top {
            greatest = node.top;
        }
    }
    greatest
}
