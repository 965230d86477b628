//! A network at one LID: what its switches do with packets for the LID, and where these packets end.
ghost use Rattle.std.specs.Prelude.{◌≡◌, IfOk, OnErr, OnOk, map, true};
ghost use Rattle.fact_store.specs.View.{cells_of};
ghost use Rattle.subnet_view.specs.Reading.{switches};
ghost use Rattle.held_tables.specs.Tables.{entry_for, owners_of};
ghost use Rattle.held_tables.specs.Blocks.{AreBlocks};
ghost use Rattle.packet_walks.specs.Deliveries.{ComeToOwner};
ghost use Rattle.packet_walks.specs.Edges.{edges_of};
ghost use Rattle.packet_walks.specs.LidCursor.{HasDeliveries};
ghost use Rattle.packet_walks.specs.HopsByTables.{AreBrought, LineArrives, switch_step};

use crate::block_deliveries::Deliveries;
use crate::ends_by_sender::Ends;
use crate::network::{Blocks, Network};
use crate::next_hop::SwitchStep;
use held_tables::HeldLid;
use port_graph::Edge;
use smp_bytes::Lid;
use std::alloc::{AllocError, Global};
use std::marker::Model;
use subnet_view::EndPort;

/// A network at one LID. Keeps the held blocks that have the entries for the LID, since LIDs are mostly visited in
/// ascending order and a block has entries for 64 of them.
#[derive(Drop)]
pub struct LidCursor<'n> {
    network: &'n Network<'n>,
    lid: Lid,
    /// The blocks that have the entries for the LID.
    blocks: Blocks,
    /// The deliveries of `blocks`, or `None` if the cursor does not look for deliveries.
    deliveries: Option<Deliveries>,
}

impl<'n> Model for LidCursor<'n> {
    ghost use Rattle.packet_walks.specs.LidCursor.{AtLid, at_lid_code, IsLidCursor};

    ghost Value = { AtLid };

    ghost coded = { at_lid_code };

    ghost view = { λ a. record { seen = a.network.now; lid = a.lid } };

    ghost invariant = { λ a. IsLidCursor a.network.now a.lid a.blocks.number a.blocks.rows.items a.deliveries };
}

impl<'n> LidCursor<'n> {
    /// Returns a cursor at LID 0 that does not look for deliveries.
    pub fn of(alloc: Global, network: &'n Network<'n>) -> Result<Self, AllocError>
        ensures seen { IfOk result (λ cursor. cursor.seen ≡ network.now) }
        ensures lid { IfOk result (λ cursor. cursor.lid ≡ 0) }
    {
        let blocks = network.blocks(alloc, 0)?;
        Ok(LidCursor {
            network,
            lid: Lid::NONE,
            blocks,
            deliveries: None,
        })
    }

    /// Returns a cursor at LID 0 that looks for deliveries, for 64 LIDs at a time.
    pub fn with_deliveries(alloc: Global, network: &'n Network<'n>) -> Result<Self, AllocError>
        ensures seen { IfOk result (λ cursor. cursor.seen ≡ network.now) }
        ensures lid { IfOk result (λ cursor. cursor.lid ≡ 0) }
    {
        let blocks = network.blocks(alloc, 0)?;
        let deliveries = network.deliveries(alloc, &blocks)?;
        Ok(LidCursor {
            network,
            lid: Lid::NONE,
            blocks,
            deliveries: Some(deliveries),
        })
    }

    /// Moves the cursor to `lid`, or leaves it as it is if memory runs out. Takes constant time if the cursor is at a
    /// LID of the same block. Otherwise takes time linear in the number of held switches, plus the number of held
    /// blocks with the number of the new block, plus the time to look for deliveries if the cursor does so.
    pub fn go_to(&mut self, alloc: Global, lid: Lid) -> Result<(), AllocError>
        ensures seen { self.new.seen ≡ self.old.seen }
        ensures lid { OnOk result (self.new.lid ≡ lid) }
        ensures stays { OnErr result (self.new ≡ self.old) }
    {
        if lid.block() != self.lid.block() {
            let blocks = self.network.blocks(alloc, lid.block())?;
            let deliveries = deliveries_if(
                alloc,
                self.deliveries.is_some(),
                self.network,
                &blocks,
            )?;
            self.blocks = blocks;
            self.deliveries = deliveries;
        }
        self.lid = lid;
        Ok(())
    }

    /// Returns the network.
    pub fn network(&self) -> &'n Network<'n>
        ensures { result.now ≡ self.now.seen }
    {
        self.network
    }

    /// Returns the LID that the cursor is at.
    pub fn lid(&self) -> Lid
        ensures { result ≡ self.now.lid }
    {
        self.lid
    }

    /// Returns the end ports that hold the cursor's LID. Takes constant time if the LID is below 49,152 and at most
    /// one end port holds it. Otherwise takes time linear in the number of held LIDs.
    pub fn owners(&self, alloc: Global) -> Result<Vec<EndPort>, AllocError>
        ensures { IfOk result (λ owners. owners.items ≡ owners_of self.now.seen.held self.now.lid) }
    {
        self.network.owners(alloc, self.lid)
    }

    /// Returns the effective entry of each usable switch for the LID, in ascending order of GUID. An effective entry
    /// of 255 stands for no entry.
    pub fn entries(&self, alloc: Global) -> Result<Vec<u8>, AllocError>
        ensures { IfOk result (λ entries. entries.items
            ≡ map (entry_for self.now.seen.held self.now.lid) (switches (cells_of self.now.seen.facts))) }
    {
        self.network.entries(alloc, &self.blocks, self.lid)
    }

    /// Returns, for each usable switch in ascending order of GUID, the edge along which it forwards packets for the
    /// LID to a usable switch, possibly itself. The edge is `None` if the switch does not forward these packets to a
    /// usable switch.
    pub fn edges(&self, alloc: Global) -> Result<Vec<Option<Edge>>, AllocError>
        ensures { IfOk result (λ edges.
            edges.items ≡ edges_of (cells_of self.now.seen.facts) self.now.seen.held self.now.lid) }
    {
        self.network.edges(alloc, &self.blocks, self.lid)
    }

    /// Returns, for each usable switch in ascending order of GUID, its effective entry for the LID and its next hop
    /// according to this entry.
    pub fn switch_steps(&self, alloc: Global) -> Result<Vec<SwitchStep>, AllocError>
        ensures { IfOk result (λ steps. steps.items
            ≡ map (switch_step (cells_of self.now.seen.facts) self.now.seen.held self.now.lid)
            (switches (cells_of self.now.seen.facts))) }
    {
        self.network.switch_steps(alloc, &self.blocks, self.lid)
    }

    /// Returns, for each end port, in the order of the end ports, the end of the packet that it sends for the LID, or
    /// `None` if the packet loops forever. The result also says which of these packets are delivered at `port`.
    pub fn ends(&self, alloc: Global, port: EndPort) -> Result<Ends<'n>, AllocError>
        ensures { IfOk result (λ ended.
            AreBrought (cells_of self.now.seen.facts) self.now.seen.held self.now.lid ended.ends
            × (ended.port ≡ port)) }
    {
        self.network.ends(alloc, &self.blocks, self.lid, port)
    }

    /// Returns true only if exactly one end port holds the LID, and packets for the LID from every usable switch
    /// reach this end port. Can return false although these packets arrive, if the cursor does not look for
    /// deliveries or if a walk has more than 64 switches. Takes constant time.
    pub fn is_delivered(&self) -> bool
        ensures { result ≡ true
            → ComeToOwner (cells_of self.now.seen.facts) self.now.seen.held self.now.lid }
    {
        match &self.deliveries {
            Some(deliveries) => deliveries.has(self.lid),
            None => false,
        }
    }

    /// Returns true only if each packet that an end port sends to the LID of `line` is delivered at the port of `line`.
    /// Can return false although all these packets arrive. The LID of `line` must be that of the cursor. Takes constant
    /// time.
    pub fn all_arrive(&self, line: &HeldLid) -> bool
        requires { self.now.lid ≡ line.now.lid }
        ensures { result ≡ true → LineArrives (cells_of self.now.seen.facts) self.now.seen.held line.now }
    {
        match &self.deliveries {
            Some(deliveries) => self.network.all_arrive(deliveries, line),
            None => false,
        }
    }
}

/// Returns the deliveries that a cursor keeps: those found in `blocks` if `asked`, and otherwise `None`.
fn deliveries_if(
    alloc: Global,
    asked: bool,
    network: &Network,
    blocks: &Blocks,
) -> Result<Option<Deliveries>, AllocError>
    requires { AreBlocks network.now.held blocks.now.number blocks.now.rows.items }
    ensures { IfOk result (HasDeliveries (cells_of network.now.facts) network.now.held) }
{
    if !asked {
        return Ok(None);
    }
    let deliveries = network.deliveries(alloc, blocks)?;
    Ok(Some(deliveries))
}
