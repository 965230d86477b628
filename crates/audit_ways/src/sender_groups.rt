//! Packets for one LID, grouped by the first switch that they reach.
ghost use Rattle.std.specs.Prelude.{◌≡◌, ◌<◌, ◌≤◌, ◌+◌, [], IfOk, OnOk, filter, length, slice_index, slice_set};
ghost use Rattle.fact_store.specs.View.{cells_of};
ghost use Rattle.subnet_view.specs.EndPort.{end_ports};
ghost use Rattle.held_tables.specs.Switches.{switch_over};
ghost use Rattle.packet_walks.specs.HopsByTables.{AreBrought};
ghost use Rattle.audit_ways.specs.SenderGroups.{AreGrouped, IsGroupedWith, IsWithin, adapters, packets_at};
ghost use Rattle.audit_ways.specs.Ways.{is_adapter, reaches, reaches_if};

use crate::channel_loads::load_channel;
use held_tables::HeldLid;
use packet_walks::{Ends, Far, Network, is_same_end};
use std::alloc::{AllocError, Global};
use subnet_view::EndPort;

/// Packets, counted by the switch that each reaches first.
#[derive(Drop)]
pub(crate) struct Groups {
    /// For each switch, the number of packets whose senders' wires lead to the switch.
    pub(crate) weights: Vec<u64>,
    /// The number of packets whose senders' wires lead to no switch.
    pub(crate) direct: u64,
}

impl Groups {
    /// Creates groups without packets, for the switches of `network`.
    fn none(alloc: Global, network: &Network) -> Result<Self, AllocError>
        ensures { IfOk result (AreGrouped (cells_of network.now.facts) []) }
    {
        Ok(Groups {
            weights: vec![in alloc; 0u64; network.switch_count()]?,
            direct: 0,
        })
    }

    /// Adds a packet whose sender's wire leads to `far`. Returns an error if a count does not fit in 64 bits.
    pub(crate) fn join(&mut self, far: &Far) -> Result<(), AllocError>
        requires { IsWithin (length self.old.weights.items) far.now }
        ensures { OnOk result (IsGroupedWith self.old far.now self.new) }
    {
        match *far {
            Far::Switch(first) => load_channel(&mut self.weights, first, 1),
            _ => self.join_direct(),
        }
    }

    /// Adds a packet whose sender's wire leads to no switch. Returns an error if the count does not fit in 64 bits.
    fn join_direct(&mut self) -> Result<(), AllocError>
        ensures direct { OnOk result (self.new.direct ≡ self.old.direct + 1) }
        ensures weights { self.new.weights ≡ self.old.weights }
    {
        self.direct = self.direct.checked_add(1).ok_or(AllocError)?;
        Ok(())
    }

    /// Removes a packet whose sender's wire leads to `far`.
    pub(crate) fn leave(&mut self, far: &Far)
        requires { 1 ≤ packets_at self.old (switch_over far.now) }
        ensures { IsGroupedWith self.new far.now self.old }
    {
        match *far {
            Far::Switch(first) => unload(&mut self.weights, first),
            _ => self.direct -= 1,
        }
    }
}

/// Subtracts 1 from the weight of the switch at index `first`.
fn unload(weights: &mut [u64], first: usize)
    requires { 1 ≤ slice_index weights.old first }
    ensures { weights.old ≡ slice_set weights.new first (slice_index weights.new first + 1) }
{
    weights[first] -= 1;
}

/// Returns groups of one packet from each adapter port, by where its wire leads, in time linear in the end ports.
pub(crate) fn senders(alloc: Global, network: &Network) -> Result<Groups, AllocError>
    ensures { IfOk result (AreGrouped (cells_of network.now.facts) (adapters (cells_of network.now.facts))) }
{
    let mut groups = Groups::none(alloc, network)?;
    for source in network.sources() {
        if is_adapter(&source.port) {
            groups.join(&source.far)?;
        }
    }
    Ok(groups)
}

/// Returns the packets for the LID of `line` that other adapter ports send and that are delivered at the port of
/// `line`, grouped by where the sender's wire leads. Takes time linear in the number of end ports.
pub(crate) fn group_packets(
    alloc: Global,
    network: &Network,
    line: &HeldLid,
    ends: &Ends,
) -> Result<Groups, AllocError>
    requires brought { AreBrought (cells_of network.now.facts) network.now.held line.now.lid ends.now.ends }
    requires port { ends.now.port ≡ line.now.port }
    ensures { IfOk result (AreGrouped (cells_of network.now.facts)
        (filter (reaches (cells_of network.now.facts) network.now.held line.now)
        (end_ports (cells_of network.now.facts)))) }
{
    let mut groups = Groups::none(alloc, network)?;
    for (index, source) in network.sources().iter().enumerate() {
        if reaches(line, &source.port, ends.arrives(index)) {
            groups.join(&source.far)?;
        }
    }
    Ok(groups)
}

/// Returns whether `port` is an adapter port other than that of `line`, and `arrives` is true.
fn reaches(line: &HeldLid, port: &EndPort, arrives: bool) -> bool
    ensures { result ≡ reaches_if line.now port.now arrives }
{
    is_adapter(port) && !is_same_end(&line.port, port) && arrives
}

/// Returns whether `port` is an end port of an adapter. The end port of a switch is its port 0.
pub fn is_adapter(port: &EndPort) -> bool
    ensures { result ≡ is_adapter port.now }
{
    port.port.number() != 0
}
