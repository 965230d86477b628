//! The end ports of a network, sorted for searches.
ghost use Rattle.std.specs.Prelude.{◌≡◌, IfOk};
ghost use Rattle.std.specs.List.Sorted.{IsPermutation};
ghost use Rattle.fact_store.specs.View.{cells_of};
ghost use Rattle.audit_ways.specs.SenderGroups.{AreByPort, IsRoster, IsTargetAmong, port_of};

use crate::sender_groups::is_adapter;
use packet_walks::{Far, Network, Sender};
use smp_bytes::{Guid, PortNum};
use std::alloc::{AllocError, Global};
use subnet_view::EndPort;

/// Returns the senders of the network, one for each end port, in ascending order of node GUID and port.
pub(crate) fn roster(alloc: Global, network: &Network) -> Result<Vec<Sender>, AllocError>
    ensures { IfOk result (λ roster. IsRoster (cells_of network.now.facts) roster.items) }
{
    let mut roster: Vec<Sender> = network.sources().iter().copied().collect(alloc)?;
    sort(&mut roster);
    Ok(roster)
}

/// Sorts `sources` in ascending order of node GUID and port.
fn sort(sources: &mut [Sender])
    ensures permutation { IsPermutation sources.old sources.new }
    ensures by_port { AreByPort sources.new }
{
    sources.sort_unstable_by_key(port_of);
}

/// Returns the node GUID and the port of `source`.
fn port_of(source: &Sender) -> (Guid, PortNum)
    ensures { result ≡ port_of source.now }
{
    (source.port.node, source.port.port)
}

/// Returns the far end of the wire in `port`, if it is an adapter port in `roster`. Does a binary search.
pub(crate) fn target_among(roster: &[Sender], port: &EndPort) -> Option<Far>
    requires { AreByPort roster.now }
    ensures { IsTargetAmong roster.now port.now result }
{
    if !is_adapter(port) {
        return None;
    }
    let index = roster
        .binary_search_by_key(&(port.node, port.port), port_of)
        .ok()?;
    Some(roster[index].far)
}
