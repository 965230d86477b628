//! The way of one packet, channel by channel.
ghost use Rattle.std.specs.Prelude.{◌≡◌, ◌<◌, Some, IfOk, length, option_map, position, slice_get};
ghost use Rattle.fact_store.specs.View.{cells_of};
ghost use Rattle.subnet_view.specs.EndPort.{end_ports};
ghost use Rattle.held_tables.specs.Tables.{is_owner, owners_of};
ghost use Rattle.audit_channels.specs.Column.{number_of};
ghost use Rattle.packet_walks.specs.Edges.{edges_of};
ghost use Rattle.audit_ways.specs.PacketWay.{channels_after, first_switch_for, is_port, packet_way};
ghost use Rattle.audit_ways.specs.PacketWay.{way_from_port, way_value};
ghost use Rattle.audit_ways.specs.Ways.{channels_from};

use crate::channel_loads::edge_of;
use packet_walks::{End, Far, LidCursor, Network, Sender, is_same_end};
use port_graph::Edge;
use smp_bytes::{Guid, Lid, PortNum};
use std::alloc::{AllocError, Global};
use subnet_view::EndPort;

/// The way of a packet.
#[derive(Drop)]
pub struct PacketWay {
    /// The numbers of the channels that the packet takes, one after the other; as many as there are usable switches if
    /// it loops forever.
    pub channels: Vec<usize>,
    /// Where the packet ends, or `None` if it loops forever.
    pub end: Option<End>,
}

/// Returns the way of the packet that the end port `port` of `node` sends for `lid`, or `None` if this is no end port
/// of the facts.
pub fn way_of_packet(
    alloc: Global,
    network: &Network,
    node: Guid,
    port: PortNum,
    lid: Lid,
) -> Result<Option<PacketWay>, AllocError>
    ensures { IfOk result (λ way. option_map way_value way
        ≡ packet_way (cells_of network.now.facts) network.now.held node port lid) }
{
    let sender = EndPort { node, port };
    let Some(index) = index_of(network.sources(), &sender) else {
        return Ok(None);
    };
    let mut cursor = LidCursor::of(alloc, network)?;
    cursor.go_to(alloc, lid)?;
    Ok(Some(way_from(alloc, &cursor, index)?))
}

/// Returns the way of the packet that the end port at `index` sends for the LID of `cursor`.
fn way_from(alloc: Global, cursor: &LidCursor, index: usize) -> Result<PacketWay, AllocError>
    requires { index < length (end_ports (cells_of cursor.now.seen.facts)) }
    ensures { IfOk result (λ way. (e : _) → slice_get (end_ports (cells_of cursor.now.seen.facts)) index ≡ Some e
        → way_value way ≡ way_from_port (cells_of cursor.now.seen.facts) cursor.now.seen.held cursor.now.lid e) }
{
    let source = cursor.network().sources()[index];
    let end = cursor.ends(alloc, source.port)?.at(index);
    let channels = channels_of(alloc, cursor, &source)?;
    Ok(PacketWay { channels, end })
}

/// Returns the index of `port` among the ports of `sources`, or `None` if it is not there.
fn index_of(sources: &[Sender], port: &EndPort) -> Option<usize>
    ensures { result ≡ position (is_port port.now) sources.now }
{
    sources
        .iter()
        .position(|source| is_same_end(port, &source.port))
}

/// Returns the channels of the packet that `source` sends for the LID of `cursor`.
fn channels_of(alloc: Global, cursor: &LidCursor, source: &Sender) -> Result<Vec<usize>, AllocError>
    ensures { IfOk result (λ channels. channels.items
        ≡ channels_after (edges_of (cells_of cursor.now.seen.facts) cursor.now.seen.held cursor.now.lid)
        (first_switch_for (owners_of cursor.now.seen.held cursor.now.lid) source.now)) }
{
    let owners = cursor.owners(alloc)?;
    let edges = cursor.edges(alloc)?;
    match first_switch(&owners, source) {
        Some(first) => channels_from(alloc, &edges, first),
        None => Ok(Vec::new(alloc)),
    }
}

/// Returns the index of the usable switch that a packet of `source` for a LID of `owners` reaches first, if any.
fn first_switch(owners: &[EndPort], source: &Sender) -> Option<usize>
    ensures { result ≡ first_switch_for owners.now source.now }
{
    match (source.switch, source.far) {
        (Some(index), _) => Some(index),
        (None, Far::Switch(index)) if !is_owner(owners, &source.port) => Some(index),
        _ => None,
    }
}

/// Returns whether `port` is one of `owners`.
fn is_owner(owners: &[EndPort], port: &EndPort) -> bool
    ensures { result ≡ is_owner owners.now port.now }
{
    owners.iter().any(|owner| is_same_end(owner, port))
}

/// Returns the channels that a packet takes along `edges`, starting at the switch at index `first`. Stops after as many
/// channels as there are switches. Returns an error if the number of a channel does not fit in 64 bits.
fn channels_from(
    alloc: Global,
    edges: &[Option<Edge>],
    first: usize,
) -> Result<Vec<usize>, AllocError>
    ensures { IfOk result (λ channels. channels.items ≡ channels_from (length edges.now) edges.now first) }
{
    let mut channels = Vec::new(alloc);
    let mut switch = first;
    for _ in 0..edges.len() {
        match edge_of(edges, switch) {
            Some(edge) => {
                let next = edge.to;
                channels.push(channel_of(switch, edge)?)?;
                switch = next;
            }
            None => return Ok(channels),
        }
    }
    Ok(channels)
}

/// Returns the number of the channel of `edge`, an edge of `switch`, or an error if it does not fit in 64 bits.
fn channel_of(switch: usize, edge: Edge) -> Result<usize, AllocError>
    ensures { IfOk result (λ number. number ≡ number_of switch edge) }
{
    let first = switch.checked_mul(256).ok_or(AllocError)?;
    first
        .checked_add(usize::from(edge.port.number()))
        .ok_or(AllocError)
}
