//! What becomes of packets for the same LID at each switch, and at the port that sends them.
ghost use Rattle.std.specs.Prelude.{◌≡◌, IfOk, map};
ghost use Rattle.packet_walks.specs.HopsByTables.{at_port, entry_among, first_hop, next_hop_by, next_hop_of};
ghost use Rattle.packet_walks.specs.HopsByTables.{node_entry, over, switch_step_of};
ghost use Rattle.packet_walks.specs.Edges.{edge_of, switch_by};
ghost use Rattle.held_tables.specs.Tables.{counted, is_owner};

use crate::cause::{Cause, cause_by};
use crate::next_hop::{NextHop, SwitchStep};
use crate::packet_end::End;
use held_tables::{AuditedSwitch, Far, Sender};
use port_graph::Edge;
use smp_bytes::{Guid, Lid, NO_ENTRY, PortNum};
use std::alloc::{AllocError, Global};
use subnet_view::EndPort;

/// Returns whether `port` is one of `owners`.
pub(crate) fn is_owner(owners: &[EndPort], port: &EndPort) -> bool
    ensures { result ≡ is_owner owners.now port.now }
{
    owners
        .iter()
        .any(|owner| owner.node == port.node && owner.port == port.port)
}

/// Returns the next hop of each of `nodes` for `lid`, by the LID's `owners` and the blocks `rows` of held switches.
pub(crate) fn steps(
    alloc: Global,
    nodes: &[AuditedSwitch],
    owners: &[EndPort],
    rows: &[[u8; 64]],
    lid: Lid,
) -> Result<Vec<NextHop>, AllocError>
    ensures { IfOk result (λ steps. steps.items ≡ map (next_hop_of owners.now rows.now lid) nodes.now) }
{
    nodes
        .iter()
        .map(|node| next_hop_at(owners, rows, lid, node))
        .collect(alloc)
}

/// Returns the next hop of the switch `node` for `lid`, by the LID's `owners` and the blocks `rows` of held switches.
pub(crate) fn next_hop_at(
    owners: &[EndPort],
    rows: &[[u8; 64]],
    lid: Lid,
    node: &AuditedSwitch,
) -> NextHop
    ensures { result ≡ next_hop_of owners.now rows.now lid node.now }
{
    next_hop_by(owners, lid, node, entry_of(rows, lid, node))
}

/// Returns the next hop of the switch `node` for `lid`, by the LID's `owners` and the effective entry `entry`.
fn next_hop_by(owners: &[EndPort], lid: Lid, node: &AuditedSwitch, entry: u8) -> NextHop
    ensures { result ≡ next_hop_by owners.now lid node.now entry }
{
    if entry == 0 {
        return NextHop::Ends(End::Taken(EndPort {
            node: node.guid,
            port: PortNum::MANAGEMENT,
        }));
    }
    match node.row.far(entry) {
        Far::Nothing => NextHop::Ends(End::Lost(
            node.guid,
            cause_by(node.ports, node.top, lid, entry),
        )),
        Far::Switch(index) => NextHop::To(index),
        Far::Port(port) => NextHop::Ends(at_port(owners, &port)),
    }
}

/// Returns the effective entry of each of `nodes` for `lid` and its next hop, by `owners` and `rows` as in `steps`.
pub(crate) fn switch_steps(
    alloc: Global,
    nodes: &[AuditedSwitch],
    owners: &[EndPort],
    rows: &[[u8; 64]],
    lid: Lid,
) -> Result<Vec<SwitchStep>, AllocError>
    ensures { IfOk result (λ steps. steps.items ≡ map (switch_step_of owners.now rows.now lid) nodes.now) }
{
    nodes
        .iter()
        .map(|node| switch_step_at(owners, rows, lid, node))
        .collect(alloc)
}

/// Returns the effective entry of the switch `node` for `lid` and its next hop, by `owners` and `rows` as in `steps`.
fn switch_step_at(
    owners: &[EndPort],
    rows: &[[u8; 64]],
    lid: Lid,
    node: &AuditedSwitch,
) -> SwitchStep
    ensures { result ≡ switch_step_of owners.now rows.now lid node.now }
{
    let entry = entry_of(rows, lid, node);
    SwitchStep {
        switch: node.guid,
        entry,
        hop: next_hop_by(owners, lid, node, entry),
    }
}

/// Returns the effective entry of each of `nodes` for `lid`, by the blocks `rows` of held switches.
pub(crate) fn entries(
    alloc: Global,
    nodes: &[AuditedSwitch],
    rows: &[[u8; 64]],
    lid: Lid,
) -> Result<Vec<u8>, AllocError>
    ensures { IfOk result (λ entries. entries.items ≡ map (node_entry rows.now lid) nodes.now) }
{
    nodes
        .iter()
        .map(|node| entry_of(rows, lid, node))
        .collect(alloc)
}

/// Returns the effective entry of the switch `node` for `lid`, by the blocks `rows` of held switches.
pub(crate) fn entry_of(rows: &[[u8; 64]], lid: Lid, node: &AuditedSwitch) -> u8
    ensures { result ≡ node_entry rows.now lid node.now }
{
    counted(lid, node.top, entry_among(rows, node.index, lid))
}

/// Returns the entry for `lid` in the row at `index`, or 255 if there is no such row.
fn entry_among(rows: &[[u8; 64]], index: Option<usize>, lid: Lid) -> u8
    ensures { result ≡ entry_among rows.now index lid }
{
    let Some(index) = index else {
        return NO_ENTRY;
    };
    match rows.get(index) {
        Some(row) => row[lid.in_block()],
        None => NO_ENTRY,
    }
}

/// Returns the effective entry: 255 if `lid` is 0 or above `top`, and otherwise `entry`.
pub(crate) fn counted(lid: Lid, top: Lid, entry: u8) -> u8
    ensures { result ≡ counted lid top entry }
{
    if lid == Lid::NONE || top < lid {
        NO_ENTRY
    } else {
        entry
    }
}

/// Returns, for each of `nodes`, the edge along which it forwards packets for `lid` to a usable switch, or `None`.
pub(crate) fn edges(
    alloc: Global,
    nodes: &[AuditedSwitch],
    rows: &[[u8; 64]],
    lid: Lid,
) -> Result<Vec<Option<Edge>>, AllocError>
    ensures { IfOk result (λ edges. edges.items ≡ map (edge_of rows.now lid) nodes.now) }
{
    let mut edges = Vec::with_capacity(alloc, nodes.len())?;
    for node in nodes {
        let entry = entry_of(rows, lid, node);
        match switch_by(node, entry) {
            Some(to) => edges.push(Some(Edge {
                port: PortNum::new(entry),
                to,
            }))?,
            None => edges.push(None)?,
        }
    }
    Ok(edges)
}

/// Returns the index of the usable switch to which the port `entry` of the switch `node` leads, if it leads to one.
pub(crate) fn switch_by(node: &AuditedSwitch, entry: u8) -> Option<usize>
    ensures { result ≡ switch_by node.now.row entry }
{
    if entry == 0 {
        return None;
    }
    node.row.switch(entry)
}

/// Returns what becomes of a packet for a LID of `owners` from `node` to `far`, lost for `cause` without a wire.
fn over(owners: &[EndPort], node: Guid, cause: Cause, far: Far) -> NextHop
    ensures { result ≡ over owners.now node cause far }
{
    match far {
        Far::Nothing => NextHop::Ends(End::Lost(node, cause)),
        Far::Switch(index) => NextHop::To(index),
        Far::Port(port) => NextHop::Ends(at_port(owners, &port)),
    }
}

/// Returns the end of a packet at `port` of no usable switch: delivered if `port` is one of `owners`, and else lost.
fn at_port(owners: &[EndPort], port: &EndPort) -> End
    ensures { result ≡ at_port owners.now port.now }
{
    if is_owner(owners, port) {
        End::Taken(*port)
    } else {
        End::Lost(port.node, Cause::Foreign)
    }
}

/// Returns the first hop of a packet that `source` sends for a LID of `owners`: to its own switch, to the port itself
/// if it is one of `owners`, or along the wire, or lost if there is none.
pub(crate) fn first_hop(owners: &[EndPort], source: &Sender) -> NextHop
    ensures { result ≡ first_hop owners.now source.now }
{
    let Some(index) = source.switch else {
        if is_owner(owners, &source.port) {
            return NextHop::Ends(End::Taken(source.port));
        }
        return over(owners, source.port.node, Cause::NoLink, source.far);
    };
    NextHop::To(index)
}
