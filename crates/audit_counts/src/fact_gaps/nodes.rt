//! Nodes whose type is unknown, and switches whose table room is unknown.
ghost use Rattle.std.specs.Prelude.{◌≡◌, ◌++◌, IfOk, None, OnOk, Some, not, if◌then◌else◌};
ghost use Rattle.std.specs.List.{filter_map};
ghost use Rattle.reply_facts.specs.Known.{peer_in, value_in};
ghost use Rattle.fact_store.specs.View.{cells_of};
ghost use Rattle.audit_counts.specs.Gaps.{AreKnownNodes, is_known_node, unusable_nodes};
ghost use Rattle.audit_counts.specs.NamedPorts.{far_node, far_port, kept, node_key, own_node};

use crate::fact_gaps::in_order::order_guids;
use fact_store::{Key, Sighting, Store, Value};
use smp_bytes::{Guid, NodeType, PortNum};
use std::alloc::{AllocError, Global};

/// Returns the unusable nodes that the cells of `store` name, each once, in ascending order of GUID. A node is unusable
/// if its type is unknown, or if it is a switch whose table room is unknown. A cell names the node of its key. The cell
/// of a link also names the node at the far end, if the cell says where the link leads.
pub fn unusable_nodes(alloc: Global, store: &Store) -> Result<Vec<Guid>, AllocError>
    ensures { IfOk result (λ guids. guids.items ≡ unusable_nodes (cells_of store.now)) }
{
    let known = known_nodes(alloc, store)?;
    let mut guids = Vec::new(alloc);
    add_own_nodes(&mut guids, store, &known)?;
    add_far_nodes(&mut guids, store, &known)?;
    order_guids(&mut guids);
    Ok(guids)
}

/// Returns the known nodes among those for which `store` has a node cell, in ascending order of GUID.
fn known_nodes(alloc: Global, store: &Store) -> Result<Vec<Guid>, AllocError>
    ensures { IfOk result (λ known. known.items
        ≡ filter_map (kept (is_known_node (cells_of store.now)) node_key) (cells_of store.now)) }
{
    let mut known = Vec::new(alloc);
    for sighting in store.cells() {
        if let Some(node) = known_node(store, &sighting) {
            known.push(node)?;
        }
    }
    Ok(known)
}

/// Returns the node that `sighting` is about if `sighting` is the cell of a known node, otherwise `None`.
fn known_node(store: &Store, sighting: &Sighting) -> Option<Guid>
    ensures { result ≡ kept (is_known_node (cells_of store.now)) node_key sighting.now }
{
    match sighting.key() {
        Key::Node(node) if is_known_node(store, node) => Some(node),
        _ => None,
    }
}

/// Appends to `guids` the node that each cell of `store` is about, if that node is unusable.
fn add_own_nodes(guids: &mut Vec<Guid>, store: &Store, known: &[Guid]) -> Result<(), AllocError>
    requires { AreKnownNodes (cells_of store.now) known.now }
    ensures { OnOk result (guids.new.items ≡ guids.old.items
        ++ filter_map (kept (λ g. not (is_known_node (cells_of store.now) g)) own_node) (cells_of store.now)) }
{
    for sighting in store.cells() {
        if let Some(node) = if_unusable(store, known, sighting.key().guid()) {
            guids.push(node)?;
        }
    }
    Ok(())
}

/// Appends to `guids` the node at the far end of each link in `store`, if that node is unusable.
fn add_far_nodes(guids: &mut Vec<Guid>, store: &Store, known: &[Guid]) -> Result<(), AllocError>
    requires { AreKnownNodes (cells_of store.now) known.now }
    ensures { OnOk result (guids.new.items ≡ guids.old.items
        ++ filter_map (kept (λ g. not (is_known_node (cells_of store.now) g)) far_node) (cells_of store.now)) }
{
    for sighting in store.cells() {
        if let Some(node) = unusable_far_node(store, known, &sighting) {
            guids.push(node)?;
        }
    }
    Ok(())
}

/// Returns the node at the far end of the link that `sighting` reports, if there is one and it is unusable.
fn unusable_far_node(store: &Store, known: &[Guid], sighting: &Sighting) -> Option<Guid>
    requires { AreKnownNodes (cells_of store.now) known.now }
    ensures { result ≡ kept (λ g. not (is_known_node (cells_of store.now) g)) far_node sighting.now }
{
    let (node, _) = far_port(sighting)?;
    if_unusable(store, known, node)
}

/// Returns `node` if it is unusable, otherwise `None`.
fn if_unusable(store: &Store, known: &[Guid], node: Guid) -> Option<Guid>
    requires { AreKnownNodes (cells_of store.now) known.now }
    ensures { result ≡ (if not (is_known_node (cells_of store.now) node) then Some node else None) }
{
    if is_known_by(store, known, node) {
        None
    } else {
        Some(node)
    }
}

/// Returns whether `node` is known. Does a binary search among `known`, and at most two of `store` if `known` lacks it.
fn is_known_by(store: &Store, known: &[Guid], node: Guid) -> bool
    requires { AreKnownNodes (cells_of store.now) known.now }
    ensures { result ≡ is_known_node (cells_of store.now) node }
{
    known.binary_search(&node).is_ok() || is_known_node(store, node)
}

/// Returns whether the type of `node` and, if it is a switch, its table room are known. Searches `store` at most twice.
fn is_known_node(store: &Store, node: Guid) -> bool
    ensures { result ≡ is_known_node (cells_of store.now) node }
{
    match store.node(node) {
        Some((NodeType::Switch, _)) => store.cap(node).is_some(),
        Some(_) => true,
        None => false,
    }
}

/// Returns the port at the far end of the link that `sighting` reports, if it reports one.
pub(crate) fn far_port(sighting: &Sighting) -> Option<(Guid, PortNum)>
    ensures { result ≡ far_port sighting.now }
{
    match sighting.key() {
        Key::Link(..) => peer_said(sighting),
        _ => None,
    }
}

/// Returns the value of `sighting` if it is known and is a port, and otherwise `None`.
fn peer_said(sighting: &Sighting) -> Option<(Guid, PortNum)>
    ensures { result ≡ peer_in (value_in (Some sighting.now.1)) }
{
    match sighting.value()? {
        Value::Peer(node, port) => Some((node, port)),
        _ => None,
    }
}
