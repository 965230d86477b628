ghost use Rattle.std.specs.Prelude.{◌≡◌, Some, length, map, IfOk};
ghost use Rattle.std.specs.List.{filter_map};
ghost use Rattle.std.specs.List.Sorted.{IsPermutation, IsSorted};
ghost use Rattle.fact_store.specs.View.{cell_for, cells_of};
ghost use Rattle.subnet_view.specs.EndPort.{is_end_port, is_end_port_number, guid_and_port, port_numbers};
ghost use Rattle.subnet_view.specs.EndPort.{port_cmp, in_order, end_ports};

use crate::reading::guid_said;
use fact_store::{Key, Refused, Sighting, Store};
use smp_bytes::{Guid, NodeType, PortNum};
use std::alloc::{AllocError, Global};

/// A port with LIDs of its own: port 0 of a switch, or a port of another node.
#[derive(Clone, Copy, Debug, PartialEq, Eq)]
pub struct EndPort {
    /// The GUID of the node.
    pub node: Guid,
    /// The number of the port at its node.
    pub port: PortNum,
}

/// Returns whether `port` of `node` is an end port. An end port is port 0 of a switch, or a port from 1 to the port
/// count of another node, and its GUID is known. Does at most two binary searches among the cells.
pub fn is_end_port(store: &Store, node: Guid, port: PortNum) -> bool
    ensures { result ≡ is_end_port (cells_of store.now) node port }
{
    is_end_port_number(store, node, port) && store.port_guid(node, port).is_some()
}

/// Returns the end ports, in ascending order of port GUID, then node GUID, then port. Walks the cells, with a binary
/// search for each port GUID, and sorts what it finds. Returns an error if memory runs out.
pub fn end_ports(alloc: Global, store: &Store) -> Result<Vec<EndPort>, Refused>
    ensures { IfOk result (λ ports. ports.items ≡ end_ports (cells_of store.now)) }
{
    Ok(listed_end_ports(alloc, store)?)
}

/// Returns the number of end ports. Walks the cells, with a binary search for each port GUID. Does not allocate.
pub fn count_end_ports(store: &Store) -> usize
    ensures { result ≡ length (end_ports (cells_of store.now)) }
{
    let mut count = store.count();
    for sighting in store.cells() {
        if guid_and_port(store, &sighting).is_none() {
            count -= 1;
        }
    }
    count
}

/// Returns the end ports as `end_ports` does, but with the allocator's own error.
fn listed_end_ports(alloc: Global, store: &Store) -> Result<Vec<EndPort>, AllocError>
    ensures { IfOk result (λ ports. ports.items ≡ end_ports (cells_of store.now)) }
{
    let sorted = sorted_end_ports(alloc, store)?;
    sorted.iter().map(|end| end.1).collect(alloc)
}

/// Returns the end ports with their port GUIDs, in the order of `end_ports`.
fn sorted_end_ports(alloc: Global, store: &Store) -> Result<Vec<(Guid, EndPort)>, AllocError>
    ensures { IfOk result (λ sorted. sorted.items
        ≡ in_order (filter_map (guid_and_port (cells_of store.now)) (cells_of store.now))) }
{
    let mut found = found_end_ports(alloc, store)?;
    sort(&mut found);
    Ok(found)
}

/// Returns the end ports with their port GUIDs, in the order of the cells' keys.
fn found_end_ports(alloc: Global, store: &Store) -> Result<Vec<(Guid, EndPort)>, AllocError>
    ensures { IfOk result (λ found. found.items
        ≡ filter_map (guid_and_port (cells_of store.now)) (cells_of store.now)) }
{
    let mut found = Vec::new(alloc);
    for sighting in store.cells() {
        if let Some(end) = guid_and_port(store, &sighting) {
            found.push(end)?;
        }
    }
    Ok(found)
}

fn sort(found: &mut [(Guid, EndPort)])
    ensures permutation { IsPermutation found.old found.new }
    ensures sorted { IsSorted port_cmp found.new }
{
    found.sort_unstable_by_key(sort_key);
}

/// Returns the port GUID, the node GUID and the port of `end`, by which end ports are sorted.
pub(crate) fn sort_key(end: &(Guid, EndPort)) -> [u64; 3]
    ensures { result ≡ port_numbers end.now }
{
    [
        end.0.number(),
        end.1.node.number(),
        u64::from(end.1.port.number()),
    ]
}

/// Returns the end port whose GUID `sighting` gives, with this GUID, or `None` if there is none. Does a binary search
/// among the cells if the key of `sighting` is that of a port GUID.
pub(crate) fn guid_and_port(store: &Store, sighting: &Sighting) -> Option<(Guid, EndPort)>
    requires { cell_for store.now sighting.now.0 ≡ Some sighting.now.1 }
    ensures { result ≡ guid_and_port (cells_of store.now) sighting.now }
{
    match sighting.key() {
        Key::PortGuid(node, port) => {
            if is_end_port_number(store, node, port) {
                let guid = guid_said(sighting)?;
                Some((guid, EndPort { node, port }))
            } else {
                None
            }
        }
        _ => None,
    }
}

/// Returns whether `port` of `node` can be an end port. Does a binary search among the cells.
fn is_end_port_number(store: &Store, node: Guid, port: PortNum) -> bool
    ensures { result ≡ is_end_port_number (cells_of store.now) node port }
{
    match store.node(node) {
        Some((NodeType::Switch, _)) => port.number() == 0,
        Some((_, ports)) => port.is_within(ports),
        None => false,
    }
}
