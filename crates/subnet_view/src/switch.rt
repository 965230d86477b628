ghost use Rattle.std.specs.Prelude.{◌≡◌, ◌&&◌, Some, is_some, IfOk};
ghost use Rattle.reply_facts.specs.Known.{kind_in, value_in, cap_of};
ghost use Rattle.fact_store.specs.View.{cell_for, cells_of};
ghost use Rattle.subnet_view.specs.Reading.{is_switch_in, is_usable, usable_guid, switches};

use crate::reading::{is_switch, is_switch_said};
use fact_store::{Key, Refused, Sighting, Store};
use smp_bytes::Guid;
use std::alloc::{AllocError, Global};

/// Returns whether `node` is a usable switch: it is known to be a switch, and the size of its forwarding table is
/// known. Does at most two binary searches among the cells.
pub fn is_usable(store: &Store, node: Guid) -> bool
    ensures { result ≡ is_usable (cells_of store.now) node }
{
    is_switch(store, node) && store.cap(node).is_some()
}

/// Returns the usable switches, in ascending order of GUID. Walks the cells, with a binary search for each switch.
/// Returns an error if memory runs out.
pub fn switches(alloc: Global, store: &Store) -> Result<Vec<Guid>, Refused>
    ensures { IfOk result (λ found. found.items ≡ switches (cells_of store.now)) }
{
    Ok(listed_switches(alloc, store)?)
}

/// Returns the usable switches as `switches` does, but with the allocator's own error.
fn listed_switches(alloc: Global, store: &Store) -> Result<Vec<Guid>, AllocError>
    ensures { IfOk result (λ found. found.items ≡ switches (cells_of store.now)) }
{
    let mut found = Vec::new(alloc);
    for sighting in store.cells() {
        if let Some(guid) = usable_guid(store, &sighting) {
            found.push(guid)?;
        }
    }
    Ok(found)
}

/// Returns the node whose type `sighting` reports, if this node is a usable switch. Returns `None` for any other node,
/// and if `sighting` is not of a node. `sighting` must be a cell of `store`. Does a binary search among the cells if
/// the node is a switch.
pub fn usable_guid(store: &Store, sighting: &Sighting) -> Option<Guid>
    requires { cell_for store.now sighting.now.0 ≡ Some sighting.now.1 }
    ensures { result ≡ usable_guid (cells_of store.now) sighting.now }
{
    match sighting.key() {
        Key::Node(node) => {
            if is_usable_said(store, node, sighting) {
                Some(node)
            } else {
                None
            }
        }
        _ => None,
    }
}

/// Returns whether `sighting` says that its node is a switch, and the table size of `node` is known.
fn is_usable_said(store: &Store, node: Guid, sighting: &Sighting) -> bool
    ensures { result ≡ (is_switch_in (kind_in (value_in (Some sighting.now.1)))
        && is_some (cap_of (cells_of store.now) node)) }
{
    is_switch_said(sighting) && store.cap(node).is_some()
}
