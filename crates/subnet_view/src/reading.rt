ghost use Rattle.std.specs.Prelude.{◌≡◌, Some};
ghost use Rattle.reply_facts.specs.Known.{guid_in, kind_in, peer_in, value_in};
ghost use Rattle.fact_store.specs.View.{cells_of};
ghost use Rattle.subnet_view.specs.Reading.{port_count_of, is_up, is_switch_in, is_switch_node};

use fact_store::{Sighting, Store, Value};
use smp_bytes::{Guid, NodeType, PortNum};

/// Returns the number of ports of the node `guid`, or 0 if this number is not known. Does a binary search among the
/// cells.
pub fn port_count(store: &Store, guid: Guid) -> u8
    ensures { result ≡ port_count_of (cells_of store.now) guid }
{
    match store.node(guid) {
        Some((_, ports)) => ports,
        None => 0,
    }
}

/// Returns whether `port` of `node` is known to be up. Does a binary search among the cells.
pub(crate) fn is_up(store: &Store, node: Guid, port: PortNum) -> bool
    ensures { result ≡ is_up (cells_of store.now) node port }
{
    store.is_up(node, port).unwrap_or(false)
}

/// Returns whether `node` is known to be a switch. Does a binary search among the cells.
pub(crate) fn is_switch(store: &Store, node: Guid) -> bool
    ensures { result ≡ is_switch_node (cells_of store.now) node }
{
    matches!(store.node(node), Some((NodeType::Switch, _)))
}

/// Returns whether `sighting` says that its node is a switch.
pub(crate) fn is_switch_said(sighting: &Sighting) -> bool
    ensures { result ≡ is_switch_in (kind_in (value_in (Some sighting.now.1))) }
{
    matches!(sighting.value(), Some(Value::Kind(NodeType::Switch, _)))
}

/// Returns the value of `sighting` if it is a GUID. Returns `None` if the value is of another kind or disputed.
pub(crate) fn guid_said(sighting: &Sighting) -> Option<Guid>
    ensures { result ≡ guid_in (value_in (Some sighting.now.1)) }
{
    match sighting.value()? {
        Value::Guid(guid) => Some(guid),
        _ => None,
    }
}

/// Returns the far end of a link in `sighting`, or `None` if the value is of another kind or disputed.
pub(crate) fn peer_said(sighting: &Sighting) -> Option<(Guid, PortNum)>
    ensures { result ≡ peer_in (value_in (Some sighting.now.1)) }
{
    match sighting.value()? {
        Value::Peer(node, port) => Some((node, port)),
        _ => None,
    }
}
