ghost use Rattle.std.specs.Prelude.{◌≡◌};
ghost use Rattle.fact_store.specs.View.{cells_of};
ghost use Rattle.subnet_view.specs.Wires.{is_wire_end, is_wire, across, attached};

use crate::reading::{is_switch, is_up};
use fact_store::Store;
use smp_bytes::{Guid, NodeType, PortNum};

/// Returns the node and the port at the other end of the wire in `port` of `node`, or `None` if no wire is in the
/// port. A wire joins two different ports if both can have a wire and their links name each other. A port can have a
/// wire if it is up, has a number from 1 to its node's number of ports, and is a port of a usable switch or an end
/// port of another node. Does at most eight binary searches among the cells.
pub fn wire(store: &Store, node: Guid, port: PortNum) -> Option<(Guid, PortNum)>
    ensures { result ≡ across (cells_of store.now) node port }
{
    let (far_node, far_port) = store.link(node, port)?;
    if is_wire(store, (node, port), (far_node, far_port)) {
        Some((far_node, far_port))
    } else {
        None
    }
}

/// Returns the switch, and the port of it, that the wire in `port` of `node` leads to. Returns `None` if no wire is in
/// the port, if the wire does not lead to a switch, or if `node` is known to be a switch. Does at most ten binary
/// searches among the cells.
pub fn attached(store: &Store, node: Guid, port: PortNum) -> Option<(Guid, PortNum)>
    ensures { result ≡ attached (cells_of store.now) node port }
{
    if is_switch(store, node) {
        return None;
    }
    let (far_node, far_port) = wire(store, node, port)?;
    if is_switch(store, far_node) {
        Some((far_node, far_port))
    } else {
        None
    }
}

/// Returns whether a wire joins the ports `near` and `far`, given that the link of `near` names `far`.
fn is_wire(store: &Store, near: (Guid, PortNum), far: (Guid, PortNum)) -> bool
    ensures { result ≡ is_wire (cells_of store.now) near.0 near.1 far }
{
    near != far
        && is_wire_end(store, near)
        && is_wire_end(store, far)
        && store.link(far.0, far.1) == Some(near)
}

/// Returns whether the port `end` can have a wire. Does at most three binary searches among the cells.
fn is_wire_end(store: &Store, end: (Guid, PortNum)) -> bool
    ensures { result ≡ is_wire_end (cells_of store.now) end.0 end.1 }
{
    let (guid, port) = end;
    match store.node(guid) {
        Some((kind, ports)) => {
            port.is_within(ports)
                && is_up(store, guid, port)
                && match kind {
                    NodeType::Switch => store.cap(guid).is_some(),
                    _ => store.port_guid(guid, port).is_some(),
                }
        }
        None => false,
    }
}
