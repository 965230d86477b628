ghost use Rattle.std.specs.Prelude.{◌≡◌};
ghost use Rattle.std.specs.List.Sorted.{IsStrictlyIncreasing};
ghost use Rattle.fact_store.specs.View.{cells_of};
ghost use Rattle.subnet_view.specs.Reading.{port_count_of};
ghost use Rattle.held_tables.specs.Switches.{far_of, index_in, switch_over};

use smp_bytes::{Guid, PortNum};
use subnet_view::{EndPort, Subnet};

/// Where the wire in a port leads.
#[derive(Clone, Copy, Debug, PartialEq, Eq)]
pub enum Far {
    /// The port has no wire.
    Nothing,
    /// The wire leads to the usable switch with this index, in ascending order of GUID.
    Switch(usize),
    /// The wire leads to this port, whose node is not a usable switch.
    Port(EndPort),
}

/// Returns the far end of the wire in `port` of `node`, in constant time if `port` is above `ports`, or `Nothing`.
pub(crate) fn far_within(subnet: &Subnet, node: Guid, ports: u8, port: PortNum) -> Far
    requires ports { ports ≡ port_count_of (cells_of subnet.now) node }
    ensures { result ≡ far_of (cells_of subnet.now) node port }
{
    if ports < port.number() {
        Far::Nothing
    } else {
        far_of(subnet, node, port)
    }
}

/// Returns the far end of the wire in `port` of `node`, or `Nothing` if there is no wire.
pub(crate) fn far_of(subnet: &Subnet, node: Guid, port: PortNum) -> Far
    ensures { result ≡ far_of (cells_of subnet.now) node port }
{
    match subnet.wires().across(node, port) {
        None => Far::Nothing,
        Some((node, port)) => match index(subnet.switches(), node) {
            Some(index) => Far::Switch(index),
            None => Far::Port(EndPort { node, port }),
        },
    }
}

/// Returns the index of `guid` in `guids`, or `None` if it is not there. Does a binary search.
pub(crate) fn index(guids: &[Guid], guid: Guid) -> Option<usize>
    requires { IsStrictlyIncreasing guids.now }
    ensures { result ≡ index_in guids.now guid }
{
    guids.binary_search(&guid).ok()
}

/// Returns the index of the switch if `far`, the far end of a wire, is a usable switch, and otherwise `None`.
pub(crate) fn switch_over(far: Far) -> Option<usize>
    ensures { result ≡ switch_over far }
{
    match far {
        Far::Switch(index) => Some(index),
        _ => None,
    }
}
