ghost use Rattle.std.specs.Prelude.{◌≡◌};
ghost use Rattle.smp_bytes.specs.NodeType.{is_switch};

use crate::port_list::OfPort;
use attr_codec::PortState;
use smp_bytes::{Guid, NodeType, Path, PortNum};

/// A vertex that a sweep has reached. Its port is 0 for a switch. For an adapter, it is the port that was reached.
#[derive(Debug, Drop)]
pub struct Vertex {
    pub guid: Guid,
    pub port: PortNum,
    /// The type of the node, as its first reply reported.
    pub kind: NodeType,
    /// The number of ports of the node, as its first reply reported.
    pub ports: u8,
    /// The port of the node at which the request that reached the vertex arrived.
    pub arrival: PortNum,
    /// The path of the request that reached the vertex.
    pub path: Path<63>,
}

impl Vertex {
    pub(crate) fn is_switch(&self) -> bool
        ensures { result ≡ is_switch self.now.kind }
    {
        self.kind.is_switch()
    }
}

/// The state of a port, as a reply reported it.
#[derive(Clone, Copy, Debug, PartialEq, Eq)]
pub struct SeenState {
    pub guid: Guid,
    pub port: PortNum,
    pub state: PortState,
}

impl OfPort for SeenState {
    ghost use Rattle.sweep.specs.Sweep.{state_key};

    ghost key = { state_key };

    fn key(&self) -> (Guid, PortNum) {
        (self.guid, self.port)
    }
}
