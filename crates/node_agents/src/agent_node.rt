ghost use Rattle.std.specs.Prelude.{◌≡◌};
ghost use Rattle.smp_bytes.specs.NodeType.{is_switch};

use attr_codec::NodeDescription;
use smp_bytes::{Guid, NodeType};

/// A node of a simulated fabric, as it was built.
#[derive(Clone, Copy, Debug, PartialEq, Eq)]
pub struct AgentNode {
    /// The GUID of the node, and of a switch's port 0; an adapter's port `p` has this GUID plus `p`.
    pub guid: Guid,
    /// The type of the node; a router counts as an adapter.
    pub kind: NodeType,
    /// The number of ports, 1 to 254. Port 0 of a switch is not counted.
    pub ports: u8,
    /// The size of a switch's forwarding table, at most 49,152 entries; 0 for an adapter.
    pub cap: u16,
    /// The name that an operator gave the node.
    pub description: NodeDescription,
}

impl AgentNode {
    /// Returns whether the node is a switch.
    pub(crate) fn is_switch(&self) -> bool
        ensures { result ≡ is_switch self.now.kind }
    {
        self.kind.is_switch()
    }
}
