use smp_bytes::{Guid, NodeType};
use text_words::NodeName;

/// A node of a topology.
#[derive(Debug, Drop)]
pub struct Node {
    pub name: NodeName,
    pub kind: NodeType,
    /// The port count, 1 to 254. Port 0 of a switch is not counted.
    pub ports: u8,
    /// The GUID of a switch's port 0. For an adapter, port `p` has this GUID plus `p`.
    pub guid: Guid,
    /// The size of a switch's linear forwarding table, 1 to 49,152; 0 for an adapter, which has no table.
    pub cap: u16,
}
