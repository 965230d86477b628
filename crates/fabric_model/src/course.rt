use crate::cable::NodePort;

/// What a node does with a packet for a LID.
#[derive(Clone, Copy, Debug, PartialEq, Eq)]
pub enum Course {
    /// The packet is delivered at this port of the node: the adapter port where the packet is, or port 0 of a switch.
    Delivers(NodePort),
    /// The packet leaves by this port of the node.
    LeavesBy(NodePort),
    /// The packet is dropped.
    Drops,
}
