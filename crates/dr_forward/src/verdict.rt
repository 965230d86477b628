use smp_bytes::PortNum;

/// Where a packet goes after a step.
#[derive(Clone, Copy, Debug, PartialEq, Eq)]
pub enum Verdict {
    /// Out through this port, which the node has.
    Out(PortNum),
    /// To the node's subnet management agent.
    ToAgent,
    /// Up to the subnet manager: the packet is back where its request was sent.
    ToManager,
    /// Nowhere. The packet is discarded for this reason, and is unchanged.
    Discard(DiscardReason),
}

/// Why a packet on a directed route is discarded.
#[derive(Clone, Copy, Debug, PartialEq, Eq)]
pub enum DiscardReason {
    /// The packet's hop pointer is above its hop count on the way out, or 0 on the way back.
    Course,
    /// The packet's path leads on through the node, but the node is not a switch.
    Transit,
    /// The packet's outgoing port is 0 or above the node's port count.
    OutPort,
}
