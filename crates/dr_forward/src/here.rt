use smp_bytes::PortNum;

/// The node where a packet is, as far as forwarding depends on it.
#[derive(Clone, Copy, Debug, PartialEq, Eq)]
pub struct Here {
    /// Whether the node is a switch.
    pub is_switch: bool,
    /// The node's port count; a switch's port 0 is not counted.
    pub ports: u8,
    /// The port where the packet came in. At the node that sent the packet, this is the sender's own port.
    pub arrival: PortNum,
}
