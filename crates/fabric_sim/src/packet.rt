use smp_bytes::Lid;

/// A packet with its source and destination LIDs. If the packet is on a directed route, both are the permissive LID.
#[derive(Clone, Copy, Debug, PartialEq, Eq)]
pub struct Packet {
    /// The 256 bytes of the packet. They may be any bytes, even such as are not a subnet management packet.
    pub bytes: [u8; 256],
    /// The source LID, that of the sender.
    pub slid: Lid,
    /// The destination LID, that which the packet is for.
    pub dlid: Lid,
}
