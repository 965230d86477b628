use smp_bytes::{Lid, PortNum};

/// A packet that is dropped at a switch, since its service level has no lane there.
#[derive(Clone, Copy, Debug, PartialEq, Eq)]
pub struct Dropped {
    pub lid: Lid,
    /// The service level, up to 15.
    pub level: u8,
    /// The stop at which the packet is dropped: 256 times the index of the switch, plus the port at which the packet
    /// comes in.
    pub stop: usize,
    /// The outgoing port of the switch for the LID.
    pub out: PortNum,
}
