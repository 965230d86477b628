//! What becomes of a packet at a switch.
use crate::packet_end::End;
use smp_bytes::Guid;

/// What becomes of a packet at a switch: it reaches the usable switch with this index, or it ends.
#[derive(Clone, Copy, Debug, PartialEq, Eq)]
pub enum NextHop {
    To(usize),
    Ends(End),
}

/// The entry of a usable switch for a LID, and what becomes of packets for the LID at the switch according to this
/// entry.
#[derive(Clone, Copy, Debug, PartialEq, Eq)]
pub struct SwitchStep {
    pub switch: Guid,
    /// The effective entry; 255 stands for no entry.
    pub entry: u8,
    /// What becomes of a packet for the LID at the switch.
    pub hop: NextHop,
}
