//! What an audit is asked for.
use smp_bytes::{Guid, Lid, PortNum};

/// The options of an audit.
#[derive(Clone, Copy, Debug, PartialEq, Eq)]
pub struct AuditAsked {
    /// Whether a text of lanes is read, and credit loops are judged by lane.
    pub lanes: bool,
    /// Whether to write all lines of each kind, or only the first 20.
    pub all: bool,
    /// The maximum load of a channel, or `None` if there is no bound. The load counts one packet from each adapter port
    /// to each LID of another adapter port, if the packet is delivered and takes the channel.
    pub max_load: Option<u64>,
    /// Whether to write the load of each channel.
    pub loads: bool,
    /// The packet whose way is written, or `None` if no way is asked for.
    pub way: Option<WayAsked>,
}

/// A packet whose way is asked for.
#[derive(Clone, Copy, Debug, PartialEq, Eq)]
pub struct WayAsked {
    /// The GUID of the node that sends the packet.
    pub node: Guid,
    /// The number of the end port that sends it.
    pub port: PortNum,
    /// The LID that the packet is sent to.
    pub lid: Lid,
}
