use crate::packet::Packet;
use dr_forward::DiscardReason;
use fabric_model::NodePort;

/// Why a packet is discarded.
#[derive(Clone, Copy, Debug, PartialEq, Eq)]
pub enum Reason {
    /// The hop pointer of a directed packet does not fit the packet's path, or an answer on a directed route arrives
    /// at an agent.
    Course,
    /// The path of a directed packet leads on through a node that is not a switch.
    Transit,
    /// The outgoing port of a directed packet is 0 or above the node's port count.
    OutPort,
    /// There is no cable in the packet's outgoing port or, unless the packet waits at a seat, in the port where it
    /// waits.
    Down,
    /// The bytes are not a packet.
    Unreadable,
    /// The node neither takes nor forwards packets for the packet's DLID.
    NoRoute,
    /// The packet is a TrapRepress, which asks for no answer.
    Repress,
}

impl From<DiscardReason> for Reason {
    ghost use Rattle.std.specs.Prelude.{◌≡◌};
    ghost use Rattle.fabric_sim.specs.PacketOutcome.{reason_of};

    ghost from_gives = { λ from reason. reason ≡ reason_of from };

    fn from(reason: DiscardReason) -> Self {
        match reason {
            DiscardReason::Course => Reason::Course,
            DiscardReason::Transit => Reason::Transit,
            DiscardReason::OutPort => Reason::OutPort,
        }
    }
}

/// What a delivery did.
#[derive(Clone, Copy, Debug, PartialEq, Eq)]
pub enum Delivered {
    /// The packet moved to the other end of a cable. It keeps its serial number, which is this one.
    Moved(u64),
    /// The agent answered the request, and the answer waits with this serial number.
    Answered(u64),
    /// The packet was handed up at this port, for the subnet manager there. An answer is handed up even if no manager
    /// sits there.
    ToManager(NodePort, Packet),
    /// The packet was discarded.
    Discarded(Reason),
}
