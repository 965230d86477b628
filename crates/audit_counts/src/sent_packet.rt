ghost use Rattle.std.specs.Prelude.{◌≡◌};

use crate::site::are_adapters;
use held_tables::HeldLid;
use packet_walks::{End, is_same_end};
use subnet_view::EndPort;

/// A packet that an end port sends for a held LID, and where it ends.
#[derive(Clone, Copy, Debug, PartialEq, Eq)]
pub struct SentPacket {
    /// The packet's LID, and the end port that holds it.
    pub line: HeldLid,
    /// The end port that sends the packet.
    pub source: EndPort,
    /// Where the packet ends; `None` if the packet loops forever.
    pub end: Option<End>,
}

impl SentPacket {
    ghost use Rattle.audit_counts.specs.Packets.{arrives, is_between};

    /// Returns whether the packet is delivered at the end port that holds its LID.
    pub fn arrives(&self) -> bool
        ensures { result ≡ arrives self.now }
    {
        match self.end {
            Some(End::Taken(port)) => is_same_end(&self.line.port, &port),
            _ => false,
        }
    }

    /// Returns whether an adapter port sends the packet to the LID of an adapter port.
    pub fn is_between(&self) -> bool
        ensures { result ≡ is_between self.now }
    {
        are_adapters(&self.source, &self.line.port)
    }
}
