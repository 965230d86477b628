//! The findings by lane, and their text.
ghost use Rattle.std.specs.Prelude.{◌≡◌, ◌↔◌, [], IsTrue, None};
ghost use Rattle.byte_io.specs.Writes.{Writes};
ghost use Rattle.fact_store.specs.View.{cells_of};
ghost use Rattle.audit_run.specs.LaneText.{lanes_text};

use crate::lane_text::{write_missing, write_order};
use crate::levels_missing::PacketPair;
use audit_counts::FirstFew;
use byte_io::{Sink, WriteFault};
use lane_channels::LaneOrder;
use packet_walks::Network;

/// The findings by lane of an audit.
#[derive(Drop)]
pub(crate) struct LaneFindings {
    /// The packets between adapter ports of the same component that have no service level.
    pub missing: FirstFew<PacketPair>,
    /// A credit loop by lane, and a packet that is dropped for want of a lane, each if one was found.
    pub order: LaneOrder,
    /// The same, if packets that answer other packets also have the levels of those packets.
    pub answers: LaneOrder,
}

impl LaneFindings {
    /// Returns whether each packet between adapter ports has a service level.
    pub fn is_leveled(&self) -> bool
        ensures { IsTrue result ↔ (self.now.missing.count ≡ 0) }
    {
        self.missing.count() == 0
    }

    /// Returns whether no packet is dropped for want of a lane, without answers.
    pub fn is_carried(&self) -> bool
        ensures { IsTrue result ↔ (self.now.order.dropped ≡ None) }
    {
        self.order.dropped.is_none()
    }

    /// Returns whether there is no credit loop by lane, without answers.
    pub fn can_rise(&self) -> bool
        ensures { IsTrue result ↔ (self.now.order.cycle.items ≡ []) }
    {
        self.order.cycle.is_empty()
    }

    /// Writes the first packets without a service level, and how many more there are. Then writes a dropped packet, if
    /// one was found, and the credit loop, or that there is none; and the same for answers.
    pub fn write<W: Sink>(&self, sink: &mut W, network: &Network) -> Result<(), WriteFault>
        ensures { Writes W.written W.has_failed result sink.old sink.new
            (lanes_text (cells_of network.now.facts) self.now) }
    {
        write_missing(sink, &self.missing)?;
        write_order(sink, network, "", &self.order)?;
        write_order(sink, network, "answers ", &self.answers)
    }
}
