//! The number of packets that arrive, the causes for which others are lost, and the first packets that do not arrive.
ghost use Rattle.std.specs.Prelude.{◌≡◌, [], false, OnOk};

use crate::cause_counts::Causes;
use crate::first_few::FirstFew;
use crate::pairs::Pairs;
use crate::sent_packet::SentPacket;
use packet_walks::End;
use std::alloc::{AllocError, Global};

/// The number of packets, and how many of them arrive. For each kind of packet that does not arrive, the number of
/// packets and the first of them.
#[derive(Drop)]
pub struct PacketTally {
    pub all: Pairs,
    /// Of all packets, those that adapter ports send to the LIDs of adapter ports.
    pub between: Pairs,
    pub causes: Causes,
    pub lost: FirstFew<SentPacket>,
    pub misdelivered: FirstFew<SentPacket>,
    pub round: FirstFew<SentPacket>,
}

impl PacketTally {
    ghost use Rattle.audit_counts.specs.Packets.{arrives};
    ghost use Rattle.audit_counts.specs.PacketTally.{IsCountedWith, IsMissed, IsTally, IsWith, IsWithArrived};

    /// Creates an empty tally that keeps the first `most` packets of each kind.
    pub(crate) fn new(alloc: Global, most: usize) -> Self
        ensures { IsTally most [] result }
    {
        PacketTally {
            all: Pairs::new(),
            between: Pairs::new(),
            causes: Causes::new(),
            lost: FirstFew::new(alloc, most),
            misdelivered: FirstFew::new(alloc, most),
            round: FirstFew::new(alloc, most),
        }
    }

    /// Counts `packet`. If `packet` does not arrive, adds it to the packets of its kind. Returns an error if a count
    /// does not fit in 64 bits, or if memory is refused.
    pub(crate) fn add(&mut self, packet: SentPacket) -> Result<(), AllocError>
        ensures { OnOk result (IsWith self.old packet self.new) }
    {
        self.count(&packet)?;
        if packet.arrives() {
            return Ok(());
        }
        self.miss(packet)
    }

    /// Adds `count` packets to all packets, and `between` packets to those between adapter ports, all as arrived.
    /// Returns an error if a count does not fit in 64 bits.
    pub(crate) fn add_arrived(&mut self, count: u64, between: u64) -> Result<(), AllocError>
        ensures { OnOk result (IsWithArrived self.old count between self.new) }
    {
        self.all.add_arrived(count)?;
        self.between.add_arrived(between)
    }

    /// Counts `packet`, and whether it arrives, among all packets and, if it is one, among those between adapter ports.
    fn count(&mut self, packet: &SentPacket) -> Result<(), AllocError>
        ensures { OnOk result (IsCountedWith self.old packet.now self.new) }
    {
        let arrives = packet.arrives();
        self.all.add(true, arrives)?;
        self.between.add(packet.is_between(), arrives)
    }

    /// Adds `packet`, which does not arrive, to the packets of its kind.
    fn miss(&mut self, packet: SentPacket) -> Result<(), AllocError>
        requires { arrives packet ≡ false }
        ensures { OnOk result (IsMissed self.old packet self.new) }
    {
        match packet.end {
            Some(End::Lost(_, cause)) => {
                self.causes.add(cause)?;
                self.lost.add(packet)
            }
            Some(End::Taken(_)) => self.misdelivered.add(packet),
            None => self.round.add(packet),
        }
    }
}
