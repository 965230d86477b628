ghost use Rattle.std.specs.Prelude.{◌≡◌};
ghost use Rattle.fabric_sim.specs.Delivery.{packet_in};

use crate::flight::Whereabouts;
use crate::packet::Packet;
use smp_bytes::{Lid, Smp};

/// Everything about a packet in flight except its bytes.
#[derive(Clone, Copy)]
pub(crate) struct Envelope {
    pub(crate) serial: u64,
    pub(crate) whereabouts: Whereabouts,
    pub(crate) slid: Lid,
    pub(crate) dlid: Lid,
}

impl Envelope {
    /// Returns the packet with the bytes of `smp` and the LIDs of `self`.
    pub(crate) fn packet(&self, smp: &Smp) -> Packet
        ensures { result ≡ packet_in self.now smp.now }
    {
        Packet {
            bytes: *smp.bytes(),
            slid: self.slid,
            dlid: self.dlid,
        }
    }
}
