ghost use Rattle.std.specs.Prelude.{◌≡◌};
ghost use Rattle.fabric_sim.specs.Simulation.{port_of, is_at_seat, is_by_wire, answer_whereabouts};

use crate::envelope::Envelope;
use crate::packet::Packet;
use fabric_model::NodePort;

/// Where a packet in flight waits.
#[derive(Clone, Copy, Debug, PartialEq, Eq)]
pub enum Whereabouts {
    /// At a seat. The packet, or the request that it answers, was sent from there.
    Seat(NodePort),
    /// At a port where the packet arrived by a wire.
    Arrived(NodePort),
    /// At a port of the node that made the packet: a trap, or an answer to a request that did not wait at a seat.
    Made(NodePort),
}

impl Whereabouts {
    /// Returns the port where the packet waits.
    pub fn port(&self) -> NodePort
        ensures { result ≡ port_of self.now }
    {
        match *self {
            Whereabouts::Seat(port) | Whereabouts::Arrived(port) | Whereabouts::Made(port) => port,
        }
    }

    /// Returns whether the packet waits at a seat.
    pub(crate) fn is_seat(&self) -> bool
        ensures { result ≡ is_at_seat self.now }
    {
        matches!(*self, Whereabouts::Seat(_))
    }

    /// Returns whether the packet arrived at its port by a wire.
    pub(crate) fn is_by_wire(&self) -> bool
        ensures { result ≡ is_by_wire self.now }
    {
        matches!(*self, Whereabouts::Arrived(_))
    }

    /// Returns where an answer waits if its request waited as `self` says.
    pub(crate) fn answer_whereabouts(&self) -> Whereabouts
        ensures { result ≡ answer_whereabouts self.now }
    {
        match *self {
            Whereabouts::Seat(port) => Whereabouts::Seat(port),
            Whereabouts::Arrived(port) | Whereabouts::Made(port) => Whereabouts::Made(port),
        }
    }
}

/// A packet in flight.
#[derive(Clone, Copy, Debug, PartialEq, Eq)]
pub struct Flight {
    /// The serial number. No other packet has it or had it.
    pub serial: u64,
    /// Where the packet waits.
    pub whereabouts: Whereabouts,
    /// The packet.
    pub packet: Packet,
}

impl Flight {
    ghost use Rattle.fabric_sim.specs.Delivery.{envelope_of};

    /// Returns everything about the packet in flight except the bytes.
    pub(crate) fn envelope(&self) -> Envelope
        ensures { result ≡ envelope_of self.now }
    {
        Envelope {
            serial: self.serial,
            whereabouts: self.whereabouts,
            slid: self.packet.slid,
            dlid: self.packet.dlid,
        }
    }
}
