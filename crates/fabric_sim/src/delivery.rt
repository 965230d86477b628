ghost use Rattle.std.specs.Prelude.{◌≡◌, ◌<◌};
ghost use Rattle.fabric_sim.specs.PacketOutcome.{Asks};
ghost use Rattle.fabric_sim.specs.declared.packet.Packet.{Packet};
ghost use Rattle.fabric_sim.specs.declared.delivered.Delivered.TheVariants.{Discarded};
ghost use Rattle.fabric_sim.specs.Flights.{IsFlightAt};
ghost use Rattle.fabric_sim.specs.Delivery.{packet_in, flight_in, IsEnvelopeAt, after_outcome};
ghost use Rattle.fabric_sim.specs.PacketOutcome.{outcome_by, CanFare};
ghost use Rattle.fabric_sim.specs.Delivery.{after_deliver, repressed_at, without};

use crate::action::Action;
use crate::delivered::{Delivered, Reason};
use crate::envelope::Envelope;
use crate::fabric::Fabric;
use crate::fabric_fault::FabricFault;
use crate::flight::Flight;
use crate::packet::Packet;
use fabric_model::NodeId;
use smp_bytes::{Lid, Smp};

impl Fabric {
    /// Performs one step of the packet in flight with the serial number `serial`: it moves along a wire, is answered,
    /// is handed up, or is discarded. A TrapRepress at the port of its DLID ends the trap with its TransactionID if
    /// this trap waits there. Takes constant time to find the first packet in flight, and does a binary search for
    /// any other. Does not allocate.
    ///
    /// # Errors
    ///
    /// Returns `NoSuchPacket` if no packet in flight has the serial number `serial`. Returns `SerialsSpent` if an
    /// agent is to answer the packet and no serial number is left.
    #[tactic(auto, unfolding(crate::specs::Delivery::after_deliver))]
    pub fn deliver(&mut self, serial: u64) -> Result<Delivered, FabricFault>
        ensures fabric { self.new ≡ (after_deliver self.old serial).fabric }
        ensures result { result ≡ (after_deliver self.old serial).result }
    {
        let Some(i) = self.find(serial) else {
            return Err(FabricFault::NoSuchPacket);
        };
        let flight = &self.flights[i];
        let envelope = flight.envelope();
        match Smp::parse(&flight.packet.bytes) {
            Ok(mut smp) => {
                let action = self.action(&envelope, &mut smp);
                self.act(i, &envelope, &smp, action)
            }
            Err(_) => Ok(self.discard(i, serial, Reason::Unreadable)),
        }
    }

    /// Moves, answers, hands up or discards the packet of `envelope` at index `i`, as `action` says. `smp` has its
    /// bytes after its step. Returns `SerialsSpent` if an agent is to answer and no serial number is left.
    fn act(
        &mut self,
        i: usize,
        envelope: &Envelope,
        smp: &Smp,
        action: Action,
    ) -> Result<Delivered, FabricFault>
        requires at { IsEnvelopeAt self.old.flights i envelope.now }
        requires can { CanFare self.old (outcome_by (packet_in envelope.now smp.now) action) }
        ensures fabric { self.new ≡ (after_outcome self.old (flight_in envelope.now smp.now)
            (outcome_by (packet_in envelope.now smp.now) action)).fabric }
        ensures result { result ≡ (after_outcome self.old (flight_in envelope.now smp.now)
            (outcome_by (packet_in envelope.now smp.now) action)).result }
    {
        let serial = envelope.serial;
        match action {
            Action::Moves(whereabouts) => {
                self.move_to(i, serial, whereabouts, envelope.packet(smp));
                Ok(Delivered::Moved(serial))
            }
            Action::Asks(slid, dlid) => self.ask(i, envelope, smp, slid, dlid),
            Action::HandsUp => {
                self.remove(i, serial);
                let packet = envelope.packet(smp);
                Ok(Delivered::ToManager(envelope.whereabouts.port(), packet))
            }
            Action::Represses => {
                let at = envelope.whereabouts.port();
                self.remove(i, serial);
                self.repress(at.node, smp.transaction_id());
                Ok(Delivered::Discarded(Reason::Repress))
            }
            Action::Drops(reason) => Ok(self.discard(i, serial, reason)),
        }
    }

    /// Ends the trap with the TransactionID `number`, if it waits at `node`.
    fn repress(&mut self, node: NodeId, number: u64)
        ensures { self.new ≡ repressed_at self.old node number }
    {
        self.traps.repress(node, number);
    }

    /// Discards the packet at index `i` among the packets in flight, with the number `serial`, for `reason`.
    fn discard(&mut self, i: usize, serial: u64, reason: Reason) -> Delivered
        requires { IsFlightAt self.old.flights i serial }
        ensures fabric { self.new ≡ without self.old serial }
        ensures result { result ≡ Discarded reason }
    {
        self.remove(i, serial);
        Delivered::Discarded(reason)
    }

    /// Lets the agent answer the request of `envelope` at index `i`, whose bytes after its step are `request`. The
    /// answer goes from `slid` to `dlid`, and replaces it under a new serial number, or fails with `SerialsSpent`.
    fn ask(
        &mut self,
        i: usize,
        envelope: &Envelope,
        request: &Smp,
        slid: Lid,
        dlid: Lid,
    ) -> Result<Delivered, FabricFault>
        requires at { IsEnvelopeAt self.old.flights i envelope.now }
        ensures fabric { self.new ≡ (after_outcome self.old (flight_in envelope.now request.now)
            (Asks request.now slid dlid)).fabric }
        ensures result { result ≡ (after_outcome self.old (flight_in envelope.now request.now)
            (Asks request.now slid dlid)).result }
    {
        let Some(serial) = self.next else {
            return Err(FabricFault::SerialsSpent);
        };
        let at = envelope.whereabouts.port();
        let agent = &mut self.agents[at.node.number()];
        let answer = agent.answer(request, at.port);
        self.flights.remove(i);
        self.flights.push_back_reserved(Flight {
            serial,
            whereabouts: envelope.whereabouts.answer_whereabouts(),
            packet: Packet {
                bytes: *answer.bytes(),
                slid,
                dlid,
            },
        });
        self.next = serial.checked_add(1);
        Ok(Delivered::Answered(serial))
    }
}
