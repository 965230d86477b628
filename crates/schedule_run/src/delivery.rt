//! The commands about packets in flight.
ghost use Rattle.std.specs.Prelude.{◌≡◌, ◌<◌, length};
ghost use Rattle.schedule_run.specs.Commands.{after_drain_line, after_fate, after_packet_line};
ghost use Rattle.schedule_run.specs.Delivery.{after_hand_up, after_step, after_take};
ghost use Rattle.schedule_run.specs.NamedPackets.{serial_of};
ghost use Rattle.schedule_run.specs.World.{Does, value_of};

use crate::world::{Seated, World};
use byte_io::Sink;
use fabric_model::NodePort;
use fabric_sim::{Delivered, Fabric, FabricFault, Packet};
use schedule_file::{Fate, Which};
use schedule_lines::{RunFault, refuse_fabric, refuse_manager, show_trap};

impl World<'_> {
    /// Performs one step of the packet in flight that `which` names, loses it, or copies it, as `fate` says. A packet
    /// that is handed up goes to the manager at the port. Prints a refusal, also if there is no such packet.
    #[tactic(auto, unfolding(crate::specs::Commands::after_packet_line))]
    pub(crate) fn handle_packet<W: Sink>(
        &mut self,
        which: Which,
        fate: Fate,
        sink: &mut W,
    ) -> Result<(), RunFault>
        ensures does { Does W.written W.has_failed self.old self.new result sink.old sink.new
            (after_packet_line (value_of self.old) which fate) }
    {
        let Some(serial) = serial(&self.fabric, which) else {
            return refuse_fabric(sink, FabricFault::NoSuchPacket);
        };
        match fate {
            Fate::Deliver => self.deliver(serial, sink),
            Fate::Lose => self.lose(serial, sink),
            Fate::Repeat => self.repeat(serial, sink),
        }
    }

    /// Loses the packet in flight with the serial number `serial`. If the fabric refuses the call, prints the refusal.
    fn lose<W: Sink>(&mut self, serial: u64, sink: &mut W) -> Result<(), RunFault>
        ensures does { Does W.written W.has_failed self.old self.new result sink.old sink.new
            (after_fate (value_of self.old) Fate.Lose serial) }
    {
        match self.fabric.lose(serial) {
            Ok(()) => Ok(()),
            Err(fault) => refuse_fabric(sink, fault),
        }
    }

    /// Copies the packet in flight with the serial number `serial`. If the fabric refuses the call, prints the refusal.
    fn repeat<W: Sink>(&mut self, serial: u64, sink: &mut W) -> Result<(), RunFault>
        ensures does { Does W.written W.has_failed self.old self.new result sink.old sink.new
            (after_fate (value_of self.old) Fate.Repeat serial) }
    {
        match self.fabric.repeat(serial) {
            Ok(_) => Ok(()),
            Err(fault) => refuse_fabric(sink, fault),
        }
    }

    /// Performs a step of the packet in flight with the least serial number, up to `most` times, while there is one.
    pub(crate) fn drain<W: Sink>(&mut self, most: u32, sink: &mut W) -> Result<(), RunFault>
        ensures does { Does W.written W.has_failed self.old self.new result sink.old sink.new
            (after_drain_line (value_of self.old) most) }
    {
        for _step in 0..most {
            let Some(first) = self.fabric.in_flight(0) else {
                return Ok(());
            };
            let serial = first.serial;
            self.deliver(serial, sink)?;
        }
        Ok(())
    }

    /// Performs one step of the packet in flight with the number `serial`. If it is handed up, the manager takes it in
    /// and sends what it then has queued. Prints the refusal, if the fabric refuses.
    #[tactic(auto, using(schedule_lines::proofs::Printing::prints_then), unfolding(crate::specs::Delivery::after_step))]
    pub(crate) fn deliver<W: Sink>(&mut self, serial: u64, sink: &mut W) -> Result<(), RunFault>
        ensures does { Does W.written W.has_failed self.old self.new result sink.old sink.new
            (after_step (value_of self.old) serial) }
    {
        match self.fabric.deliver(serial) {
            Ok(Delivered::ToManager(port, packet)) => self.hand_up(&port, &packet, sink),
            Ok(_) => Ok(()),
            Err(fault) => refuse_fabric(sink, fault),
        }
    }

    /// Hands `packet` to the manager at `port` that is asked, and sends the packets that the manager then has queued. If
    /// none sits there, tells the packet to the decider there. If none is there either, drops it.
    #[tactic(auto, unfolding(crate::specs::Delivery::after_hand_up))]
    fn hand_up<W: Sink>(
        &mut self,
        port: &NodePort,
        packet: &Packet,
        sink: &mut W,
    ) -> Result<(), RunFault>
        ensures does { Does W.written W.has_failed self.old self.new result sink.old sink.new
            (after_hand_up (value_of self.old) port.now packet.now) }
    {
        let Some(seat) = self.manager_at(port) else {
            return self.hear(port, packet, sink);
        };
        self.take_in(seat, packet, sink)?;
        self.send(seat, sink)
    }

    /// Hands `packet` to the manager at index `seat`. Prints the refusal, if there is one, or a trap that is repressed.
    fn take_in<W: Sink>(
        &mut self,
        seat: usize,
        packet: &Packet,
        sink: &mut W,
    ) -> Result<(), RunFault>
        requires { seat < length self.old.managers.items }
        ensures does { Does W.written W.has_failed self.old self.new result sink.old sink.new
            (after_take (value_of self.old) seat packet.now) }
    {
        let Seated { seat, manager } = &mut self.managers[seat];
        match manager.on_packet(&packet.bytes, Some(packet.slid)) {
            Ok(trap) => show_trap(sink, Some(seat.name.as_str()), trap),
            Err(fault) => refuse_manager(sink, fault),
        }
    }
}

/// Returns the serial number that `which` names, of a packet that need not be in flight, or of the last one, if any.
fn serial(fabric: &Fabric, which: Which) -> Option<u64>
    ensures { result ≡ serial_of fabric.now.flights which }
{
    match which {
        Which::Serial(serial) => Some(serial),
        Which::Last => {
            let last = fabric.flight_count().checked_sub(1)?;
            Some(fabric.in_flight(last)?.serial)
        }
    }
}
