//! Managers that decide by themselves: what they are told, and what they then print and send.
ghost use Rattle.std.specs.Prelude.{◌≡◌, [], OnOk, Some, false, true};
ghost use Rattle.serve_run.specs.Acting.{value_of as acting_value};
ghost use Rattle.serve_run.specs.Working.{Told, given_away};
ghost use Rattle.schedule_lines.specs.Prints.{PrintsUnless};
ghost use Rattle.schedule_run.specs.Deciders.{after_decider_line, after_giving, after_hearing, after_pause_line};
ghost use Rattle.schedule_run.specs.Deciders.{after_telling, decider_at, decider_shown, is_awake_at};
ghost use Rattle.schedule_run.specs.World.{Does, after_inject_all, decider_value, value_of};

use crate::world::{Decider, World, send_one};
use byte_io::Sink;
use fabric_model::NodePort;
use fabric_sim::{Fabric, Packet};
use schedule_file::{Seat, Shown};
use schedule_lines::{RunFault, refuse_fabric, show_manager};
use serve_run::{ActingManager, note_all};

impl World<'_> {
    /// Seats the decider at `index`, if there is one, at its port and wakes it up, or prints the refusal of the fabric.
    pub(crate) fn seat_decider<W: Sink>(
        &mut self,
        index: usize,
        sink: &mut W,
    ) -> Result<(), RunFault>
        ensures does { Does W.written W.has_failed self.old self.new result sink.old sink.new
            (after_decider_line (value_of self.old) index) }
    {
        if index >= self.deciders.len() {
            return Ok(());
        }
        let decider = &mut self.deciders[index];
        decider.is_awake = true;
        match self.fabric.seat(decider.seat.at) {
            Ok(()) => Ok(()),
            Err(fault) => refuse_fabric(sink, fault),
        }
    }

    /// Lets the decider at `index` stand still. Does nothing if there is no such decider.
    pub(crate) fn pause(&mut self, index: usize)
        ensures managers { self.new.managers ≡ self.old.managers }
        ensures leaves { value_of self.new ≡ (after_pause_line (value_of self.old) index false).now }
    {
        self.set_awake(index, false);
    }

    /// Wakes the decider at `index` up again. Does nothing if there is no such decider.
    pub(crate) fn resume(&mut self, index: usize)
        ensures managers { self.new.managers ≡ self.old.managers }
        ensures leaves { value_of self.new ≡ (after_pause_line (value_of self.old) index true).now }
    {
        self.set_awake(index, true);
    }

    /// Wakes the decider at `index` up if `is_awake`, or else lets it stand still, if there is such a decider.
    fn set_awake(&mut self, index: usize, is_awake: bool)
        ensures managers { self.new.managers ≡ self.old.managers }
        ensures leaves { value_of self.new ≡ (after_pause_line (value_of self.old) index is_awake).now }
    {
        if index < self.deciders.len() {
            self.deciders[index].is_awake = is_awake;
        }
    }

    /// Prints what `what` asks about the decider at `index`. Prints nothing if there is no such decider.
    pub(crate) fn show_decider<W: Sink>(
        &self,
        index: usize,
        what: Shown,
        sink: &mut W,
    ) -> Result<(), RunFault>
        ensures prints { PrintsUnless W.written W.has_failed result sink.old sink.new
            (decider_shown (value_of self.now) index what) }
    {
        if index >= self.deciders.len() {
            return Ok(());
        }
        let decider = &self.deciders[index];
        let name = decider.seat.name.as_str();
        show_manager(sink, Some(name), decider.acting.manager(), what)
    }

    /// Tells `packet` to the decider that is awake at `port`, if any, and lets it give out what it then has to.
    #[tactic(auto, unfolding(crate::specs::Deciders::after_hearing))]
    pub(crate) fn hear<W: Sink>(
        &mut self,
        port: &NodePort,
        packet: &Packet,
        sink: &mut W,
    ) -> Result<(), RunFault>
        ensures does { Does W.written W.has_failed self.old self.new result sink.old sink.new
            (after_hearing (value_of self.old) port.now packet.now) }
    {
        match self.decider_at(port) {
            None => Ok(()),
            Some(index) => self.tell_packet(index, packet, sink),
        }
    }

    /// Returns the index of the decider that is awake and sits at `port`, or `None` if there is none.
    fn decider_at(&self, port: &NodePort) -> Option<usize>
        ensures { result ≡ decider_at (value_of self.now) port.now }
    {
        for (index, decider) in self.deciders.iter().enumerate() {
            if decider.is_awake_at(port) {
                return Some(index);
            }
        }
        None
    }

    /// Tells the decider at `index`, if there is one, that `packet` came, and lets it give out what it then has to.
    fn tell_packet<W: Sink>(
        &mut self,
        index: usize,
        packet: &Packet,
        sink: &mut W,
    ) -> Result<(), RunFault>
        ensures does { Does W.written W.has_failed self.old self.new result sink.old sink.new
            (after_telling (value_of self.old) index (Told.Packet packet.now.bytes (Some packet.now.slid))) }
    {
        if index >= self.deciders.len() {
            return Ok(());
        }
        let Decider { seat, acting, .. } = &mut self.deciders[index];
        acting.handle_packet(self.time, &packet.bytes, Some(packet.slid))?;
        give_out(&mut self.fabric, seat, acting, sink)
    }

    /// Tells the decider at `index`, if there is one, the time, and lets it give out what it then has to.
    pub(crate) fn tell_time<W: Sink>(&mut self, index: usize, sink: &mut W) -> Result<(), RunFault>
        ensures does { Does W.written W.has_failed self.old self.new result sink.old sink.new
            (after_telling (value_of self.old) index Told.Time) }
    {
        if index >= self.deciders.len() {
            return Ok(());
        }
        let Decider { seat, acting, .. } = &mut self.deciders[index];
        acting.handle_time(self.time)?;
        give_out(&mut self.fabric, seat, acting, sink)
    }
}

impl Decider<'_> {
    /// Returns whether the decider is awake and sits at `port`.
    fn is_awake_at(&self, port: &NodePort) -> bool
        ensures { result ≡ is_awake_at port.now (decider_value self.now) }
    {
        self.is_awake && self.seat.at == *port
    }
}

/// Prints the notes of `acting`, the manager of `seat`, sends its ready packets, and prints each refusal.
fn give_out<W: Sink>(
    fabric: &mut Fabric,
    seat: &Seat,
    acting: &mut ActingManager,
    sink: &mut W,
) -> Result<(), RunFault>
    ensures fabric { OnOk result (fabric.new
        ≡ (after_giving fabric.old seat.now.name seat.now.at (acting_value acting.old)).now) }
    ensures acting { OnOk result (acting_value acting.new ≡ given_away (acting_value acting.old)) }
    ensures prints { PrintsUnless W.written W.has_failed result sink.old sink.new
        (after_giving fabric.old seat.now.name seat.now.at (acting_value acting.old)).text }
{
    note_all(sink, Some(seat.name.as_str()), acting)?;
    send_ready(fabric, &seat.at, acting, sink)
}

/// Sends all packets that `acting` has ready from the port `from`, the next one first. Prints refusals of the fabric.
fn send_ready<W: Sink>(
    fabric: &mut Fabric,
    from: &NodePort,
    acting: &mut ActingManager,
    sink: &mut W,
) -> Result<(), RunFault>
    ensures fabric { OnOk result (fabric.new
        ≡ (after_inject_all fabric.old from.now (acting_value acting.old).ready).now) }
    ensures acting { OnOk result (acting_value acting.new
        ≡ record (acting_value acting.old) { ready = [] }) }
    ensures prints { PrintsUnless W.written W.has_failed result sink.old sink.new
        (after_inject_all fabric.old from.now (acting_value acting.old).ready).text }
{
    while let Some(outgoing) = acting.take_packet() {
        send_one(fabric, from, &outgoing, sink)?;
    }
    Ok(())
}
