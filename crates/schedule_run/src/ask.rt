//! The commands to managers.
ghost use Rattle.std.specs.Prelude.{◌≡◌, ◌<◌, length};
ghost use Rattle.schedule_run.specs.Commands.{after_ask_line, after_floor_line, after_give_up};
ghost use Rattle.schedule_run.specs.Commands.{after_manager_line, after_timeout_line};
ghost use Rattle.schedule_run.specs.World.{Does, value_of};

use crate::world::World;
use byte_io::Sink;
use schedule_file::Ask;
use schedule_lines::{RunFault, ask_manager, refuse_fabric, refuse_manager, waiting};
use smp_bytes::Generation;
use std::alloc::Global;

impl World<'_> {
    /// Seats the manager at index `seat` at its port. If the fabric refuses the call, prints the refusal.
    pub(crate) fn seat<W: Sink>(&mut self, seat: usize, sink: &mut W) -> Result<(), RunFault>
        requires { seat < length self.old.managers.items }
        ensures does { Does W.written W.has_failed self.old self.new result sink.old sink.new
            (after_manager_line (value_of self.old) seat) }
    {
        match self.fabric.seat(self.managers[seat].seat.at) {
            Ok(()) => Ok(()),
            Err(fault) => refuse_fabric(sink, fault),
        }
    }

    /// Makes the request `what` to the manager at `seat`, and sends what it then has queued, or prints its refusal.
    pub(crate) fn ask<W: Sink>(
        &mut self,
        seat: usize,
        what: Ask,
        sink: &mut W,
    ) -> Result<(), RunFault>
        requires { seat < length self.old.managers.items }
        ensures does { Does W.written W.has_failed self.old self.new result sink.old sink.new
            (after_ask_line (value_of self.old) seat what) }
    {
        if let Err(fault) = ask_manager(&mut self.managers[seat].manager, what) {
            return refuse_manager(sink, fault);
        }
        self.send(seat, sink)
    }

    /// Makes the manager at index `seat` forget the facts of generations below `floor`.
    pub(crate) fn raise_floor(&mut self, seat: usize, floor: Generation)
        requires { seat < length self.old.managers.items }
        ensures managers { length self.new.managers.items ≡ length self.old.managers.items }
        ensures leaves { value_of self.new ≡ (after_floor_line (value_of self.old) seat floor).now }
    {
        self.managers[seat].manager.raise_floor(floor);
    }

    /// Times out each outstanding request of the manager at `seat`, prints refusals, and sends what it then has queued.
    pub(crate) fn time_out<W: Sink>(
        &mut self,
        alloc: Global,
        seat: usize,
        sink: &mut W,
    ) -> Result<(), RunFault>
        requires { seat < length self.old.managers.items }
        ensures does { Does W.written W.has_failed self.old self.new result sink.old sink.new
            (after_timeout_line (value_of self.old) seat) }
    {
        let waiting = waiting(alloc, &self.managers[seat].manager)?;
        for transaction in &waiting {
            self.give_up(seat, *transaction, sink)?;
        }
        self.send(seat, sink)
    }

    /// Times out the request `transaction` of the manager at index `seat`. Prints the refusal, if it is refused.
    fn give_up<W: Sink>(
        &mut self,
        seat: usize,
        transaction: u64,
        sink: &mut W,
    ) -> Result<(), RunFault>
        requires { seat < length self.old.managers.items }
        ensures does { Does W.written W.has_failed self.old self.new result sink.old sink.new
            (after_give_up (value_of self.old) seat transaction) }
    {
        match self.managers[seat].manager.on_timeout(transaction) {
            Ok(()) => Ok(()),
            Err(fault) => refuse_manager(sink, fault),
        }
    }
}
