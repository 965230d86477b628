//! The commands of a schedule, which are run in turn.
ghost use Rattle.std.specs.Prelude.{◌≡◌, false, length, OnOk, IsTrue};
ghost use Rattle.schedule_file.specs.Schedule.{IsScript, NamesManagers};
ghost use Rattle.schedule_run.specs.Commands.{after_command};
ghost use Rattle.schedule_run.specs.RunText.{script_text};
ghost use Rattle.schedule_lines.specs.Prints.{PrintsUnless};
ghost use Rattle.schedule_run.specs.World.{Does, value_of};

use crate::world::World;
use byte_io::Sink;
use lft_blocks::Planning;
use schedule_file::{Command, Schedule, SeatCommand};
use schedule_lines::{RunFault, show_tables};
use std::alloc::Global;
use topo_file::Topology;

/// Runs the commands of `schedule` in the fabric of `topology`, with managers that plan as `planning` says, and flushes
/// `sink`. If the fabric or a manager refuses a call, prints a line and goes on. Returns `Memory` if memory runs out; a
/// prefix of the text has then been printed. Returns `Write` if a write to the output failed.
pub(crate) fn run_commands<W: Sink>(
    alloc: Global,
    topology: &Topology,
    schedule: &Schedule,
    planning: &Planning,
    sink: &mut W,
) -> Result<(), RunFault>
    requires { IsScript topology.now.nodes schedule.now }
    ensures prints { PrintsUnless W.written W.has_failed result sink.old sink.new
        (script_text planning.now topology.now schedule.now) }
    ensures flushed { OnOk result (IsTrue (W.is_flushed sink.new)) }
    ensures sink_works { OnOk result (W.has_failed sink.new ≡ false) }
{
    let seats = schedule.seats();
    let mut world = World::of(alloc, topology, seats, schedule.deciders(), planning)?;
    for command in schedule.commands() {
        world.execute(alloc, topology, *command, sink)?;
    }
    sink.flush()?;
    Ok(())
}

impl World<'_> {
    /// Runs `command`.
    fn execute<W: Sink>(
        &mut self,
        alloc: Global,
        topology: &Topology,
        command: SeatCommand,
        sink: &mut W,
    ) -> Result<(), RunFault>
        requires { NamesManagers (length self.old.managers.items) command }
        ensures does { Does W.written W.has_failed self.old self.new result sink.old sink.new
            (after_command topology.now.nodes (value_of self.old) command) }
    {
        match command {
            Command::Manager(seat) => self.seat(seat, sink),
            Command::Decider(index) => self.seat_decider(index, sink),
            Command::Ask(seat, what) => self.ask(seat, what, sink),
            Command::Timeout(seat) => self.time_out(alloc, seat, sink),
            Command::Floor(seat, floor) => {
                self.raise_floor(seat, floor);
                Ok(())
            }
            Command::Merge(seat, other) => self.merge(seat, other, sink),
            Command::Show(seat, what) => self.show(seat, what, sink),
            Command::ShowDecider(index, what) => self.show_decider(index, what, sink),
            Command::Pause(index) => {
                self.pause(index);
                Ok(())
            }
            Command::Resume(index) => {
                self.resume(index);
                Ok(())
            }
            Command::Wait(wait, most) => self.wait(wait, most, sink),
            Command::Packet(which, fate) => self.handle_packet(which, fate, sink),
            Command::Drain(most) => self.drain(most, sink),
            Command::Cut(port) => self.cut(port, sink),
            Command::Plug(one, other) => self.plug(one, other, sink),
            Command::Ping(from, lid) => self.show_ping(topology, from, lid, sink),
            Command::Traps => self.begin_traps(alloc, sink),
            Command::Resend => self.resend(sink),
            Command::Tables => show_tables(alloc, &self.fabric, sink),
            Command::Flight => self.show_flight(topology, sink),
        }
    }
}
