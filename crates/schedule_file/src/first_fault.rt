//! The first fault of a text, found without memory from the allocator.
ghost use Rattle.std.specs.Prelude.{◌≡◌, None, Ok, Some, IfSome};
ghost use Rattle.text_words.specs.Text.{lines};
ghost use Rattle.schedule_file.specs.Command.{line_of};
ghost use Rattle.schedule_file.specs.FirstFault.{IsSoundOrCrowded, Leaves, fault_of, managers_with};
ghost use Rattle.schedule_file.specs.Manner.{newest_of};
ghost use Rattle.schedule_file.specs.Schedule.{known_with, schedule_of_lines};

use crate::line::{ScheduleLine, read_line};
use crate::resolve::resolve;
use crate::schedule::{Seat, new_seat};
use crate::schedule_fault::ScheduleFault;
use arrayvec::ArrayVec;
use std::marker::Model;
use text_words::split_line;
use topo_file::Topology;

/// Some managers, at most 64. They take no memory from the allocator.
type Seats = ArrayVec<Seat, 64>;

/// The managers so far: those that are asked, and those that decide by themselves.
#[derive(Drop)]
struct Known {
    seats: Seats,
    deciders: Seats,
}

impl Model for Known {
    ghost use Rattle.schedule_file.specs.Resolve.{Managers};

    ghost Value = { Managers };

    ghost view = { λ a. record { seats = a.seats.items; deciders = a.deciders.items } };
}

/// Returns the first fault of `text`, or `None` if there is none, or more than 64 managers come before it.
pub(crate) fn first_fault(topology: &Topology, text: &[u8]) -> Option<ScheduleFault>
    ensures found { IfSome result (λ fault.
        fault_of (schedule_of_lines topology.now.nodes (lines text.now)) ≡ Some fault) }
    ensures none { result ≡ None → IsSoundOrCrowded topology.now.nodes (lines text.now) }
{
    let mut known = Known {
        seats: Seats::new(),
        deciders: Seats::new(),
    };
    let mut number = 0;
    let mut rest = text;
    while let Some((line, later)) = split_line(rest) {
        number += 1;
        match known.judge_line(topology, number, line) {
            Ok(true) => rest = later,
            Ok(false) => return None,
            Err(fault) => return Some(fault),
        }
    }
    None
}

impl Known {
    /// Checks `line`, whose number is `number`, and adds its manager if it has a new one. Returns its fault, or else
    /// whether there was room, which there is for 64 of each kind.
    fn judge_line(
        &mut self,
        topology: &Topology,
        number: usize,
        line: &[u8],
    ) -> Result<bool, ScheduleFault>
        ensures { Leaves (managers_with topology.now.nodes number self.old (line_of line.now))
            result self.new }
    {
        match read_line(line) {
            None => Err(ScheduleFault::Syntax { line: number }),
            Some(ScheduleLine::Empty) => Ok(true),
            Some(ScheduleLine::Manager(new)) => {
                let seats = self.seats.as_slice();
                let deciders = self.deciders.as_slice();
                let seat = new_seat(topology, seats, deciders, number, new)?;
                Ok(self.add(seat))
            }
            Some(ScheduleLine::Command(named)) => {
                let seats = self.seats.as_slice();
                let deciders = self.deciders.as_slice();
                resolve(topology, seats, deciders, number, named)?;
                Ok(true)
            }
        }
    }

    /// Adds the manager of `seat`. Returns `false` if there are 64 of its kind already, and `true` if not.
    fn add(&mut self, seat: Seat) -> bool
        ensures { Leaves (Ok (known_with self.old seat (newest_of seat.manner))) (Ok result) self.new }
    {
        if seat.manner.newest().is_some() {
            self.deciders.try_push(seat).is_ok()
        } else {
            self.seats.try_push(seat).is_ok()
        }
    }
}
