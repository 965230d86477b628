ghost use Rattle.std.specs.Prelude.{◌≡◌, [], ◌∷◌, ◌++◌, Ok, Err, IfOk, OnErr};
ghost use Rattle.text_words.specs.Text.{lines};
ghost use Rattle.schedule_file.specs.Command.{line_of};
ghost use Rattle.schedule_file.specs.Resolve.{managers_in};
ghost use Rattle.schedule_file.specs.Schedule.{IsScript, empty, new_seat, schedule_of, schedule_of_lines};
ghost use Rattle.schedule_file.specs.Schedule.{with_line};
ghost use Rattle.schedule_file.specs.FirstFault.{IsSoundOrCrowded};
ghost use Rattle.schedule_file.specs.ScheduleFault.{Reads};

use crate::command::Command;
use crate::first_fault::first_fault;
use crate::line::{NewManager, ScheduleLine, read_line};
use crate::manager_name::ManagerName;
use crate::manner::Manner;
use crate::resolve::{SeatCommand, is_free, port, resolve, seat};
use crate::schedule_fault::ScheduleFault;
use attr_codec::Priority;
use fabric_model::{NodeId, NodePort};
use smp_bytes::PortNum;
use std::alloc::Global;
use std::marker::Model;
use text_words::split_line;
use topo_file::Topology;

/// A subnet manager, as given by its line in the schedule.
#[derive(Drop)]
pub struct Seat {
    pub name: ManagerName,
    /// The port at which the manager sits.
    pub at: NodePort,
    pub priority: Priority,
    pub manner: Manner,
}

/// The seat that fills the unused slots of a vector of fixed capacity.
impl Default for Seat {
    fn default() -> Self {
        Seat {
            name: ManagerName::default(),
            at: NodePort {
                node: NodeId::new(0),
                port: PortNum::MANAGEMENT,
            },
            priority: Priority::new(0).unwrap(),
            manner: Manner::Plain,
        }
    }
}

/// The subnet managers of a simulated fabric, and the commands that are run in it.
#[derive(Drop)]
pub struct Schedule {
    seats: Vec<Seat>,
    deciders: Vec<Seat>,
    commands: Vec<SeatCommand>,
}

impl Model for Schedule {
    ghost use Rattle.schedule_file.specs.Schedule.{Script};

    ghost Value = { Script };

    ghost view = { λ a. record { seats = a.seats.items; deciders = a.deciders.items; commands = a.commands.items } };
}

impl Schedule {
    /// Returns the managers that are asked, in the order of their lines.
    pub fn seats(&self) -> &[Seat]
        ensures { result.now ≡ self.now.seats }
    {
        &self.seats
    }

    /// Returns the managers that decide by themselves, in the order of their lines.
    pub fn deciders(&self) -> &[Seat]
        ensures { result.now ≡ self.now.deciders }
    {
        &self.deciders
    }

    /// Returns the commands in the order of their lines.
    pub fn commands(&self) -> &[SeatCommand]
        ensures { result.now ≡ self.now.commands }
    {
        &self.commands
    }

    /// Creates an empty schedule.
    fn new(alloc: Global) -> Self
        ensures { result ≡ empty }
    {
        Schedule {
            seats: Vec::new(alloc),
            deciders: Vec::new(alloc),
            commands: Vec::new(alloc),
        }
    }

    /// Adds the seat or the command that `line`, of the number `number`, gives. Fails with its fault, or `Memory`.
    fn with(self, topology: &Topology, number: usize, line: &[u8]) -> Result<Self, ScheduleFault>
        ensures { Reads result (with_line topology.now.nodes number self (line_of line.now)) }
    {
        match read_line(line) {
            None => Err(ScheduleFault::Syntax { line: number }),
            Some(ScheduleLine::Empty) => Ok(self),
            Some(ScheduleLine::Manager(new)) => {
                let seat = new_seat(topology, &self.seats, &self.deciders, number, new)?;
                let Schedule {
                    seats,
                    deciders,
                    commands,
                } = self;
                match seat.manner.newest() {
                    None => {
                        let commands = and_one(commands, Command::Manager(seats.len()))?;
                        let seats = and_one(seats, seat)?;
                        Ok(Schedule {
                            seats,
                            deciders,
                            commands,
                        })
                    }
                    Some(_) => {
                        let commands = and_one(commands, Command::Decider(deciders.len()))?;
                        let deciders = and_one(deciders, seat)?;
                        Ok(Schedule {
                            seats,
                            deciders,
                            commands,
                        })
                    }
                }
            }
            Some(ScheduleLine::Command(named)) => {
                let command = resolve(topology, &self.seats, &self.deciders, number, named)?;
                let commands = and_one(self.commands, command)?;
                Ok(Schedule { commands, ..self })
            }
        }
    }
}

/// Appends `item` to `items`. Returns `Memory` if memory runs out.
fn and_one<T: Drop>(items: Vec<T>, item: T) -> Result<Vec<T>, ScheduleFault>
    ensures grown { IfOk result (λ now. now.items ≡ items.items ++ item ∷ []) }
    ensures memory { OnErr result (result ≡ Err ScheduleFault.Memory) }
{
    let mut items = items;
    items.push(item)?;
    Ok(items)
}

/// Builds the seat of the manager `new`, of the line `line`. Fails with `Name` if its name is taken or no node has the
/// name in `new.at`, and otherwise with `Seat` if no manager may sit there or one does already.
pub(crate) fn new_seat(
    topology: &Topology,
    seats: &[Seat],
    deciders: &[Seat],
    line: usize,
    new: NewManager,
) -> Result<Seat, ScheduleFault>
    ensures { result ≡ new_seat topology.now.nodes (managers_in seats.now deciders.now) line new }
{
    let NewManager {
        name,
        at,
        priority,
        manner,
    } = new;
    if seat(seats, &name).is_some() || seat(deciders, &name).is_some() {
        return Err(ScheduleFault::Name { line });
    }
    let Some(at) = port(topology, &at) else {
        return Err(ScheduleFault::Name { line });
    };
    if !is_free(topology, seats, deciders, &at) {
        return Err(ScheduleFault::Seat { line });
    }
    Ok(Seat {
        name,
        at,
        priority,
        manner,
    })
}

/// Parses the text of a schedule for a fabric. A line ends with LF or CR LF, and the last one may end with the text.
/// A line is empty or a command. `#` outside quotes begins a comment:
///
/// ```text
/// manager A "H1"[1] 5
/// sweep A
/// drain 100
/// ```
///
/// | Command | Numbers |
/// |---|---|
/// | `manager NAME "node"[port] PRIORITY` | priority 0 to 15 |
/// | `manager NAME "node"[port] PRIORITY live KEY` | 64-bit SM_Key |
/// | `manager NAME "node"[port] PRIORITY decides GENERATION` | generation 0 to 4,294,967,294 |
/// | `sweep NAME`, `write NAME`, `handover NAME`, `yield NAME`, `rediscover NAME`, `timeout NAME` | |
/// | `poll NAME`, `poll NAME LID` | LID 0 to 65,535 |
/// | `floor NAME GENERATION` | generation 1 to 4,294,967,295 |
/// | `facts NAME`, `plan NAME`, `progress NAME`, `silent NAME`, `written NAME`, `state NAME` | |
/// | `merge NAME NAME` | |
/// | `pause NAME`, `resume NAME` | |
/// | `wait MILLISECONDS COUNT` | milliseconds 0 to 4,294,967,295, count 0 to 10,000 |
/// | `deliver PACKET`, `lose PACKET`, `repeat PACKET` | `last`, or a 64-bit serial number |
/// | `drain COUNT` | 0 to 1,000,000 |
/// | `cut "node"[port]`, `plug "node"[port] "node"[port]` | port 0 to 255 |
/// | `ping "node"[port] LID` | LID 0 to 65,535 |
/// | `traps`, `resend`, `tables`, `flight` | |
///
/// A manager sits at an adapter's port. Its name is 1 to 16 ASCII letters and digits, and is known after the
/// manager's own line. A manager that decides by itself is asked for nothing and merged with nobody, and no other is
/// paused or resumed. For each line, besides parsing it and finding its nodes, takes time linear in the number of
/// managers.
///
/// # Errors
///
/// Returns the first fault. If memory runs out, checks the lines again without memory from the allocator, with space
/// for only 64 managers. Returns `Memory` if then no line has a fault, or if more than 64 managers come before the
/// first fault.
#[tactic(auto, using(crate::proofs::Scripts::told_is_script), unfolding(crate::specs::Schedule::schedule_of))]
pub fn parse(alloc: Global, text: &str, topology: &Topology) -> Result<Schedule, ScheduleFault>
    ensures reads { Reads result (schedule_of topology.now.nodes text.now) }
    ensures script { IfOk result (IsScript topology.now.nodes) }
    ensures memory { result ≡ Err ScheduleFault.Memory
        → IsSoundOrCrowded topology.now.nodes (lines text.now) }
{
    match read_lines(alloc, text.as_bytes(), topology) {
        Ok(schedule) => Ok(schedule),
        Err(fault) if fault != ScheduleFault::Memory => Err(fault),
        Err(_) => match first_fault(topology, text.as_bytes()) {
            Some(fault) => Err(fault),
            None => Err(ScheduleFault::Memory),
        },
    }
}

/// Parses the lines of `text`. Returns the first fault, or `Memory` if memory runs out.
fn read_lines(alloc: Global, text: &[u8], topology: &Topology) -> Result<Schedule, ScheduleFault>
    ensures { Reads result (schedule_of_lines topology.now.nodes (lines text.now)) }
{
    let mut schedule = Schedule::new(alloc);
    let mut number = 0;
    let mut rest = text;
    while let Some((line, later)) = split_line(rest) {
        number += 1;
        schedule = schedule.with(topology, number, line)?;
        rest = later;
    }
    Ok(schedule)
}
