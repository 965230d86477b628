//! Commands with their names resolved, as they are run.
ghost use Rattle.std.specs.Prelude.{◌≡◌};
ghost use Rattle.schedule_file.specs.Resolve.{command_of, is_free, is_seat, is_taken, managers_in};
ghost use Rattle.schedule_file.specs.Resolve.{may_seat, mistakes, port_of, resolved, seat_of, shown_in};

use crate::command::{Command, Shown};
use crate::manager_name::ManagerName;
use crate::named_command::{NamedCommand, PortName};
use crate::schedule::Seat;
use crate::schedule_fault::ScheduleFault;
use fabric_model::NodePort;
use smp_bytes::PortNum;
use topo_file::{Node, Topology};

/// A command as it is run. Managers are given by the indices of their seats among those of their kind, counted from 0,
/// and nodes by their ids.
pub type SeatCommand = Command<usize, NodePort>;

/// Resolves the names in `command`, of the line `line`, for the managers `seats` that are asked and `deciders` that
/// decide by themselves. Fails with `Decides` if it asks one of `deciders` for something, or is to pause or resume one
/// of `seats`, and otherwise with `Name` if a name is unknown.
pub(crate) fn resolve(
    topology: &Topology,
    seats: &[Seat],
    deciders: &[Seat],
    line: usize,
    command: NamedCommand,
) -> Result<SeatCommand, ScheduleFault>
    ensures { result ≡ resolved topology.now.nodes (managers_in seats.now deciders.now) line command }
{
    if mistakes(seats, deciders, &command) {
        return Err(ScheduleFault::Decides { line });
    }
    match command_of(topology, seats, deciders, command) {
        Some(command) => Ok(command),
        None => Err(ScheduleFault::Name { line }),
    }
}

/// Returns whether `command` asks one of `deciders` for something, or is to pause or resume one of `seats`.
fn mistakes(seats: &[Seat], deciders: &[Seat], command: &NamedCommand) -> bool
    ensures { result ≡ mistakes (managers_in seats.now deciders.now) command.now }
{
    match command {
        Command::Ask(name, _) | Command::Timeout(name) | Command::Floor(name, _) => {
            seat(deciders, name).is_some()
        }
        Command::Merge(one, other) => {
            seat(deciders, one).is_some() || seat(deciders, other).is_some()
        }
        Command::Pause(name) | Command::Resume(name) => seat(seats, name).is_some(),
        _ => false,
    }
}

/// Resolves the names in `command`. Returns `None` if a name is unknown.
fn command_of(
    topology: &Topology,
    seats: &[Seat],
    deciders: &[Seat],
    command: NamedCommand,
) -> Option<SeatCommand>
    ensures { result ≡ command_of topology.now.nodes (managers_in seats.now deciders.now) command }
{
    Some(match command {
        Command::Manager(name) => Command::Manager(seat(seats, &name)?),
        Command::Decider(name) => Command::Decider(seat(deciders, &name)?),
        Command::Ask(name, what) => Command::Ask(seat(seats, &name)?, what),
        Command::Timeout(name) => Command::Timeout(seat(seats, &name)?),
        Command::Floor(name, floor) => Command::Floor(seat(seats, &name)?, floor),
        Command::Merge(one, other) => {
            let one = seat(seats, &one)?;
            Command::Merge(one, seat(seats, &other)?)
        }
        Command::Show(name, what) => shown(seats, deciders, &name, what)?,
        Command::ShowDecider(name, what) => Command::ShowDecider(seat(deciders, &name)?, what),
        Command::Pause(name) => Command::Pause(seat(deciders, &name)?),
        Command::Resume(name) => Command::Resume(seat(deciders, &name)?),
        Command::Wait(time, most) => Command::Wait(time, most),
        Command::Packet(which, fate) => Command::Packet(which, fate),
        Command::Drain(most) => Command::Drain(most),
        Command::Cut(name) => Command::Cut(port(topology, &name)?),
        Command::Plug(one, other) => {
            let one = port(topology, &one)?;
            Command::Plug(one, port(topology, &other)?)
        }
        Command::Ping(name, lid) => Command::Ping(port(topology, &name)?, lid),
        Command::Traps => Command::Traps,
        Command::Resend => Command::Resend,
        Command::Tables => Command::Tables,
        Command::Flight => Command::Flight,
    })
}

/// Returns the command that shows `what` of the manager with the name `name`, or `None` if no manager has this name.
fn shown(seats: &[Seat], deciders: &[Seat], name: &ManagerName, what: Shown) -> Option<SeatCommand>
    ensures { result ≡ shown_in (managers_in seats.now deciders.now) name.now what }
{
    match seat(seats, name) {
        Some(seat) => Some(Command::Show(seat, what)),
        None => Some(Command::ShowDecider(seat(deciders, name)?, what)),
    }
}

/// Returns the index of the manager with the name `name`, if any, in time linear in the number of managers.
pub(crate) fn seat(seats: &[Seat], name: &ManagerName) -> Option<usize>
    ensures { result ≡ seat_of seats.now name.now }
{
    seats.iter().position(|seat| seat.name.is(name))
}

/// Returns the port that `name` names, which its node need not have, or `None` if no node has the node name.
pub(crate) fn port(topology: &Topology, name: &PortName) -> Option<NodePort>
    ensures { result ≡ port_of topology.now.nodes name.now }
{
    Some(NodePort {
        node: topology.find(name.node.as_str())?,
        port: name.port,
    })
}

/// Returns whether a manager may sit at `port`, and no manager does. Takes time linear in the number of managers.
pub(crate) fn is_free(
    topology: &Topology,
    seats: &[Seat],
    deciders: &[Seat],
    port: &NodePort,
) -> bool
    ensures { result ≡ is_free topology.now.nodes (managers_in seats.now deciders.now) port.now }
{
    is_seat(topology, port) && !(is_taken(seats, port) || is_taken(deciders, port))
}

/// Returns whether a manager sits at `port`. Takes time linear in the number of managers.
fn is_taken(seats: &[Seat], port: &NodePort) -> bool
    ensures { result ≡ is_taken seats.now port.now }
{
    seats.iter().any(|seat| seat.at == *port)
}

/// Returns whether `port` is from 1 to the port count of an adapter, so that a manager may sit there.
fn is_seat(topology: &Topology, port: &NodePort) -> bool
    ensures { result ≡ is_seat topology.now.nodes port.now }
{
    match topology.node(port.node) {
        Some(node) => may_seat(node, port.port),
        None => false,
    }
}

/// Returns whether `node` is an adapter, and `port` is from 1 to its port count.
fn may_seat(node: &Node, port: PortNum) -> bool
    ensures { result ≡ may_seat node.now port }
{
    !node.kind.is_switch() && port.is_within(node.ports)
}
