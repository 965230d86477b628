//! The way of a packet by the facts and the tables of a plan.
ghost use Rattle.std.specs.Prelude.{◌≡◌, ◌-◌, ◌≤◌};
ghost use Rattle.sa_answers.specs.Bound.{bound_at, lesser};
ghost use Rattle.sa_answers.specs.Told.{value_of};
ghost use Rattle.subnet_view.specs.Wires.{across};
ghost use Rattle.sa_answers.specs.Way.{bound_of_way, by_adapter, by_entry, followed, is_port, most_steps};
ghost use Rattle.sa_answers.specs.Way.{after_step, over, over_wire, planned_entry, step_at, taken_at};

use crate::bound::{Bound, bound_at, lesser};
use crate::told::Told;
use smp_bytes::{Guid, Lid, PortNum};
use subnet_view::{EndPort, is_usable, wire};

/// What becomes of a packet at a port.
#[derive(Clone, Copy, Debug, PartialEq, Eq)]
pub enum WayStep {
    /// The node takes the packet at its port with this number.
    Takes(PortNum),
    /// The packet leaves the node by the port with this number.
    Leaves(PortNum),
    Drops,
}

/// What follows a step.
#[derive(Clone, Copy, Debug, PartialEq, Eq)]
pub enum WayNext {
    /// It was the last, with this outcome.
    Ends(Option<Bound>),
    /// The packet came by a wire to this port.
    Goes((Guid, PortNum), Bound),
}

/// Returns what the ports let through that a packet from `source` for `lid`, a LID of `owner`, passes, or `None` if it
/// does not come to the owner. Does some ten binary searches among the facts at each wire.
pub(crate) fn bound_of_way(
    told: &Told<'_>,
    lid: Lid,
    owner: &EndPort,
    source: &EndPort,
) -> Option<Bound>
    ensures { result ≡ bound_of_way (value_of told.now) lid owner.now source.now }
{
    let mut at = port_at(source);
    let mut by_wire = false;
    let mut least = lesser(bound_at(told, &at), bound_at(told, &port_at(owner)));
    let count = told.plan.switches().len() + 2;
    for _ in 0..count {
        match take_step(told, lid, owner, &at, by_wire, least) {
            WayNext::Ends(outcome) => return outcome,
            WayNext::Goes(into, less) => {
                at = into;
                by_wire = true;
                least = less;
            }
        }
    }
    None
}

/// Returns the node and the number of an end port.
fn port_at(port: &EndPort) -> (Guid, PortNum)
    ensures { result ≡ (port.now.node, port.now.port) }
{
    (port.node, port.port)
}

/// Returns what follows the step of a packet for `lid`, a LID of `owner`, at the port `at`, there by a wire or not.
fn take_step(
    told: &Told<'_>,
    lid: Lid,
    owner: &EndPort,
    at: &(Guid, PortNum),
    by_wire: bool,
    least: Bound,
) -> WayNext
    ensures { result ≡ after_step (value_of told.now) owner.now at.now least
        (step_at (value_of told.now) lid owner.now at.now by_wire) }
{
    match step_at(told, lid, owner, at, by_wire) {
        WayStep::Takes(port) => WayNext::Ends(taken_at(owner, &(at.0, port), least)),
        WayStep::Drops => WayNext::Ends(None),
        WayStep::Leaves(port) => over(told, least, &(at.0, port)),
    }
}

/// Returns what follows if a packet leaves by the port `out`.
fn over(told: &Told<'_>, least: Bound, out: &(Guid, PortNum)) -> WayNext
    ensures { result ≡ over (value_of told.now) least out.now
        (across (value_of told.now).cells out.now.0 out.now.1) }
{
    match wire(told.store, out.0, out.1) {
        None => WayNext::Ends(None),
        Some(into) => {
            let less = over_wire(told, least, out, &into);
            WayNext::Goes(into, less)
        }
    }
}

/// Returns the least of `least` and of what both ends of a wire let through.
fn over_wire(told: &Told<'_>, least: Bound, out: &(Guid, PortNum), into: &(Guid, PortNum)) -> Bound
    ensures { result ≡ over_wire (value_of told.now) least out.now into.now }
{
    lesser(lesser(least, bound_at(told, out)), bound_at(told, into))
}

/// Returns what becomes of a packet for `lid`, a LID of `owner`, at the port `at`, to which it came by a wire or not.
fn step_at(
    told: &Told<'_>,
    lid: Lid,
    owner: &EndPort,
    at: &(Guid, PortNum),
    by_wire: bool,
) -> WayStep
    ensures { result ≡ step_at (value_of told.now) lid owner.now at.now by_wire }
{
    if is_usable(told.store, at.0) {
        by_entry(planned_entry(told, at.0, lid))
    } else if is_port(owner, at) {
        WayStep::Takes(at.1)
    } else if by_wire {
        WayStep::Drops
    } else {
        WayStep::Leaves(at.1)
    }
}

/// Returns `least` if a packet that is taken at the port `at` is taken by the owner of its LID.
fn taken_at(owner: &EndPort, at: &(Guid, PortNum), least: Bound) -> Option<Bound>
    ensures { result ≡ taken_at owner.now at.now least }
{
    if is_port(owner, at) {
        Some(least)
    } else {
        None
    }
}

/// Returns whether `at` is the port `end`.
fn is_port(end: &EndPort, at: &(Guid, PortNum)) -> bool
    ensures { result ≡ is_port end.now at.now }
{
    at.0 == end.node && at.1 == end.port
}

/// Returns what a switch does with a packet for which its table has `entry`.
fn by_entry(entry: u8) -> WayStep
    ensures { result ≡ by_entry entry }
{
    match entry {
        0 => WayStep::Takes(PortNum::new(0)),
        255 => WayStep::Drops,
        port => WayStep::Leaves(PortNum::new(port)),
    }
}

/// Returns the entry of the switch `guid` for `lid`, or 255 if the plan has none.
fn planned_entry(told: &Told<'_>, guid: Guid, lid: Lid) -> u8
    ensures { result ≡ planned_entry (value_of told.now).plan guid lid }
{
    let number = usize::from(lid.number());
    match told.plan.block(guid, number / 64) {
        Some(block) => block[number % 64],
        None => 255,
    }
}
