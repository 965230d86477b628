//! The next entries of the switches for a LID, by an order of the switches.
ghost use Rattle.std.specs.Prelude.{◌≡◌, ◌<◌, ◌||◌, ℕ, IfOk, false, length, map, replicate};
ghost use Rattle.std.specs.List.{enumerate_from};
ghost use Rattle.next_tables.specs.OrderRule.{goes_up};
ghost use Rattle.next_tables.specs.SwitchPositions.{position_at};
ghost use Rattle.next_tables.specs.SettledEntries.{arrives_by};
ghost use Rattle.next_tables.specs.OrderedEntries.{entered_of, flag, is_differing, leads_in, may_change_by};
ghost use Rattle.next_tables.specs.OrderedEntries.{entries_by, entry_by, enters, going_up_of, ordered_of, tried_by};
ghost use Rattle.next_tables.specs.OrderedEntries.{tried_of, turns_well_by};

use crate::held_arrivals::{arrives_by, delivered, flag, hops, leads_in};
use crate::switch_positions::{is_down, is_up};
use packet_walks::ends_by_switch::ends;
use packet_walks::{NextHop, SwitchStep};
use std::alloc::{AllocError, Global};
use subnet_view::EndPort;

/// What is known of each switch before any switch changes its entry.
#[derive(Drop)]
struct SwitchFlags {
    /// For each switch, whether the held tables deliver the packet from there.
    delivered: Vec<bool>,
    /// For each switch, whether it sends the packet up according to a held entry that is not the goal's.
    going_up: Vec<bool>,
    /// For each switch, whether some switch sends the packet down to it according to a held entry that is not the
    /// goal's.
    entered: Vec<bool>,
}

/// Returns the next entries of the switches towards `port`, by their `positions` and their steps `held` and `goal`.
/// Takes time linear in the number of switches, times the logarithm of the longest walk's length.
pub(crate) fn ordered_entries(
    alloc: Global,
    port: &EndPort,
    positions: &[usize],
    held: &[SwitchStep],
    goal: &[SwitchStep],
) -> Result<Vec<u8>, AllocError>
    ensures { IfOk result (λ entries. entries.items ≡ ordered_of positions.now port.now held.now goal.now) }
{
    let delivered = delivered(alloc, port, held)?;
    let going_up = going_up(alloc, positions, held, goal)?;
    let entered = entered(alloc, positions, held, goal)?;
    let flags = SwitchFlags {
        delivered,
        going_up,
        entered,
    };
    let tried = tried(alloc, port, positions, &flags, held, goal)?;
    entries_by(alloc, port, &tried)
}

/// Returns, for each switch, whether it sends the packet up according to a held entry that is not the goal's.
fn going_up(
    alloc: Global,
    positions: &[usize],
    held: &[SwitchStep],
    goal: &[SwitchStep],
) -> Result<Vec<bool>, AllocError>
    ensures { IfOk result (λ going_up. going_up.items ≡ going_up_of positions.now held.now goal.now) }
{
    held.iter()
        .zip(goal.iter())
        .enumerate()
        .map(|(index, (held, goal))| goes_up(positions, index, &held.hop)
            && is_differing(held, goal))
        .collect(alloc)
}

/// Returns whether `held` and `goal` have different entries.
fn is_differing(held: &SwitchStep, goal: &SwitchStep) -> bool
    ensures { result ≡ is_differing held.now goal.now }
{
    held.entry != goal.entry
}

/// Returns whether `hop` leads up from the switch at `index`.
fn goes_up(positions: &[usize], index: usize, hop: &NextHop) -> bool
    ensures { result ≡ goes_up (position_at positions.now) index hop.now }
{
    match hop {
        NextHop::To(to) => is_up(positions, index, *to),
        NextHop::Ends(_) => false,
    }
}

/// Returns, for each switch, whether some switch sends the packet down to it by a held entry that is not the goal's.
fn entered(
    alloc: Global,
    positions: &[usize],
    held: &[SwitchStep],
    goal: &[SwitchStep],
) -> Result<Vec<bool>, AllocError>
    ensures { IfOk result (λ entered. entered.items ≡ entered_of positions.now held.now goal.now) }
{
    let mut entered = none_entered(alloc, held.len())?;
    for index in 0..held.len().min(goal.len()) {
        enter(&mut entered, positions, index, &held[index], &goal[index]);
    }
    Ok(entered)
}

/// Returns a list of `count` flags, all false.
fn none_entered(alloc: Global, count: usize) -> Result<Vec<bool>, AllocError>
    ensures { IfOk result (λ flags. flags.items ≡ replicate count false) }
{
    vec![in alloc; false; count]
}

/// Sets, in `entered`, the flag of the switch that `index` sends down to by a held entry that is not the goal's.
fn enter(
    entered: &mut [bool],
    positions: &[usize],
    index: usize,
    held: &SwitchStep,
    goal: &SwitchStep,
)
    ensures as_many { length entered.new ≡ length entered.old }
    ensures each { (i : ℕ) → i < length entered.old → flag entered.new i
        ≡ (flag entered.old i || enters positions.now index held.now goal.now i) }
{
    if let NextHop::To(to) = held.hop {
        if to < entered.len() && is_down(positions, index, to) && is_differing(held, goal) {
            entered[to] = true;
        }
    }
}

/// Returns the step that each switch tries: the goal's if it may change to that one, and otherwise the held one.
fn tried(
    alloc: Global,
    port: &EndPort,
    positions: &[usize],
    flags: &SwitchFlags,
    held: &[SwitchStep],
    goal: &[SwitchStep],
) -> Result<Vec<SwitchStep>, AllocError>
    ensures { IfOk result (λ tried. tried.items ≡ tried_of positions.now port.now flags.now.delivered.items
        flags.now.going_up.items flags.now.entered.items held.now goal.now) }
{
    held.iter()
        .zip(goal.iter())
        .enumerate()
        .map(|(index, (held, goal))| tried_by(port, positions, flags, index, held, goal))
        .collect(alloc)
}

/// Returns the step that the switch at `index` tries: `goal` if the switch may change to that one, otherwise `held`.
fn tried_by(
    port: &EndPort,
    positions: &[usize],
    flags: &SwitchFlags,
    index: usize,
    held: &SwitchStep,
    goal: &SwitchStep,
) -> SwitchStep
    ensures { result ≡ tried_by positions.now port.now flags.now.delivered.items
        flags.now.going_up.items flags.now.entered.items (index, (held.now, goal.now)) }
{
    if may_change(port, positions, flags, index, &goal.hop) {
        *goal
    } else {
        *held
    }
}

/// Returns whether the switch at `index` may take the goal's hop `hop`: it makes no turn from down to up and, if the
/// held tables deliver from there, ends at `port` or leads to a switch from which they deliver.
fn may_change(
    port: &EndPort,
    positions: &[usize],
    flags: &SwitchFlags,
    index: usize,
    hop: &NextHop,
) -> bool
    ensures { result ≡ may_change_by positions.now port.now flags.now.delivered.items
        flags.now.going_up.items flags.now.entered.items index hop.now }
{
    turns_well(positions, flags, index, hop)
        && (!flag(&flags.delivered, index) || leads_in(port, &flags.delivered, hop))
}

/// Returns whether `hop`, the goal's next hop at `index`, makes no turn from down to up with other held entries: it
/// leads up only if the switch is not `entered`, and down only if the next one is not `going_up`.
fn turns_well(positions: &[usize], flags: &SwitchFlags, index: usize, hop: &NextHop) -> bool
    ensures { result ≡ turns_well_by positions.now flags.now.going_up.items flags.now.entered.items index hop.now }
{
    match hop {
        NextHop::To(to) => {
            (!is_up(positions, index, *to) || !flag(&flags.entered, index))
                && (!is_down(positions, index, *to) || !flag(&flags.going_up, *to))
        }
        NextHop::Ends(_) => true,
    }
}

/// Returns, for each switch, the entry of its step in `tried` if these steps deliver from there at `port`, else 255.
fn entries_by(alloc: Global, port: &EndPort, tried: &[SwitchStep]) -> Result<Vec<u8>, AllocError>
    ensures { IfOk result (λ entries. entries.items ≡ entries_by port.now tried.now) }
{
    let hops = hops(alloc, tried)?;
    let ends = ends(hops);
    entries_where(alloc, port, &ends, tried)
}

/// Returns, for each switch, the entry of its step if the walk from there arrives at `port` by `ends`, otherwise 255.
fn entries_where(
    alloc: Global,
    port: &EndPort,
    ends: &[NextHop],
    steps: &[SwitchStep],
) -> Result<Vec<u8>, AllocError>
    ensures { IfOk result (λ entries.
        entries.items ≡ map (entry_by (arrives_by port.now ends.now)) (enumerate_from 0 steps.now)) }
{
    steps
        .iter()
        .enumerate()
        .map(|(index, step)| entry_by(port, ends, index, step))
        .collect(alloc)
}

/// Returns the entry of `step` if the walk from the switch at `index` arrives at `port` by `ends`, otherwise 255.
fn entry_by(port: &EndPort, ends: &[NextHop], index: usize, step: &SwitchStep) -> u8
    ensures { result ≡ entry_by (arrives_by port.now ends.now) (index, step.now) }
{
    if arrives_by(port, ends, NextHop::To(index)) {
        step.entry
    } else {
        255
    }
}
