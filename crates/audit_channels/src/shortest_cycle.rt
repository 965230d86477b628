//! A shortest cycle of channels, by a breadth-first search from each channel without a number.
ghost use Rattle.std.specs.Prelude.{◌≡◌, ◌<◌, ◌≤◌, ◌+◌, ◌^◌, ℕ, true, None, IfOk, IfSome, OnOk, length};
ghost use Rattle.std.specs.Prelude.{slice_index_or};
ghost use Rattle.audit_channels.specs.Numbers.{has_none, AreGiven};
ghost use Rattle.audit_channels.specs.ChannelOrders.{Follows, IsCycle, NoneShorter};
ghost use Rattle.audit_channels.specs.ShortestCycle.{at_index, HasReached, IsStep, AreWays, IsSearch, Grows};
ghost use Rattle.audit_channels.specs.ShortestCycle.{IsLeast, NoneBelow};

use crate::cycle::follows;
use crate::numbers::has_none;
use crate::waits::Waits;
use std::alloc::{AllocError, Global};

/// Returns a cycle with the fewest channels, which is `known` if no cycle has fewer.
pub(crate) fn shortest_cycle(
    alloc: Global,
    waits: &Waits,
    numbers: &[usize],
    known: Vec<usize>,
) -> Result<Vec<usize>, AllocError>
    requires given { AreGiven waits.now numbers.now }
    requires known { IsCycle (Follows waits.now) known.items }
    ensures cycle { IfOk result (λ cycle. IsCycle (Follows waits.now) cycle.items) }
    ensures none_shorter { IfOk result (λ cycle. NoneShorter (Follows waits.now) cycle.items) }
{
    let mut shortest = known;
    let mut marks = vec![in alloc; 0; waits.len()]?;
    for first in 0..waits.len() {
        shortest = shorter_from(alloc, waits, numbers, &mut marks, first, shortest)?;
    }
    Ok(shortest)
}

/// Returns a shortest cycle through `first` if it has fewer channels than `known`, and otherwise `known`.
fn shorter_from(
    alloc: Global,
    waits: &Waits,
    numbers: &[usize],
    marks: &mut [usize],
    first: usize,
    known: Vec<usize>,
) -> Result<Vec<usize>, AllocError>
    requires given { AreGiven waits.now numbers.now }
    requires first { first + 1 < 2 ^ 64 }
    requires many { length marks.old ≡ length waits.now }
    requires marks { (c : ℕ) → slice_index_or marks.old c 0 ≤ first }
    requires known { IsCycle (Follows waits.now) known.items }
    ensures many { OnOk result (length marks.new ≡ length waits.now) }
    ensures marks { OnOk result ((c : ℕ) → slice_index_or marks.new c 0 ≤ first + 1) }
    ensures cycle { IfOk result (λ cycle. IsCycle (Follows waits.now) cycle.items) }
    ensures no_longer { IfOk result (λ cycle. length cycle.items ≤ length known.items) }
    ensures none { IfOk result (λ cycle. has_none numbers.now first ≡ true
        → NoneBelow waits.now first (length cycle.items)) }
{
    if !has_none(numbers, first) {
        return Ok(known);
    }
    let found = cycle_of(alloc, waits, numbers, marks, first, known.len())?;
    if found.is_empty() {
        Ok(known)
    } else {
        Ok(found)
    }
}

/// A channel that a search has reached.
#[derive(Clone, Copy)]
pub(crate) struct Visited {
    channel: usize,
    /// The index in the list of reached channels from which this channel was reached; 0 for the first channel.
    from: usize,
    /// The number of channels on the path to this channel, counting this channel and the first one.
    count: usize,
}

/// Returns a shortest cycle through `first` if it has fewer than `least` channels, and otherwise an empty list. Marks
/// each channel that it reaches, except `first`, with `first` + 1. Takes time linear in the number of channels that are
/// reached, plus the numbers of channels that follow them.
fn cycle_of(
    alloc: Global,
    waits: &Waits,
    numbers: &[usize],
    marks: &mut [usize],
    first: usize,
    least: usize,
) -> Result<Vec<usize>, AllocError>
    requires first_fits { first + 1 < 2 ^ 64 }
    requires given { AreGiven waits.now numbers.now }
    requires first { has_none numbers.now first ≡ true }
    requires many { length marks.old ≡ length waits.now }
    requires marks { (c : ℕ) → slice_index_or marks.old c 0 ≤ first }
    ensures many { OnOk result (length marks.new ≡ length waits.now) }
    ensures marks { OnOk result ((c : ℕ) → slice_index_or marks.new c 0 ≤ first + 1) }
    ensures found { IfOk result (λ found. IsLeast waits.now first least found.items) }
{
    let mut reached = Vec::new(alloc);
    reached.push(Visited {
        channel: first,
        from: 0,
        count: 1,
    })?;
    for index in 0..usize::MAX {
        let Some(here) = in_turn(&reached, index, least) else {
            return Ok(Vec::new(alloc));
        };
        if follows(waits, here.channel, first) {
            let cycle = way_back(alloc, waits, &reached, index, first)?;
            return Ok(cycle);
        }
        reach_on(
            waits,
            numbers,
            marks,
            &mut reached,
            index,
            here,
            first,
            least,
        )?;
    }
    Ok(Vec::new(alloc))
}

/// Returns the item of `reached` at `index`, if there is one and its path has fewer than `least` channels.
fn in_turn(reached: &[Visited], index: usize, least: usize) -> Option<Visited>
    ensures some { IfSome result (λ here. (index < length reached.now) × (here ≡ at_index reached.now index)
        × (here.count < least)) }
    ensures none { result ≡ None → index < length reached.now → least ≤ (at_index reached.now index).count }
{
    let here = *reached.get(index)?;
    if here.count < least { Some(here) } else { None }
}

/// Adds to `reached` each channel that follows `here`, if the path via `here` to that channel has fewer than `least`
/// channels. Leaves out channels that have a number, or that have the mark of this search, `first` + 1.
fn reach_on(
    waits: &Waits,
    numbers: &[usize],
    marks: &mut [usize],
    reached: &mut Vec<Visited>,
    index: usize,
    here: Visited,
    first: usize,
    least: usize,
) -> Result<(), AllocError>
    requires many { length numbers.now ≡ length waits.now }
    requires first { first + 1 < 2 ^ 64 }
    requires count { here.count < least }
    requires search { IsSearch waits.now first (here.count + 1) reached.old.items marks.old }
    requires index { index < length reached.old.items }
    requires here { here ≡ at_index reached.old.items index }
    ensures search { OnOk result (IsSearch waits.now first (here.count + 1) reached.new.items marks.new) }
    ensures grows { OnOk result (Grows reached.old.items reached.new.items) }
    ensures onward { OnOk result (here.count + 1 < least → (c : ℕ) → Follows waits.now here.channel c
        → has_none numbers.now c ≡ true
        → HasReached reached.new.items c (here.count + 1)) }
{
    if here.count + 1 >= least {
        return Ok(());
    }
    for channel in waits.at(here.channel) {
        let next = Visited {
            channel: *channel,
            from: index,
            count: here.count + 1,
        };
        reach(waits, numbers, marks, reached, next, first)?;
    }
    Ok(())
}

/// Adds `next` to `reached` and marks its channel with `first` + 1, unless it has a number or this mark already.
fn reach(
    waits: &Waits,
    numbers: &[usize],
    marks: &mut [usize],
    reached: &mut Vec<Visited>,
    next: Visited,
    first: usize,
) -> Result<(), AllocError>
    requires many { length numbers.now ≡ length waits.now }
    requires first { first + 1 < 2 ^ 64 }
    requires search { IsSearch waits.now first next.count reached.old.items marks.old }
    requires step { IsStep waits.now reached.old.items next (length reached.old.items) }
    ensures search { OnOk result (IsSearch waits.now first next.count reached.new.items marks.new) }
    ensures grows { OnOk result (Grows reached.old.items reached.new.items) }
    ensures onward { OnOk result (has_none numbers.now next.channel ≡ true
        → HasReached reached.new.items next.channel next.count) }
{
    if has_none(numbers, next.channel) && marks[next.channel] != first + 1 {
        marks[next.channel] = first + 1;
        reached.push(next)?;
    }
    Ok(())
}

/// Returns the path from `first` to the channel of `reached` at `index`, a cycle since `first` follows that channel.
fn way_back(
    alloc: Global,
    waits: &Waits,
    reached: &[Visited],
    index: usize,
    first: usize,
) -> Result<Vec<usize>, AllocError>
    requires ways { AreWays waits.now first reached.now }
    requires index { index < length reached.now }
    requires back { Follows waits.now (at_index reached.now index).channel first }
    ensures cycle { IfOk result (λ way. IsCycle (Follows waits.now) way.items) }
    ensures count { IfOk result (λ way. length way.items ≡ (at_index reached.now index).count) }
{
    let mut way = Vec::new(alloc);
    let mut at = index;
    while at > 0 {
        let here = reached[at];
        way.insert(0, here.channel)?;
        at = here.from;
    }
    way.insert(0, first)?;
    Ok(way)
}
