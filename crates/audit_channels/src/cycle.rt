ghost use Rattle.std.specs.Prelude.{◌≡◌, ◌↔◌, ◌<◌, IfOk, IsTrue, ◌==◌, position, true};
ghost use Rattle.std.specs.List.{find, list_any};
ghost use Rattle.audit_channels.specs.ChannelOrders.{Follows, IsCycle};
ghost use Rattle.audit_channels.specs.Numbers.{AreGiven, has_none};

use crate::numbers::has_none;
use crate::waits::Waits;
use std::alloc::{AllocError, Global};

/// Returns the cycle that a walk from `first` along channels without a number reaches.
pub(crate) fn cycle_from(
    alloc: Global,
    waits: &Waits,
    numbers: &[usize],
    first: usize,
) -> Result<Vec<usize>, AllocError>
    requires given { AreGiven waits.now numbers.now }
    requires first { has_none numbers.now first ≡ true }
    ensures { IfOk result (λ cycle. IsCycle (Follows waits.now) cycle.items) }
{
    let mut way = Vec::new(alloc);
    let mut at = first;
    while !is_on(&way, at) {
        way.push(at)?;
        at = first_held_up(waits.at(at), numbers).unwrap_or(at);
    }
    let index = index_of(&way, at).unwrap_or(0);
    let cycle = Vec::from_slice(alloc, &way[index..])?;
    Ok(cycle)
}

/// Returns whether `next` follows `channel` in `waits`.
pub(crate) fn follows(waits: &Waits, channel: usize, next: usize) -> bool
    ensures { IsTrue result ↔ Follows waits.now channel next }
{
    is_on(waits.at(channel), next)
}

/// Returns the first channel of `following` that has no number, or `None` if each has a number.
fn first_held_up(following: &[usize], numbers: &[usize]) -> Option<usize>
    ensures { result ≡ find (has_none numbers.now) following.now }
{
    following
        .iter()
        .copied()
        .find(|next| has_none(numbers, *next))
}

/// Returns whether `channel` is on the walk `way`.
fn is_on(way: &[usize], channel: usize) -> bool
    ensures { result ≡ list_any (λ c. channel == c) way.now }
{
    way.iter().any(|c| channel == *c)
}

/// Returns the first index of `channel` in the walk `way`, or `None` if `way` does not contain it.
fn index_of(way: &[usize], channel: usize) -> Option<usize>
    ensures { result ≡ position (λ c. channel == c) way.now }
{
    way.iter().position(|c| channel == *c)
}
