//! Numbers of channels, given from the greatest down. A channel gets a number once all channels that follow it have
//! one.
ghost use Rattle.std.specs.Prelude.{◌≡◌, ◌==◌, ◌<◌, All, IfOk, OnOk, filter, length, position};
ghost use Rattle.std.specs.List.{range_with_len};
ghost use Rattle.audit_channels.specs.Numbers.{AreGiven, has_none, is_free, is_held_up, with_number};

use crate::waits::Waits;
use std::alloc::{AllocError, Global};

/// Returns a number above 0 for each channel that leads to no cycle, and 0 for each other channel. Works in rounds. A
/// round takes time linear in the number of channels that have no number yet, plus the numbers of channels that follow
/// each of them. There are as many rounds as the longest chain of numbered channels has channels, and one more.
pub(crate) fn numbers(alloc: Global, waits: &Waits) -> Result<Vec<usize>, AllocError>
    ensures { IfOk result (λ numbers. AreGiven waits.now numbers.items) }
{
    let mut numbers = vec![in alloc; 0; waits.len()]?;
    let mut left = channels_below(alloc, waits.len())?;
    let mut free = Vec::with_capacity(alloc, waits.len())?;
    find_free(waits, &numbers, &left, &mut free)?;
    while !free.is_empty() {
        give(&mut numbers, &free, left.len());
        keep_without(&mut left, &numbers);
        find_free(waits, &numbers, &left, &mut free)?;
    }
    Ok(numbers)
}

/// Returns the first `count` channels, in ascending order.
fn channels_below(alloc: Global, count: usize) -> Result<Vec<usize>, AllocError>
    ensures { IfOk result (λ channels. channels.items ≡ range_with_len 0 count) }
{
    (0..count).collect(alloc)
}

/// Sets `free` to those of `channels` for which each channel that follows has a number in `numbers`.
fn find_free(
    waits: &Waits,
    numbers: &[usize],
    channels: &[usize],
    free: &mut Vec<usize>,
) -> Result<(), AllocError>
    ensures { OnOk result (free.new.items ≡ filter (is_free waits.now numbers.now) channels.now) }
{
    free.clear();
    for channel in channels {
        if is_free(waits, numbers, *channel) {
            free.push(*channel)?;
        }
    }
    Ok(())
}

/// Gives `number` to each of `channels`.
fn give(numbers: &mut [usize], channels: &[usize], number: usize)
    requires { All (λ channel. channel < length numbers.old) channels.now }
    ensures { numbers.new ≡ with_number channels.now number numbers.old }
{
    for channel in channels {
        numbers[*channel] = number;
    }
}

/// Removes from `channels` those that have a number in `numbers`.
fn keep_without(channels: &mut Vec<usize>, numbers: &[usize])
    ensures { channels.new.items ≡ filter (has_none numbers.now) channels.old.items }
{
    channels.retain(|channel| has_none(numbers, *channel));
}

/// Returns whether each channel that follows `channel` has a number in `numbers`.
fn is_free(waits: &Waits, numbers: &[usize], channel: usize) -> bool
    ensures { result ≡ is_free waits.now numbers.now channel }
{
    !is_held_up(waits.at(channel), numbers)
}

/// Returns whether some channel of `following` has no number in `numbers` yet.
fn is_held_up(following: &[usize], numbers: &[usize]) -> bool
    ensures { result ≡ is_held_up numbers.now following.now }
{
    following.iter().any(|next| has_none(numbers, *next))
}

/// Returns whether `channel` has no number yet. Returns false if `numbers` has no such channel.
pub(crate) fn has_none(numbers: &[usize], channel: usize) -> bool
    ensures { result ≡ has_none numbers.now channel }
{
    match numbers.get(channel) {
        Some(number) => *number == 0,
        None => false,
    }
}

/// Returns the first channel without a number, or `None` if each channel has a number.
pub(crate) fn first_without(numbers: &[usize]) -> Option<usize>
    ensures { result ≡ position (λ n. n == 0) numbers.now }
{
    numbers.iter().position(|number| *number == 0)
}
