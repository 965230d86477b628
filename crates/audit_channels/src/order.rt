ghost use Rattle.std.specs.Prelude.{◌≡◌, IfOk, length};
ghost use Rattle.audit_channels.specs.ChannelOrders.{Follows, IsOrder, IsShortest, cycle_in};

use crate::cycle::cycle_from;
use crate::numbers::{first_without, numbers};
use crate::shortest_cycle::shortest_cycle;
use crate::waits::Waits;
use std::alloc::{AllocError, Global};

/// Numbers of channels that rise from each channel to those that follow it, or a shortest cycle of channels.
#[derive(Debug, Drop)]
pub enum ChannelOrder {
    /// The number of each channel, less than the numbers of the channels that follow it.
    Rises(Vec<usize>),
    /// A shortest cycle. Each channel follows the one before, and the first follows the last. No cycle has fewer
    /// channels, so no channel occurs twice.
    Cycle(Vec<usize>),
}

/// Returns numbers of the channels that rise from each channel to those that follow it, or a shortest cycle of
/// channels if there are no such numbers.
pub fn order_channels(alloc: Global, waits: &Waits) -> Result<ChannelOrder, AllocError>
    ensures order { IfOk result (λ found. IsOrder (Follows waits.now) (length waits.now) found) }
    ensures shortest { IfOk result (λ found. IsShortest (Follows waits.now) found) }
{
    let numbers = numbers(alloc, waits)?;
    match first_without(&numbers) {
        None => Ok(ChannelOrder::Rises(numbers)),
        Some(first) => {
            let known = cycle_from(alloc, waits, &numbers, first)?;
            let shortest = shortest_cycle(alloc, waits, &numbers, known)?;
            Ok(ChannelOrder::Cycle(shortest))
        }
    }
}

/// Returns the channels of `order` if it is a cycle, otherwise none.
pub fn cycle_in(alloc: Global, order: ChannelOrder) -> Vec<usize>
    ensures { result.items ≡ cycle_in order }
{
    match order {
        ChannelOrder::Rises(_) => Vec::new(alloc),
        ChannelOrder::Cycle(channels) => channels,
    }
}
