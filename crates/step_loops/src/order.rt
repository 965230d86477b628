//! Whether packets can wait for each other in a credit loop during a step.
ghost use Rattle.std.specs.Prelude.{◌≡◌, IfOk};
ghost use Rattle.fact_store.specs.View.{cells_of};
ghost use Rattle.audit_channels.specs.ChannelOrders.{AreWaits, IsOrder, IsShortest};
ghost use Rattle.audit_channels.specs.Waiting.{channel_count};
ghost use Rattle.step_loops.specs.StepOrder.{WaitsFor};

use crate::across::{Columns, add_step, columns_of};
use audit_channels::{ChannelOrder, Waits, order_channels};
use next_tables::greater;
use packet_walks::{LidCursor, Network};
use smp_bytes::Lid;
use std::alloc::{AllocError, Global};

/// Returns numbers of channels that rise along the route of every packet, under any mixtures of the held and the next
/// tables. If there are no such numbers, returns a shortest credit loop of some mixtures. Channels are numbered as in
/// `audit_channels::channel_order`. `held` and `next` must have the same facts. Takes the time that `channel_order`
/// takes for both tables together, up to a constant factor.
pub fn step_order(alloc: Global, held: &Network, next: &Network) -> Result<ChannelOrder, AllocError>
    requires facts { next.now.facts ≡ held.now.facts }
    ensures order { IfOk result (λ found.
        IsOrder (WaitsFor (cells_of held.now.facts) held.now.held next.now.held)
        (channel_count (cells_of held.now.facts)) found) }
    ensures shortest { IfOk result (λ found.
        IsShortest (WaitsFor (cells_of held.now.facts) held.now.held next.now.held) found) }
{
    let waits = waits(alloc, held, next)?;
    let found = order_channels(alloc, &waits)?;
    Ok(found)
}

/// Returns, for each channel, those that packets take next, each of the two under the held or the next tables.
fn waits(alloc: Global, held: &Network, next: &Network) -> Result<Waits, AllocError>
    requires facts { next.now.facts ≡ held.now.facts }
    ensures { IfOk result (λ waits.
        AreWaits (WaitsFor (cells_of held.now.facts) held.now.held next.now.held)
        (channel_count (cells_of held.now.facts)) waits) }
{
    let count = held.switch_count().checked_mul(256).ok_or(AllocError)?;
    let mut waits = Waits::new(alloc, count)?;
    let mut held_at = LidCursor::of(alloc, held)?;
    let mut next_at = LidCursor::of(alloc, next)?;
    let mut before = Columns::none(alloc);
    for below in 0..greater(held.greatest_top(), next.greatest_top()).number() {
        let lid = Lid::new(below + 1);
        held_at.go_to(alloc, lid)?;
        next_at.go_to(alloc, lid)?;
        let columns = columns_of(alloc, &held_at, &next_at)?;
        add_step(&mut waits, &before, &columns)?;
        before = columns;
    }
    Ok(waits)
}
