ghost use Rattle.std.specs.Prelude.{IfOk};
ghost use Rattle.lane_channels.specs.Waiting.{IsSomeDrop, WaitsByLane};
ghost use Rattle.audit_channels.specs.ChannelOrders.{IsCycleIfAny, NoneShorter};

use crate::dropped::Dropped;
use crate::lane_network::LaneNetwork;
use crate::waits_by_lane::lane_waits;
use audit_channels::{cycle_in, order_channels};
use std::alloc::{AllocError, Global};

/// A credit loop by lane, if there is one, and a packet that is dropped for want of a lane, if there is one.
#[derive(Drop)]
pub struct LaneOrder {
    /// A shortest credit loop; empty if there is none. The number of a channel is 16 times its number on one lane, plus
    /// the lane.
    pub cycle: Vec<usize>,
    /// A packet that is dropped for want of a lane, or `None` if there is none.
    pub dropped: Option<Dropped>,
}

/// Returns a shortest credit loop of channels by lane, if there is one, and a packet that is dropped for want of a
/// lane, if there is one. If `answers` is true, packets that answer other packets also have the levels of those
/// packets. Takes the time that `lane_waits` and `order_channels` take.
pub fn lane_order(
    alloc: Global,
    by_lane: &LaneNetwork,
    answers: bool,
) -> Result<LaneOrder, AllocError>
    ensures cycle { IfOk result (λ found. IsCycleIfAny (WaitsByLane by_lane.now answers) found.cycle.items) }
    ensures shortest { IfOk result (λ found. NoneShorter (WaitsByLane by_lane.now answers) found.cycle.items) }
    ensures dropped { IfOk result (λ found. IsSomeDrop by_lane.now answers found.dropped) }
{
    let found = lane_waits(alloc, by_lane, answers)?;
    let order = order_channels(alloc, &found.waits)?;
    let cycle = cycle_in(alloc, order);
    let dropped = found.dropped;
    Ok(LaneOrder { cycle, dropped })
}
