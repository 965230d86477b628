//! The positions of switches in the order that a rule plans by.
ghost use Rattle.std.specs.Prelude.{◌≡◌, IfOk, map};
ghost use Rattle.fact_store.specs.View.{cells_of};
ghost use Rattle.lft_blocks.specs.Rule.{spread_in, up_and_down, value_of};
ghost use Rattle.plan_order.specs.PlanOrder.{positions_by};
ghost use Rattle.spread_labels.specs.Orders.{position_of};
ghost use Rattle.spread_routes.specs.SwitchOrder.{order_value_of};

use crate::rank_positions::rank_positions;
use lft_blocks::{Rule, switch_order};
use smp_bytes::Guid;
use spread_routes::SwitchOrder;
use std::alloc::{AllocError, Global};
use subnet_view::WiredGraph;
use updown_routes::Graph;

/// Returns the position of each usable switch, in ascending order of GUID, in the order that `rule` plans by: by rank
/// and then by GUID for up/down routing, and in its own order for a rule that spreads. Returns an error if memory runs
/// out.
pub fn plan_positions(
    alloc: Global,
    wired: &WiredGraph,
    rule: &Rule,
) -> Result<Vec<usize>, AllocError>
    ensures { IfOk result (λ positions.
        positions.items ≡ positions_by (value_of rule.now) (cells_of wired.now.wires.now)) }
{
    match rule {
        Rule::UpDown => by_rank(alloc, wired),
        Rule::Spread { order } => by_spread(alloc, wired, order),
    }
}

/// Returns the position of each switch, in ascending order of GUID, in the order by rank and then by GUID.
fn by_rank(alloc: Global, wired: &WiredGraph) -> Result<Vec<usize>, AllocError>
    ensures { IfOk result (λ positions.
        positions.items ≡ positions_by up_and_down (cells_of wired.now.wires.now)) }
{
    let ranked = Graph::of(alloc, wired.graph)?;
    let positions = rank_positions(alloc, &ranked)?;
    Ok(positions)
}

/// Returns the position of each usable switch, by ascending GUID, in the order of the rule that spreads by `order`.
fn by_spread(
    alloc: Global,
    wired: &WiredGraph,
    order: &SwitchOrder,
) -> Result<Vec<usize>, AllocError>
    ensures { IfOk result (λ positions.
        positions.items ≡ positions_by (spread_in (order_value_of order.now)) (cells_of wired.now.wires.now)) }
{
    let ordered = switch_order(alloc, wired, order)?;
    positions_named(alloc, &ordered, wired.graph.switches())
}

/// Returns the position of each of `switches` in the list `ordered`, or the length of `ordered` for a switch that is
/// not there. Takes time linear in the product of both lengths.
pub fn positions_named(
    alloc: Global,
    ordered: &[Guid],
    switches: &[Guid],
) -> Result<Vec<usize>, AllocError>
    ensures { IfOk result (λ positions. positions.items ≡ map (position_of ordered.now) switches.now) }
{
    switches
        .iter()
        .map(|switch| position_of(ordered, *switch))
        .collect(alloc)
}

/// Returns the position of `switch` in `ordered`, or else the length of `ordered`, in time linear in that length.
fn position_of(ordered: &[Guid], switch: Guid) -> usize
    ensures { result ≡ position_of ordered.now switch }
{
    for (index, other) in ordered.iter().enumerate() {
        if *other == switch {
            return index;
        }
    }
    ordered.len()
}
