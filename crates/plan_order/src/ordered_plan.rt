//! A plan, and the positions of the switches in the order that it goes by.
ghost use Rattle.std.specs.Prelude.{◌≡◌, IfOk, OnErr, length};
ghost use Rattle.fact_store.specs.View.{cells_of};
ghost use Rattle.lid_assign.specs.LidFault.{is_memory, lid_fault, no_room};
ghost use Rattle.lft_blocks.specs.Plan.{plan_of};
ghost use Rattle.lft_blocks.specs.Rule.{order_of, spread_in, up_and_down, value_of};
ghost use Rattle.smp_bytes.specs.Judges.{JudgesButFor};
ghost use Rattle.spread_routes.specs.SwitchOrder.{named_in, order_value_of};
ghost use Rattle.subnet_view.specs.Reading.{switches};
ghost use Rattle.plan_order.specs.PlanOrder.{positions_by};

use crate::positions::positions_named;
use crate::rank_positions::rank_positions;
use attr_codec::Lmc;
use fact_store::Store;
use lft_blocks::{Plan, PlanFault, Rule, switch_order};
use lid_assign::out_of_memory;
use smp_bytes::Guid;
use spread_routes::SwitchOrder;
use std::alloc::{AllocError, Global};
use subnet_view::{SubnetGraph, WiredGraph};

/// Finds the subnet that the view in `store` describes, and the graph of its usable switches, for a plan with 2^`lmc`
/// LIDs for each adapter port.
///
/// # Errors
///
/// If memory runs out, returns `NoRoom` if there is no room for the LIDs, and otherwise `Memory`.
pub fn subnet_to_plan<'s>(
    alloc: Global,
    store: &'s Store,
    lmc: Lmc,
) -> Result<SubnetGraph<'s>, PlanFault>
    ensures subnet { IfOk result (λ planned. planned.subnet ≡ store.now) }
    ensures refused { OnErr result
        (JudgesButFor is_memory result (lid_fault (no_room lmc (cells_of store.now)))) }
{
    match SubnetGraph::of(alloc, store) {
        Ok(planned) => Ok(planned),
        Err(_) => Err(out_of_memory(store, lmc)),
    }
}

/// Plans the subnet of `planned` under `rule`, with 2^`lmc` LIDs for each adapter port, as `Plan::in_subnet` does. Also
/// returns the position of each usable switch, in ascending order of GUID, in the order that `rule` plans by: by rank
/// and then by GUID for up/down routing, and in its own order for a rule that spreads. The order is found once.
///
/// # Errors
///
/// Returns `NoRoom` if there is no room for the LIDs, and otherwise `Memory` if memory runs out.
pub fn plan_in_order(
    alloc: Global,
    planned: &SubnetGraph,
    lmc: Lmc,
    rule: &Rule,
) -> Result<(Plan, Vec<usize>), PlanFault>
    ensures judged { JudgesButFor is_memory result (lid_fault (no_room lmc (cells_of planned.now.subnet))) }
    ensures plan { IfOk result (λ found. found.0 ≡ plan_of (value_of rule.now) lmc (cells_of planned.now.subnet)) }
    ensures positions { IfOk result (λ found.
        found.1.items ≡ positions_by (value_of rule.now) (cells_of planned.now.subnet)) }
    ensures all { IfOk result (λ found. length found.1.items ≡ length (switches (cells_of planned.now.subnet))) }
{
    match rule {
        Rule::UpDown => by_rank(alloc, planned, lmc),
        Rule::Spread { order } => by_spread(alloc, planned, lmc, order),
    }
}

/// Returns the plan under up/down routing and the positions of its order, as `plan_in_order` does.
fn by_rank(alloc: Global, planned: &SubnetGraph, lmc: Lmc) -> Result<(Plan, Vec<usize>), PlanFault>
    ensures judged { JudgesButFor is_memory result (lid_fault (no_room lmc (cells_of planned.now.subnet))) }
    ensures plan { IfOk result (λ found. found.0 ≡ plan_of up_and_down lmc (cells_of planned.now.subnet)) }
    ensures positions { IfOk result (λ found. found.1.items ≡ positions_by up_and_down (cells_of planned.now.subnet)) }
    ensures all { IfOk result (λ found. length found.1.items ≡ length (switches (cells_of planned.now.subnet))) }
{
    let (plan, ranked) = Plan::with_ranks(alloc, planned, lmc)?;
    let positions = rank_positions(alloc, &ranked)?;
    Ok((plan, positions))
}

/// Returns the plan under the rule that spreads by `order`, and the positions of its order, as `plan_in_order` does.
/// The plan is that by the order's switches as a list, so that the order is not found again.
fn by_spread(
    alloc: Global,
    planned: &SubnetGraph,
    lmc: Lmc,
    order: &SwitchOrder,
) -> Result<(Plan, Vec<usize>), PlanFault>
    ensures judged { JudgesButFor is_memory result (lid_fault (no_room lmc (cells_of planned.now.subnet))) }
    ensures plan { IfOk result (λ found.
        found.0 ≡ plan_of (spread_in (order_value_of order.now)) lmc (cells_of planned.now.subnet)) }
    ensures positions { IfOk result (λ found.
        found.1.items ≡ positions_by (spread_in (order_value_of order.now)) (cells_of planned.now.subnet)) }
    ensures all { IfOk result (λ found. length found.1.items ≡ length (switches (cells_of planned.now.subnet))) }
{
    let Ok((switches, order)) = named(alloc, &planned.wired(), order) else {
        return Err(out_of_memory(planned.subnet.store(), lmc));
    };
    let plan = Plan::in_subnet(alloc, planned, lmc, &Rule::Spread { order })?;
    let positions = positions_named(alloc, &switches, plan.switches())?;
    Ok((plan, positions))
}

/// Returns the usable switches in the order of the rule that spreads by `order`, and an order that names them so. Loads
/// are balanced in that order exactly if they are in `order`.
fn named(
    alloc: Global,
    wired: &WiredGraph,
    order: &SwitchOrder,
) -> Result<(Vec<Guid>, SwitchOrder), AllocError>
    ensures switches { IfOk result (λ found.
        found.0.items ≡ order_of (order_value_of order.now) (cells_of wired.now.wires.now)) }
    ensures named { IfOk result (λ found. order_value_of found.1
        ≡ named_in (order_value_of order.now) (order_of (order_value_of order.now) (cells_of wired.now.wires.now))) }
{
    let switches = switch_order(alloc, wired, order)?;
    let order = named_in(order, Vec::from_slice(alloc, &switches)?);
    Ok((switches, order))
}

/// Returns an order that names `switches`. Loads are balanced exactly if they are in `order`.
fn named_in(order: &SwitchOrder, switches: Vec<Guid>) -> SwitchOrder
    ensures { order_value_of result ≡ named_in (order_value_of order.now) switches.items }
{
    match order {
        SwitchOrder::FromRoots { .. } | SwitchOrder::AsNamed { .. } => SwitchOrder::AsNamed {
            switches,
        },
        SwitchOrder::BalancedAs { .. } | SwitchOrder::LeastLoaded => SwitchOrder::BalancedAs {
            switches,
        },
    }
}
