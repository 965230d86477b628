//! The goal of a step from tables that imply an order.
ghost use Rattle.std.specs.Prelude.{◌≡◌, IfOk, length};
ghost use Rattle.std.specs.Option.{option_map};
ghost use Rattle.fact_store.specs.View.{cells_of};
ghost use Rattle.subnet_view.specs.Graph.{graph_of};
ghost use Rattle.subnet_view.specs.Reading.{switches};
ghost use Rattle.held_order.specs.Between.{IsGoal, goal_of};

use crate::orders::orders;
use crate::tables_between::tables_between;
use fact_store::Refused;
use held_tables::Held;
use packet_walks::Network;
use std::alloc::{AllocError, Global};
use subnet_view::SwitchGraph;

/// The goal of a step from tables that imply an order.
#[derive(Drop)]
pub struct StepGoal {
    /// The position of each usable switch in the first of the goal's two orders, in ascending order of GUID.
    pub positions: Vec<usize>,
    /// The tables between the two orders.
    pub tables: Held,
}

/// Returns the goal of a step from the tables of `held` towards the tables of `plan`: tables that lead packets up and
/// then down by two orders. The first is the order that the held tables imply, or the order that grows by it. The
/// second is the next order on the way to the plan's. Returns `None` if the held tables imply no order. If they imply
/// several orders, takes the one nearest to the order that grows by `preferred`. `held` and `plan` must have the same
/// facts. `positions` must have the position of each usable switch in the plan's order, in ascending order of GUID,
/// and `preferred` must have the position of each usable switch in the preferred order. `graph` must be the graph of the
/// usable switches.
pub fn between(
    alloc: Global,
    graph: &SwitchGraph,
    held: &Network,
    plan: &Network,
    positions: &[usize],
    preferred: &[usize],
) -> Result<Option<StepGoal>, Refused>
    requires graph { graph.now ≡ graph_of (cells_of held.now.facts) }
    requires facts { plan.now.facts ≡ held.now.facts }
    requires positions { length positions.now ≡ length (switches (cells_of held.now.facts)) }
    requires preferred { length preferred.now ≡ length (switches (cells_of held.now.facts)) }
    ensures { IfOk result (λ found. IsGoal (cells_of held.now.facts) held.now.held plan.now.held positions.now preferred.now
        (option_map goal_of found)) }
{
    let edges = graph.adjacency();
    let Some(orders) = orders(alloc, edges, held, positions, preferred)? else {
        return Ok(None);
    };
    let tables = tables_between(alloc, edges, &orders, held, plan)?;
    Ok(Some(StepGoal {
        positions: orders.into_first(),
        tables,
    }))
}
