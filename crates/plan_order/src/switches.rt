//! The switches in the order that a rule plans by.
ghost use Rattle.std.specs.Prelude.{◌≡◌, IfOk, map};
ghost use Rattle.fact_store.specs.View.{cells_of};
ghost use Rattle.subnet_view.specs.Graph.{guids_of};
ghost use Rattle.spread_labels.specs.Orders.{at_position};
ghost use Rattle.lft_blocks.specs.Rule.{value_of};
ghost use Rattle.plan_order.specs.PlanOrder.{by_positions, rank_position, switches_by};

use crate::rank_positions::rank_positions;
use fact_store::{Refused, Store};
use lft_blocks::{Rule, switch_order};
use smp_bytes::Guid;
use std::alloc::{AllocError, Global};
use subnet_view::{SwitchGraph, WiredGraph, Wires};
use two_orders::positions_in;
use updown_routes::Graph;

/// Returns the usable switches of `store` in the order that `rule` plans by. Up/down routing orders switches by rank
/// and then by GUID. A rule that spreads has its own order. Returns an error if memory runs out.
pub fn plan_switches(alloc: Global, store: &Store, rule: &Rule) -> Result<Vec<Guid>, Refused>
    ensures { IfOk result (λ switches.
        switches.items ≡ switches_by (value_of rule.now) (cells_of store.now)) }
{
    let wires = Wires::of(alloc, store)?;
    let graph = SwitchGraph::of(alloc, &wires)?;
    let wired = WiredGraph {
        wires: &wires,
        graph: &graph,
    };
    match rule {
        Rule::UpDown => Ok(ranked_switches(alloc, &graph)?),
        Rule::Spread { order } => Ok(switch_order(alloc, &wired, order)?),
    }
}

/// Returns the switches of `graph` in the order by rank and then by GUID.
fn ranked_switches(alloc: Global, graph: &SwitchGraph) -> Result<Vec<Guid>, AllocError>
    ensures { IfOk result (λ switches. switches.items
        ≡ by_positions (guids_of graph.now) (map (rank_position graph.now) (guids_of graph.now))) }
{
    let ranked = Graph::of(alloc, graph)?;
    let positions = rank_positions(alloc, &ranked)?;
    by_positions(alloc, graph.switches(), &positions)
}

/// Returns `switches` in the order of their `positions`.
fn by_positions(
    alloc: Global,
    switches: &[Guid],
    positions: &[usize],
) -> Result<Vec<Guid>, AllocError>
    ensures { IfOk result (λ found. found.items ≡ by_positions switches.now positions.now) }
{
    let indices = positions_in(alloc, positions, positions.len())?;
    indices
        .iter()
        .map(|index| at_position(switches, *index))
        .collect(alloc)
}

/// Returns the switch at `index` of `switches`, or GUID 0 if `index` is past the end.
fn at_position(switches: &[Guid], index: usize) -> Guid
    ensures { result ≡ at_position switches.now index }
{
    switches.get(index).copied().unwrap_or(Guid::new(0))
}
