//! The order that tables imply by themselves, and the next one on the way to a plan's order.
ghost use Rattle.std.specs.Prelude.{◌≡◌, IfOk, length};
ghost use Rattle.fact_store.specs.View.{cells_of};
ghost use Rattle.port_graph.specs.Heads.{LeadToVertices};
ghost use Rattle.spread_labels.specs.LabelLaws.{IsSymmetric};
ghost use Rattle.held_order.specs.ToldOrder.{position_in};
ghost use Rattle.held_order.specs.Orders.{AreOrders, orders_from, told_positions};

use crate::told::told_order;
use next_tables::are_right;
use packet_walks::Network;
use port_graph::Adjacency;
use std::alloc::{AllocError, Global};
use two_orders::{Orders, grown_by, positions_in, tree};

/// Returns the two orders of a step from the tables of `held`: the one that these tables imply, or that grows by it,
/// and the next one on the way to the plan's. Returns `None` if the tables imply none. If several switches may be last,
/// takes the one that comes last in the order that grows by `preferred` first. `plan` and `preferred` have the
/// positions of the switches in the plan's order and in the preferred one.
pub(crate) fn orders(
    alloc: Global,
    edges: &Adjacency,
    held: &Network,
    plan: &[usize],
    preferred: &[usize],
) -> Result<Option<Orders>, AllocError>
    requires plan { length plan.now ≡ length edges.now }
    requires preferred { length preferred.now ≡ length edges.now }
    requires lead { LeadToVertices edges.now }
    requires symmetric { IsSymmetric edges.now }
    ensures { IfOk result (AreOrders (cells_of held.now.facts) held.now.held edges.now plan.now preferred.now) }
{
    let list = grown_by(alloc, edges, preferred)?;
    match told_order(alloc, held, &list)? {
        Some(taken) => {
            let told = told_positions(alloc, &taken, edges.len())?;
            let orders = orders_from(alloc, edges, held, plan, told)?;
            Ok(Some(orders))
        }
        None => Ok(None),
    }
}

/// Returns the orders of a step from the tables of `held`, which imply the order `told`. If the tables are right by the
/// order that grows by `told`, this is the first, and the second grows by the positions `plan` along the tree of the
/// first. Otherwise the implied order is the first, and the grown order the second.
fn orders_from(
    alloc: Global,
    edges: &Adjacency,
    held: &Network,
    plan: &[usize],
    told: Vec<usize>,
) -> Result<Orders, AllocError>
    requires plan { length plan.now ≡ length edges.now }
    requires told { length told.items ≡ length edges.now }
    requires lead { LeadToVertices edges.now }
    requires symmetric { IsSymmetric edges.now }
    ensures { IfOk result (λ orders.
        orders ≡ orders_from (cells_of held.now.facts) held.now.held edges.now plan.now told.items) }
{
    let grown = grown_by(alloc, edges, &told)?;
    let first = positions_in(alloc, &grown, edges.len())?;
    if are_right(alloc, held, &first)? {
        let tree = tree(alloc, edges, &first)?;
        let rising = grown_by(alloc, &tree, plan)?;
        Orders::of(alloc, first, rising, edges.len())
    } else {
        Orders::of(alloc, told, grown, edges.len())
    }
}

/// Returns the positions of `count` vertices. `taken` lists them from the last position to the first.
fn told_positions(alloc: Global, taken: &[usize], count: usize) -> Result<Vec<usize>, AllocError>
    ensures { IfOk result (λ positions. positions.items ≡ told_positions taken.now count) }
{
    (0..count)
        .map(|vertex| position_in(taken, vertex))
        .collect(alloc)
}

/// Returns how many vertices come after the first `vertex` in `taken`, or 0 if `taken` does not have it.
fn position_in(taken: &[usize], vertex: usize) -> usize
    ensures { result ≡ position_in taken.now vertex }
{
    for (index, other) in taken.iter().enumerate() {
        if *other == vertex {
            return taken.len() - 1 - index;
        }
    }
    0
}
