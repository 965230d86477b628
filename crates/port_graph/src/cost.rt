ghost use Rattle.std.specs.Prelude.{◌≡◌, ◌<◌, length, All, IfOk, slice_index_or};
ghost use Rattle.std.specs.List.{filter_map};
ghost use Rattle.port_graph.specs.Slopes.{least_of};
ghost use Rattle.port_graph.specs.NextPorts.{LeadToLesser, AreLess, AreCosts, cost_of};
ghost use Rattle.port_graph.specs.Slopes.{lesser_of};

use crate::adjacency::Adjacency;
use crate::edge::Edge;
use std::alloc::{AllocError, Global};

/// Returns the cost of each vertex by `distances` and the edges up. Takes time linear in the number of vertices and
/// edges. Returns an error if memory runs out.
pub(crate) fn costs(
    alloc: Global,
    ups: &Adjacency,
    distances: &[Option<usize>],
) -> Result<Vec<Option<usize>>, AllocError>
    requires rise { LeadToLesser ups.now }
    requires all { length distances.now ≡ length ups.now }
    requires less { AreLess (length ups.now) distances.now }
    ensures { IfOk result (λ costs. AreCosts ups.now distances.now (length ups.now) costs.items) }
{
    let mut costs = Vec::with_capacity(alloc, ups.len())?;
    for (vertex, distance) in distances.iter().enumerate() {
        let cost = cost(*distance, ups.at(vertex), &costs);
        costs.push(cost)?;
    }
    Ok(costs)
}

/// Returns the cost of a vertex with the distance `distance` and the edges up `ups`.
fn cost(distance: Option<usize>, ups: &[Edge], costs: &[Option<usize>]) -> Option<usize>
    requires known { All (λ edge. edge.to < length costs.now) ups.now }
    requires room { AreLess usize.MAX costs.now }
    ensures { result ≡ cost_of distance ups.now costs.now }
{
    if distance.is_some() {
        return distance;
    }
    let least = least_cost(ups, costs)?;
    Some(least + 1)
}

/// Returns the least cost of the vertices that `edges` lead to, or `None` if none of these vertices has a cost.
fn least_cost(edges: &[Edge], costs: &[Option<usize>]) -> Option<usize>
    requires { All (λ edge. edge.to < length costs.now) edges.now }
    ensures { result ≡ least_of (filter_map (λ edge. slice_index_or costs.now edge.to None) edges.now) }
{
    let mut least = None;
    for edge in edges {
        least = lesser(least, costs[edge.to]);
    }
    least
}

/// Returns the lesser of the numbers among `one` and `other`, or `None` if neither is a number.
fn lesser(one: Option<usize>, other: Option<usize>) -> Option<usize>
    ensures { result ≡ lesser_of one other }
{
    match (one, other) {
        (Some(one), Some(other)) => Some(one.min(other)),
        (one, None) => one,
        (None, other) => other,
    }
}
