ghost use Rattle.std.specs.Prelude.{◌≡◌, ◌<◌, All, IfOk, length, map};
ghost use Rattle.subnet_view.specs.Graph.{guids_of};
ghost use Rattle.updown_routes.specs.Order.{IsOrder, ArePositions};
ghost use Rattle.updown_routes.specs.Positions.{at_position, ups_from, downs_from, AreAtPositions};
ghost use Rattle.updown_routes.specs.Ranks.{rank_of};

use crate::graph::Graph;
use port_graph::{Adjacency, Edge};
use std::alloc::{AllocError, Global};

/// The wires up and the wires down of the switch at each position of an order. Each wire leads to a position.
#[derive(Drop)]
pub(crate) struct UpDownEdges {
    /// The wires up, to lesser positions.
    pub(crate) ups: Adjacency,
    /// The wires down, to greater positions.
    pub(crate) downs: Adjacency,
}

impl UpDownEdges {
    /// Finds the wires up and down of each switch, by the indices `order` of the switches and their `positions` in it.
    pub(crate) fn of(
        alloc: Global,
        graph: &Graph,
        order: &[usize],
        positions: &[usize],
    ) -> Result<Self, AllocError>
        requires order { IsOrder (map (rank_of graph.now) (guids_of graph.now)) order.now }
        requires positions { ArePositions order.now positions.now }
        ensures { IfOk result (λ slopes. AreAtPositions graph.now order.now slopes.ups slopes.downs) }
    {
        let mut ups = Adjacency::new(alloc);
        let mut downs = Adjacency::new(alloc);
        for (position, index) in order.iter().enumerate() {
            let edges = to_positions(alloc, graph.edges(*index), positions)?;
            ups.push_vertex(&ups_from(alloc, position, &edges)?)?;
            downs.push_vertex(&downs_from(alloc, position, &edges)?)?;
        }
        Ok(UpDownEdges { ups, downs })
    }
}

/// Returns `edges`, with the index that each edge leads to replaced by the position of that index.
fn to_positions(alloc: Global, edges: &[Edge], positions: &[usize]) -> Result<Vec<Edge>, AllocError>
    requires { All (λ edge. edge.to < length positions.now) edges.now }
    ensures { IfOk result (λ found. found.items ≡ map (at_position positions.now) edges.now) }
{
    edges
        .iter()
        .map(|edge| Edge {
            port: edge.port,
            to: positions[edge.to],
        })
        .collect(alloc)
}

/// Returns those of `edges` that lead to positions less than `position`.
fn ups_from(alloc: Global, position: usize, edges: &[Edge]) -> Result<Vec<Edge>, AllocError>
    ensures { IfOk result (λ ups. ups.items ≡ ups_from position edges.now) }
{
    edges
        .iter()
        .copied()
        .filter(|edge| edge.to < position)
        .collect(alloc)
}

/// Returns those of `edges` that lead to positions greater than `position`.
fn downs_from(alloc: Global, position: usize, edges: &[Edge]) -> Result<Vec<Edge>, AllocError>
    ensures { IfOk result (λ downs. downs.items ≡ downs_from position edges.now) }
{
    edges
        .iter()
        .copied()
        .filter(|edge| position < edge.to)
        .collect(alloc)
}
