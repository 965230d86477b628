//! The grown order.
ghost use Rattle.std.specs.Prelude.{◌≡◌, ◌<◌, length, All, IfOk, MatchOption};
ghost use Rattle.port_graph.specs.Heads.{LeadToVertices};
ghost use Rattle.spread_labels.specs.LabelLaws.{IsSymmetric};
ghost use Rattle.spread_labels.specs.Orders.{order};
ghost use Rattle.spread_labels.specs.KeyOrder.{before_by};
ghost use Rattle.spread_labels.specs.Growth.{earlier_of, earliest_at, is_stage, next_at, after_add_vertex};

use crate::key_order::{VertexKey, is_before};
use port_graph::{Adjacency, Edge};
use std::alloc::{AllocError, Global};

/// The state of a vertex while the order grows.
#[derive(Clone, Copy, Debug, PartialEq, Eq)]
pub(crate) enum Stage {
    /// The vertex is not placed, and has no edge to a placed vertex.
    Left,
    /// The vertex is not placed, and has an edge to a placed vertex.
    Beside,
    /// The vertex is placed.
    Placed,
}

/// Returns the vertices in their grown order. The next vertex is the one with the earliest key among the unplaced
/// vertices that have an edge to a placed vertex. If no unplaced vertex has such an edge, it is the one with the
/// earliest key among all unplaced vertices. If keys are equal, the lesser vertex comes first. There must be a key
/// for each vertex. For each edge there must be an edge back. Takes time quadratic in the number of vertices, and
/// linear in the number of edges. Returns an error if memory runs out.
pub fn grown_order(
    alloc: Global,
    edges: &Adjacency,
    keys: &[VertexKey],
) -> Result<Vec<usize>, AllocError>
    requires keys { length keys.now ≡ length edges.now }
    requires lead { LeadToVertices edges.now }
    requires symmetric { IsSymmetric edges.now }
    ensures { IfOk result (λ vertices. vertices.items ≡ order edges.now (before_by keys.now)) }
{
    let mut stages = vec![in alloc; Stage::Left; edges.len()]?;
    let mut vertices = Vec::with_capacity(alloc, edges.len())?;
    for _ in 0..edges.len() {
        if let Some(vertex) = next_vertex(keys, &stages) {
            vertices.push(vertex)?;
            add_vertex(edges.at(vertex), vertex, &mut stages);
        }
    }
    Ok(vertices)
}

/// Returns the next vertex of the order, or `None` if all vertices are placed. `stages` has the stage of each vertex.
fn next_vertex(keys: &[VertexKey], stages: &[Stage]) -> Option<usize>
    requires { length stages.now ≡ length keys.now }
    ensures next { result ≡ next_at (before_by keys.now) stages.now (length keys.now) }
    ensures vertex { MatchOption result (Unit {0}) (λ vertex. vertex < length keys.now) }
{
    match earliest(keys, stages, Stage::Beside) {
        Some(vertex) => Some(vertex),
        None => earliest(keys, stages, Stage::Left),
    }
}

/// Returns the vertex with the earliest key among the vertices at `stage`, the lesser of equals, or `None`.
fn earliest(keys: &[VertexKey], stages: &[Stage], stage: Stage) -> Option<usize>
    requires { length stages.now ≡ length keys.now }
    ensures earliest { result ≡ earliest_at (before_by keys.now) stages.now stage (length keys.now) }
    ensures vertex { MatchOption result (Unit {0}) (λ vertex. vertex < length keys.now) }
{
    let mut found = None;
    for vertex in 0..keys.len() {
        if is_at(stages[vertex], stage) {
            found = Some(earlier(keys, found, vertex));
        }
    }
    found
}

/// Returns whether `one` and `stage` are equal.
fn is_at(one: Stage, stage: Stage) -> bool
    ensures { result ≡ is_stage one stage }
{
    one == stage
}

/// Returns the earlier of `vertex` and `found` by `is_before`, or `vertex` if `found` is `None`.
pub(crate) fn earlier(keys: &[VertexKey], found: Option<usize>, vertex: usize) -> usize
    requires vertex { vertex < length keys.now }
    requires found { MatchOption found (Unit {0}) (λ other. other < length keys.now) }
    ensures { result ≡ earlier_of (before_by keys.now) found vertex }
{
    match found {
        Some(other) if !is_before(keys, vertex, other) => other,
        _ => vertex,
    }
}

/// Gives `vertex` the stage `Placed`, and then each vertex at `Left` that `edges` lead to the stage `Beside`.
fn add_vertex(edges: &[Edge], vertex: usize, stages: &mut [Stage])
    requires vertex { vertex < length stages.old }
    requires lead { All (λ edge. edge.to < length stages.old) edges.now }
    ensures { stages.new ≡ after_add_vertex vertex edges.now stages.old }
{
    stages[vertex] = Stage::Placed;
    for edge in edges {
        if is_at(stages[edge.to], Stage::Left) {
            stages[edge.to] = Stage::Beside;
        }
    }
}
