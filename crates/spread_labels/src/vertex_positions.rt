//! The positions of vertices in an order, and the graph numbered by them.
ghost use Rattle.std.specs.Prelude.{◌≡◌, ◌<◌, ℕ, map, length, All, Contains, IfOk, slice_index};
ghost use Rattle.port_graph.specs.Heads.{LeadToVertices};
ghost use Rattle.spread_labels.specs.Orders.{by_position, position_of};
ghost use Rattle.spread_labels.specs.VertexPositions.{ArePositions, StandOnce, to_position};

use port_graph::{Adjacency, Edge};
use std::alloc::{AllocError, Global};

/// Returns the position in `vertices` of each of `count` vertices, or 0 for a vertex that `vertices` does not have.
/// `vertices` must have only vertices less than `count`, each at most once. Returns an error if memory runs out.
pub fn positions(alloc: Global, vertices: &[usize], count: usize) -> Result<Vec<usize>, AllocError>
    requires { StandOnce count vertices.now }
    ensures { IfOk result (λ positions. ArePositions count vertices.now positions.items) }
{
    let mut positions = vec![in alloc; 0; count]?;
    for (position, vertex) in vertices.iter().enumerate() {
        positions[*vertex] = position;
    }
    Ok(positions)
}

/// Returns the position of `vertex` in `vertices`, or the length of `vertices` if it does not have `vertex`. Takes time
/// linear in this length.
pub fn position_of(vertices: &[usize], vertex: usize) -> usize
    ensures { result ≡ position_of vertices.now vertex }
{
    for (index, other) in vertices.iter().enumerate() {
        if *other == vertex {
            return index;
        }
    }
    vertices.len()
}

/// Returns the position of each of `vertices`, as `positions` says. `positions` must have a position for each of
/// these vertices. Returns an error if memory runs out.
pub fn positions_at(
    alloc: Global,
    positions: &[usize],
    vertices: &[usize],
) -> Result<Vec<usize>, AllocError>
    requires { All (λ vertex. vertex < length positions.now) vertices.now }
    ensures { IfOk result (λ found. found.items ≡ map (λ vertex. slice_index positions.now vertex) vertices.now) }
{
    let mut found = Vec::with_capacity(alloc, vertices.len())?;
    for vertex in vertices {
        found.push(positions[*vertex])?;
    }
    Ok(found)
}

/// Returns the count of each of `vertices`. `counts` must have a count for each of these vertices. Returns an error
/// if memory runs out.
pub fn counts_at(alloc: Global, counts: &[u16], vertices: &[usize]) -> Result<Vec<u16>, AllocError>
    requires { All (λ vertex. vertex < length counts.now) vertices.now }
    ensures { IfOk result (λ found. found.items ≡ map (slice_index counts.now) vertices.now) }
{
    let mut found = Vec::with_capacity(alloc, vertices.len())?;
    for vertex in vertices {
        found.push(counts[*vertex])?;
    }
    Ok(found)
}

/// Returns the edges of the vertex at each position of the order `vertices`, as edges to positions. `vertices` must
/// have every vertex, and `positions` must have the position of each in `vertices`. Takes time linear in the number
/// of vertices and edges. Returns an error if memory runs out.
pub fn by_positions(
    alloc: Global,
    edges: &Adjacency,
    vertices: &[usize],
    positions: &[usize],
) -> Result<Adjacency, AllocError>
    requires lead { LeadToVertices edges.now }
    requires all { (s : ℕ) → s < length edges.now → Contains vertices.now s }
    requires positions { ArePositions (length edges.now) vertices.now positions.now }
    ensures { IfOk result (λ placed. placed ≡ by_position edges.now vertices.now) }
{
    let mut placed = Adjacency::new(alloc);
    for vertex in vertices {
        let row = to_positions(alloc, edges.at(*vertex), positions)?;
        placed.push_vertex(&row)?;
    }
    Ok(placed)
}

/// Returns `edges`, with the vertex that each edge leads to replaced by the position of that vertex.
fn to_positions(alloc: Global, edges: &[Edge], positions: &[usize]) -> Result<Vec<Edge>, AllocError>
    requires { All (λ edge. edge.to < length positions.now) edges.now }
    ensures { IfOk result (λ found. found.items ≡ map (to_position positions.now) edges.now) }
{
    edges
        .iter()
        .map(|edge| Edge {
            port: edge.port,
            to: positions[edge.to],
        })
        .collect(alloc)
}
