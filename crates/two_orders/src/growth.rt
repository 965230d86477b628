//! The order that grows by positions, and the positions of vertices in a list.
ghost use Rattle.std.specs.Prelude.{◌≡◌, IfOk, length, map};
ghost use Rattle.port_graph.specs.Heads.{LeadToVertices};
ghost use Rattle.spread_labels.specs.LabelLaws.{IsSymmetric};
ghost use Rattle.spread_labels.specs.Orders.{position_of};
ghost use Rattle.two_orders.specs.Growth.{grown_by, key_of, positions_in};

use port_graph::Adjacency;
use spread_labels::{VertexKey, grown_order};
use std::alloc::{AllocError, Global};

/// Returns the vertices in the order that grows by `positions`. There must be a position for each vertex. For each
/// edge there must be an edge back. Takes time quadratic in the number of vertices, and linear in the number of
/// edges. Returns an error if memory runs out.
pub fn grown_by(
    alloc: Global,
    edges: &Adjacency,
    positions: &[usize],
) -> Result<Vec<usize>, AllocError>
    requires positions { length positions.now ≡ length edges.now }
    requires lead { LeadToVertices edges.now }
    requires symmetric { IsSymmetric edges.now }
    ensures { IfOk result (λ vertices. vertices.items ≡ grown_by edges.now positions.now) }
{
    let keys = keys_of(alloc, positions)?;
    grown_order(alloc, edges, &keys)
}

/// Returns each of `positions` as a key.
fn keys_of(alloc: Global, positions: &[usize]) -> Result<Vec<VertexKey>, AllocError>
    ensures { IfOk result (λ keys. keys.items ≡ map key_of positions.now) }
{
    positions
        .iter()
        .map(|position| key_of(*position))
        .collect(alloc)
}

/// Returns `position` as a key.
fn key_of(position: usize) -> VertexKey
    ensures { result ≡ key_of position }
{
    VertexKey {
        distance_class: 0,
        distance: position,
    }
}

/// Returns the position in `vertices` of each of `count` vertices, or the length of `vertices` for a vertex that it
/// does not have. For each of the `count` vertices, takes time linear in the length of `vertices`. Returns an error
/// if memory runs out.
pub fn positions_in(
    alloc: Global,
    vertices: &[usize],
    count: usize,
) -> Result<Vec<usize>, AllocError>
    ensures { IfOk result (λ positions. positions.items ≡ positions_in vertices.now count) }
{
    (0..count)
        .map(|vertex| position_of(vertices, vertex))
        .collect(alloc)
}

/// Returns the position of `vertex` in `vertices`, or the length of `vertices` if it does not have `vertex`.
fn position_of(vertices: &[usize], vertex: usize) -> usize
    ensures { result ≡ position_of vertices.now vertex }
{
    for (index, other) in vertices.iter().enumerate() {
        if *other == vertex {
            return index;
        }
    }
    vertices.len()
}
