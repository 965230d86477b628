//! The tree of an order of vertices: the edges between each vertex and its earliest neighbor.
ghost use Rattle.std.specs.Prelude.{◌≡◌, IfOk, if◌then◌else◌};
ghost use Rattle.two_orders.specs.Growth.{number_at};
ghost use Rattle.two_orders.specs.Trees.{all_earliest, earliest_beside, is_earlier, is_in_tree};
ghost use Rattle.two_orders.specs.Trees.{tree, tree_by, tree_edges};

use port_graph::{Adjacency, Edge};
use std::alloc::{AllocError, Global};

/// Returns the tree of an order: the edges between each vertex and the earliest, by `positions`, of the vertex and
/// its neighbors. Takes time linear in the number of vertices and edges. Returns an error if memory runs out.
pub fn tree(alloc: Global, edges: &Adjacency, positions: &[usize]) -> Result<Adjacency, AllocError>
    ensures { IfOk result (λ found. found ≡ tree edges.now positions.now) }
{
    let earliest = all_earliest(alloc, edges, positions)?;
    tree_by(alloc, edges, &earliest)
}

/// Returns the tree's edges of each vertex. `earliest` has the earliest among each vertex and its neighbors.
fn tree_by(alloc: Global, edges: &Adjacency, earliest: &[usize]) -> Result<Adjacency, AllocError>
    ensures { IfOk result (λ found. found ≡ tree_by edges.now earliest.now) }
{
    let mut found = Adjacency::new(alloc);
    for vertex in 0..edges.len() {
        let row = tree_edges(alloc, edges, earliest, vertex)?;
        found.push_vertex(&row)?;
    }
    Ok(found)
}

/// Returns, for each vertex, the earliest among the vertex and its neighbors by `positions`.
fn all_earliest(
    alloc: Global,
    edges: &Adjacency,
    positions: &[usize],
) -> Result<Vec<usize>, AllocError>
    ensures { IfOk result (λ found. found.items ≡ all_earliest edges.now positions.now) }
{
    (0..edges.len())
        .map(|vertex| earliest_beside(edges, positions, vertex))
        .collect(alloc)
}

/// Returns the earliest among `vertex` and its neighbors by `positions`.
fn earliest_beside(edges: &Adjacency, positions: &[usize], vertex: usize) -> usize
    ensures { result ≡ earliest_beside edges.now positions.now vertex }
{
    let mut found = vertex;
    for edge in edges.at(vertex) {
        found = earlier(positions, found, edge.to);
    }
    found
}

/// Returns `other` if `other` is earlier than `found`, and otherwise `found`.
fn earlier(positions: &[usize], found: usize, other: usize) -> usize
    ensures { result ≡ if is_earlier positions.now other found then other else found }
{
    if is_earlier(positions, other, found) {
        other
    } else {
        found
    }
}

/// Returns whether `one` has an earlier position than `other`.
pub(crate) fn is_earlier(positions: &[usize], one: usize, other: usize) -> bool
    ensures { result ≡ is_earlier positions.now one other }
{
    number_at(positions, one) < number_at(positions, other)
}

/// Returns the edges of `vertex` that are in the tree.
fn tree_edges(
    alloc: Global,
    edges: &Adjacency,
    earliest: &[usize],
    vertex: usize,
) -> Result<Vec<Edge>, AllocError>
    ensures { IfOk result (λ found. found.items ≡ tree_edges edges.now earliest.now vertex) }
{
    edges
        .at(vertex)
        .iter()
        .filter(|edge| is_in_tree(earliest, vertex, edge))
        .copied()
        .collect(alloc)
}

/// Returns whether `edge`, an edge of `vertex`, is in the tree.
fn is_in_tree(earliest: &[usize], vertex: usize, edge: &Edge) -> bool
    ensures { result ≡ is_in_tree earliest.now vertex edge.now }
{
    number_at(earliest, vertex) == edge.to || number_at(earliest, edge.to) == vertex
}

/// Returns the number at `index`, or 0 if `index` is past the end.
fn number_at(numbers: &[usize], index: usize) -> usize
    ensures { result ≡ number_at numbers.now index }
{
    numbers.get(index).copied().unwrap_or(0)
}
