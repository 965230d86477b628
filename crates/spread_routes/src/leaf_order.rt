//! The order in which leaf switches take turns.
ghost use Rattle.std.specs.Prelude.{◌≡◌, ◌<◌, All, IfOk, filter, length};
ghost use Rattle.spread_routes.specs.LeafNumbers.{goes_first, leaf_number, leaf_numbers, least_head, least_neighbors};

use crate::switch_adapters::SwitchAdapters;
use port_graph::{Adjacency, Edge};
use spread_labels::leaf_vertices;
use std::alloc::{AllocError, Global};

/// Returns the leaf number of each switch, in ascending order of the switches' GUIDs. The leaf number is the number
/// of leaf switches that come before the switch, modulo 2^16. Leaf switches come in the order of their least
/// neighbors, and then of their GUIDs, so those with the same least neighbor follow one another. Takes time linear in the
/// number of edges and, for each switch, in the number of leaf switches. Returns an error if memory runs out.
pub fn leaf_numbers(alloc: Global, given: &SwitchAdapters) -> Result<Vec<u16>, AllocError>
    ensures { IfOk result (λ numbers. numbers.items ≡ leaf_numbers given.now.graph.now given.now.adapters.now) }
{
    let (graph, adapters) = (given.graph, given.adapters);
    let edges = graph.adjacency();
    let neighbors = least_neighbors(alloc, edges)?;
    let leaves = leaf_vertices(alloc, adapters)?;
    let mut numbers = Vec::with_capacity(alloc, graph.len())?;
    for index in 0..graph.len() {
        numbers.push(leaf_number(&neighbors, &leaves, index))?;
    }
    Ok(numbers)
}

/// Returns the leaf number of the vertex `index`: how many of `leaves`, modulo 2^16, come before it (`goes_first`).
fn leaf_number(neighbors: &[usize], leaves: &[usize], index: usize) -> u16
    requires index { index < length neighbors.now }
    requires leaves { All (λ leaf. leaf < length neighbors.now) leaves.now }
    ensures { result ≡ leaf_number neighbors.now leaves.now index }
{
    (count_before(neighbors, leaves, index) % 65536) as u16
}

/// Returns how many of `leaves` come before the vertex `index` by the least neighbors `neighbors`.
fn count_before(neighbors: &[usize], leaves: &[usize], index: usize) -> usize
    requires index { index < length neighbors.now }
    requires leaves { All (λ leaf. leaf < length neighbors.now) leaves.now }
    ensures { result ≡ length (filter (λ leaf. goes_first neighbors.now leaf index) leaves.now) }
{
    leaves
        .iter()
        .filter(|leaf| goes_first(neighbors, **leaf, index))
        .count()
}

/// Returns whether vertex `a` comes before vertex `b`: its least neighbor is less, or it is equal and `a` is less.
fn goes_first(neighbors: &[usize], a: usize, b: usize) -> bool
    requires a { a < length neighbors.now }
    requires b { b < length neighbors.now }
    ensures { result ≡ goes_first neighbors.now a b }
{
    neighbors[a] < neighbors[b] || neighbors[a] == neighbors[b] && a < b
}

/// Returns the least neighbor of each vertex. For a vertex that has no neighbors, returns the number of vertices.
fn least_neighbors(alloc: Global, edges: &Adjacency) -> Result<Vec<usize>, AllocError>
    ensures { IfOk result (λ found. found.items ≡ least_neighbors edges.now) }
{
    let mut found = Vec::with_capacity(alloc, edges.len())?;
    for vertex in 0..edges.len() {
        found.push(least_head(edges.at(vertex), edges.len()))?;
    }
    Ok(found)
}

/// Returns the least of `none` and the vertices to which `edges` lead.
fn least_head(edges: &[Edge], none: usize) -> usize
    ensures { result ≡ least_head none edges.now }
{
    let mut least = none;
    for edge in edges {
        least = least.min(edge.to);
    }
    least
}
