//! The order of vertices by depth.
ghost use Rattle.std.specs.Prelude.{◌≡◌, ◌<◌, length, count_by, IfOk, MatchOption};
ghost use Rattle.port_graph.specs.Heads.{LeadToVertices};
ghost use Rattle.spread_labels.specs.KeyOrder.{before_by};
ghost use Rattle.spread_labels.specs.Growth.{earlier_of};
ghost use Rattle.depth_orders.specs.DepthOrder.{best_beside, deepest, first_left, flag_at, goes_before};
ghost use Rattle.depth_orders.specs.KeyedGraph.{preferred};
ghost use Rattle.depth_orders.specs.DepthOrder.{next_by_depth, order_by_depth, turned};

use crate::direction::Direction;
use crate::keyed_graph::KeyedGraph;
use port_graph::{Adjacency, Edge};
use spread_labels::VertexKey;
use std::alloc::{AllocError, Global};

/// Returns the vertices in the order by depth from `root`. `root` is placed first. While a placed vertex has unplaced
/// neighbors, the last such vertex decides: of its unplaced neighbors, the one with the most edges to placed vertices
/// is placed next. Of equals, it is the one that `direction` prefers by `keys`. If no placed vertex has an unplaced
/// neighbor, the first unplaced vertex by `keys` and `direction` is placed next. `root` must be a vertex, all edges
/// must lead to vertices, and there must be a key for each vertex. Returns an error if memory runs out.
pub fn order_by_depth(
    alloc: Global,
    edges: &Adjacency,
    keys: &[VertexKey],
    direction: Direction,
    root: usize,
) -> Result<Vec<usize>, AllocError>
    requires keys { length keys.now ≡ length edges.now }
    requires lead { LeadToVertices edges.now }
    requires root { root < length edges.now }
    ensures { IfOk result (λ vertices. vertices.items
        ≡ order_by_depth edges.now (turned direction (before_by keys.now)) root) }
{
    let graph = KeyedGraph {
        edges: &*edges,
        keys: &*keys,
        direction,
    };
    let mut placed = vec![in alloc; false; edges.len()]?;
    let mut vertices = Vec::with_capacity(alloc, edges.len())?;
    vertices.push(root)?;
    placed[root] = true;
    for _ in 0..edges.len() {
        if let Some(vertex) = next_by_depth(&graph, &placed, &vertices) {
            vertices.push(vertex)?;
            placed[vertex] = true;
        }
    }
    Ok(vertices)
}

/// Returns the vertex that is placed after `vertices`, or `None` if all vertices are placed.
fn next_by_depth(graph: &KeyedGraph, placed: &[bool], vertices: &[usize]) -> Option<usize>
    ensures next { result ≡ next_by_depth graph.now.edges.now (preferred graph.now)
        (flag_at placed.now) vertices.now }
    ensures vertex { MatchOption result (Unit {0}) (λ vertex. vertex < length graph.now.edges.now) }
{
    match deepest(graph, placed, vertices) {
        Some(vertex) => Some(vertex),
        None => first_left(graph.keys, graph.direction, placed),
    }
}

/// Returns the first unplaced neighbor, by `goes_before`, of the last of `vertices` that has one, or `None`.
fn deepest(graph: &KeyedGraph, placed: &[bool], vertices: &[usize]) -> Option<usize>
    ensures deepest { result ≡ deepest graph.now.edges.now (preferred graph.now)
        (flag_at placed.now) vertices.now (length vertices.now) }
    ensures vertex { MatchOption result (Unit {0}) (λ vertex. vertex < length graph.now.edges.now) }
{
    let mut behind = vertices.len();
    while behind > 0 {
        behind -= 1;
        let found = best_beside(graph, placed, vertices[behind]);
        if found.is_some() {
            return found;
        }
    }
    None
}

/// Returns the first, by `goes_before`, of the unplaced neighbors of `vertex`, or `None` if it has none.
fn best_beside(graph: &KeyedGraph, placed: &[bool], vertex: usize) -> Option<usize>
    ensures best { result ≡ best_beside graph.now.edges.now (preferred graph.now)
        (flag_at placed.now) vertex }
    ensures vertex { MatchOption result (Unit {0}) (λ vertex. vertex < length graph.now.edges.now) }
{
    let mut found = None;
    for edge in graph.edges.at(vertex) {
        if !is_placed(placed, edge.to) {
            found = Some(better(graph, placed, found, edge.to));
        }
    }
    found
}

/// Returns `vertex` if `found` is `None` or `vertex` goes before `found` (`goes_before`), and otherwise `found`.
fn better(graph: &KeyedGraph, placed: &[bool], found: Option<usize>, vertex: usize) -> usize
    requires vertex { vertex < length graph.now.edges.now }
    requires found { MatchOption found (Unit {0}) (λ other. other < length graph.now.edges.now) }
    ensures { result ≡ earlier_of (goes_before graph.now.edges.now (preferred graph.now)
        (flag_at placed.now)) found vertex }
{
    match found {
        Some(other) if !goes_before(graph, placed, vertex, other) => other,
        _ => vertex,
    }
}

/// Returns whether `one` has more edges to placed vertices than `other`, or as many and `direction` prefers `one`.
fn goes_before(graph: &KeyedGraph, placed: &[bool], one: usize, other: usize) -> bool
    requires one { one < length graph.now.edges.now }
    requires other { other < length graph.now.edges.now }
    ensures { result ≡ goes_before graph.now.edges.now (preferred graph.now) (flag_at placed.now)
        one other }
{
    let to_placed = count_placed(graph.edges.at(one), placed);
    let others = count_placed(graph.edges.at(other), placed);
    others < to_placed || (to_placed == others && graph.direction.takes(graph.keys, one, other))
}

/// Returns the number of `edges` that lead to placed vertices.
fn count_placed(edges: &[Edge], placed: &[bool]) -> usize
    ensures { result ≡ count_by (λ edge. flag_at placed.now edge.to) edges.now }
{
    edges
        .iter()
        .filter(|edge| is_placed(placed, edge.to))
        .count()
}

/// Returns the first unplaced vertex by `keys` and `direction`, or `None` if all vertices are placed.
fn first_left(keys: &[VertexKey], direction: Direction, placed: &[bool]) -> Option<usize>
    ensures first { result ≡ first_left (turned direction (before_by keys.now)) (flag_at placed.now)
        (length keys.now) }
    ensures vertex { MatchOption result (Unit {0}) (λ vertex. vertex < length keys.now) }
{
    let mut found = None;
    for vertex in 0..keys.len() {
        if !is_placed(placed, vertex) {
            found = Some(earlier(keys, direction, found, vertex));
        }
    }
    found
}

/// Returns `vertex` if `found` is `None` or `direction` prefers `vertex` to `found`, and otherwise `found`.
fn earlier(keys: &[VertexKey], direction: Direction, found: Option<usize>, vertex: usize) -> usize
    requires vertex { vertex < length keys.now }
    requires found { MatchOption found (Unit {0}) (λ other. other < length keys.now) }
    ensures { result ≡ earlier_of (turned direction (before_by keys.now)) found vertex }
{
    match found {
        Some(other) if !direction.takes(keys, vertex, other) => other,
        _ => vertex,
    }
}

/// Returns whether `vertex` is placed. A vertex past the end of `placed` is not.
fn is_placed(placed: &[bool], vertex: usize) -> bool
    ensures { result ≡ flag_at placed.now vertex }
{
    match placed.get(vertex) {
        Some(flag) => *flag,
        None => false,
    }
}
