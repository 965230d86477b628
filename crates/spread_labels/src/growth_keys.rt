//! The keys of vertices by their distance classes.
ghost use Rattle.std.specs.Prelude.{◌≡◌, ◌<◌, length, IfOk, MatchOption};
ghost use Rattle.port_graph.specs.Heads.{AreDistances, LeadToVertices};
ghost use Rattle.spread_labels.specs.GrowthKeys.{AreFar, FillsIn, by_distance_class, first_among, first_at, keys_of};
ghost use Rattle.spread_labels.specs.LabelLaws.{IsSymmetric};

use crate::growth::earlier;
use crate::key_order::VertexKey;
use port_graph::{Adjacency, distances};
use std::alloc::{AllocError, Global};

/// Returns the key of each vertex: its distance class, and its distance from the first vertex of its component. The
/// first vertex is the one with the least distance class, and the least such vertex if there are several. There must
/// be a distance class for each vertex. For each edge there must be an edge back. Does two breadth-first searches for
/// each component. Returns an error if memory runs out.
pub fn keys(
    alloc: Global,
    edges: &Adjacency,
    distance_classes: &[u128],
) -> Result<Vec<VertexKey>, AllocError>
    requires lead { LeadToVertices edges.now }
    requires symmetric { IsSymmetric edges.now }
    requires all { length distance_classes.now ≡ length edges.now }
    ensures { IfOk result (λ keys. keys.items ≡ keys_of edges.now distance_classes.now) }
{
    let by_distance_class = by_distance_class(alloc, distance_classes)?;
    let far = far(alloc, edges, &by_distance_class)?;
    let mut keys = Vec::with_capacity(alloc, edges.len())?;
    for vertex in 0..edges.len() {
        keys.push(VertexKey {
            distance_class: distance_classes[vertex],
            distance: far[vertex].unwrap_or(0),
        })?;
    }
    Ok(keys)
}

/// Returns, for each of `distance_classes`, a key with that distance class and the distance 0.
fn by_distance_class(alloc: Global, distance_classes: &[u128]) -> Result<Vec<VertexKey>, AllocError>
    ensures { IfOk result (λ keys. keys.items ≡ by_distance_class distance_classes.now) }
{
    let keys = distance_classes.iter().map(|distance_class| VertexKey {
        distance_class: *distance_class,
        distance: 0,
    });
    keys.collect(alloc)
}

/// Returns the distance of each vertex from the first vertex of its component, the one with the earliest key in `keys`.
fn far(
    alloc: Global,
    edges: &Adjacency,
    keys: &[VertexKey],
) -> Result<Vec<Option<usize>>, AllocError>
    requires lead { LeadToVertices edges.now }
    requires symmetric { IsSymmetric edges.now }
    requires all { length keys.now ≡ length edges.now }
    ensures { IfOk result (λ far. AreFar edges.now keys.now (length edges.now) far.items) }
{
    let mut far = vec![in alloc; None; edges.len()]?;
    for vertex in 0..edges.len() {
        if far[vertex].is_none() {
            let found = from_first(alloc, edges, keys, vertex)?;
            fill(&mut far, &found);
        }
    }
    Ok(far)
}

/// Returns the distance of each vertex from the first vertex, by `keys`, of the component of `vertex`.
fn from_first(
    alloc: Global,
    edges: &Adjacency,
    keys: &[VertexKey],
    vertex: usize,
) -> Result<Vec<Option<usize>>, AllocError>
    requires lead { LeadToVertices edges.now }
    requires all { length keys.now ≡ length edges.now }
    requires vertex { vertex < length edges.now }
    ensures { IfOk result (λ found. AreDistances edges.now (first_at edges.now keys.now vertex) found.items) }
{
    let near = distances(alloc, edges, vertex)?;
    let first = first(keys, &near).unwrap_or(vertex);
    distances(alloc, edges, first)
}

/// Sets each missing distance of `far` to the distance at its index in `found`, if there is one.
fn fill(far: &mut [Option<usize>], found: &[Option<usize>])
    requires { length far.old ≡ length found.now }
    ensures { FillsIn far.old found.now far.new }
{
    for (i, slot) in far.iter_mut().enumerate() {
        *slot = slot.or(found[i]);
    }
}

/// Returns the vertex with the earliest key among those that have a distance in `distances`, or `None` if none has.
fn first(keys: &[VertexKey], distances: &[Option<usize>]) -> Option<usize>
    requires { length distances.now ≡ length keys.now }
    ensures first { result ≡ first_among keys.now distances.now }
    ensures vertex { MatchOption result (Unit {0}) (λ vertex. vertex < length keys.now) }
{
    let mut found = None;
    for vertex in 0..keys.len() {
        if distances[vertex].is_some() {
            found = Some(earlier(keys, found, vertex));
        }
    }
    found
}
