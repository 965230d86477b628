//! The vertices from which orders by depth are tried.
ghost use Rattle.std.specs.Prelude.{◌≡◌, ◌<◌, All, IfOk, MatchOption, length, map, min};
ghost use Rattle.std.specs.List.{zip};
ghost use Rattle.port_graph.specs.Heads.{LeadToVertices};
ghost use Rattle.spread_labels.specs.Growth.{earlier_of, earliest_of};
ghost use Rattle.spread_labels.specs.KeyOrder.{before_by};
ghost use Rattle.spread_labels.specs.Orders.{numbers_from};
ghost use Rattle.trial_loads.specs.Starts.{is_farther, nearer, starts, starts_before};

use port_graph::{Adjacency, distances};
use spread_labels::{VertexKey, is_before};
use std::alloc::{AllocError, Global};

/// The greatest number of vertices from which orders by depth are tried.
const TRIED: usize = 8;

/// Returns up to eight vertices from which orders by depth are tried, each the farthest from those before it. Does a
/// breadth-first search from each start.
pub(crate) fn starts(
    alloc: Global,
    edges: &Adjacency,
    keys: &[VertexKey],
) -> Result<Vec<usize>, AllocError>
    requires keys { length keys.now ≡ length edges.now }
    requires lead { LeadToVertices edges.now }
    ensures starts { IfOk result (λ found.
        found.items ≡ starts edges.now (before_by keys.now) (min (length edges.now) 8)) }
    ensures vertices { IfOk result (λ found. All (λ start. start < length edges.now) found.items) }
{
    let mut near = vec![in alloc; None; edges.len()]?;
    let mut starts = Vec::new(alloc);
    for count in 0..edges.len().min(TRIED) {
        if let Some(start) = farthest(keys, &near) {
            let found = distances(alloc, edges, start)?;
            near = all_nearer(alloc, &near, &found)?;
            starts.push(start)?;
        }
    }
    Ok(starts)
}

/// Returns the lesser of the two distances at each index of `near` and `found`.
fn all_nearer(
    alloc: Global,
    near: &[Option<usize>],
    found: &[Option<usize>],
) -> Result<Vec<Option<usize>>, AllocError>
    ensures { IfOk result (λ both. both.items ≡ map (λ p. nearer p.0 p.1) (zip near.now found.now)) }
{
    near.iter()
        .zip(found.iter())
        .map(|(near, found)| nearer(*near, *found))
        .collect(alloc)
}

/// Returns the lesser of two distances, or the other one if one of them is `None`.
fn nearer(one: Option<usize>, other: Option<usize>) -> Option<usize>
    ensures { result ≡ nearer one other }
{
    match (one, other) {
        (Some(one), Some(other)) => Some(one.min(other)),
        (Some(one), None) => Some(one),
        (None, other) => other,
    }
}

/// Returns the vertex that is farthest by the distances `near`, the first by `keys` of several, or `None`.
fn farthest(keys: &[VertexKey], near: &[Option<usize>]) -> Option<usize>
    requires { length near.now ≡ length keys.now }
    ensures farthest { result
        ≡ earliest_of (starts_before near.now (before_by keys.now)) (numbers_from 0 (length keys.now)) }
    ensures vertex { MatchOption result (Unit {0}) (λ vertex. vertex < length keys.now) }
{
    let mut found = None;
    for vertex in 0..keys.len() {
        found = Some(farther(keys, near, found, vertex));
    }
    found
}

/// Returns `vertex` if `found` is `None` or `vertex` starts before `found` (`starts_before`), and otherwise `found`.
fn farther(keys: &[VertexKey], near: &[Option<usize>], found: Option<usize>, vertex: usize) -> usize
    requires all { length near.now ≡ length keys.now }
    requires vertex { vertex < length keys.now }
    requires found { MatchOption found (Unit {0}) (λ other. other < length keys.now) }
    ensures { result ≡ earlier_of (starts_before near.now (before_by keys.now)) found vertex }
{
    match found {
        Some(other) if !starts_before(keys, near, vertex, other) => other,
        _ => vertex,
    }
}

/// Returns whether `one` is farther than `other` by the distances `near`, or as far and first by `keys`.
fn starts_before(keys: &[VertexKey], near: &[Option<usize>], one: usize, other: usize) -> bool
    requires all { length near.now ≡ length keys.now }
    requires one { one < length keys.now }
    requires other { other < length keys.now }
    ensures { result ≡ starts_before near.now (before_by keys.now) one other }
{
    is_farther(near[one], near[other])
        || (!is_farther(near[other], near[one]) && is_before(keys, one, other))
}

/// Returns whether the distance `one` is greater than `other`. `None` is greater than all others.
fn is_farther(one: Option<usize>, other: Option<usize>) -> bool
    ensures { result ≡ is_farther one other }
{
    match (one, other) {
        (None, Some(_)) => true,
        (Some(one), Some(other)) => other < one,
        _ => false,
    }
}
