//! Which of up to 64 targets are near to vertices. A set of targets is a number with a bit for each target.
ghost use Rattle.std.specs.Prelude.{◌≡◌, ◌<◌, ◌≤◌, ◌||◌, ◌==◌, ℕ, All, IfOk, length};
ghost use Rattle.port_graph.specs.Heads.{LeadToVertices};
ghost use Rattle.trial_loads.specs.NearTargets.{AreFurther, AreThere, has_target, is_near_any};

use port_graph::{Adjacency, Edge};
use std::alloc::{AllocError, Global};

/// Returns, for each of `count` vertices, the indices at which `targets` has the vertex.
pub(crate) fn at_targets(
    alloc: Global,
    count: usize,
    targets: &[usize],
) -> Result<Vec<u64>, AllocError>
    requires few { length targets.now ≤ 64 }
    requires vertices { All (λ target. target < count) targets.now }
    ensures { IfOk result (λ near. AreThere count targets.now (length targets.now) near.items) }
{
    let mut near = vec![in alloc; 0; count]?;
    for (k, target) in targets.iter().enumerate() {
        near[*target] = with_target(near[*target], k);
    }
    Ok(near)
}

/// Returns, for each vertex, the targets that `near` has for it or for a vertex to which one of its edges leads.
pub(crate) fn one_further(
    alloc: Global,
    edges: &Adjacency,
    near: &[u64],
) -> Result<Vec<u64>, AllocError>
    requires lead { LeadToVertices edges.now }
    requires near { length near.now ≡ length edges.now }
    ensures { IfOk result (λ next. AreFurther edges.now near.now (length edges.now) next.items) }
{
    let mut next = Vec::with_capacity(alloc, edges.len())?;
    for vertex in 0..edges.len() {
        next.push(near[vertex] | near_any(edges.at(vertex), near))?;
    }
    Ok(next)
}

/// Returns the targets that `near` has for any of the vertices to which `edges` lead.
fn near_any(edges: &[Edge], near: &[u64]) -> u64
    requires { All (λ edge. edge.to < length near.now) edges.now }
    ensures { (k : ℕ) → has_target result k ≡ is_near_any near.now edges.now k }
{
    let mut set = 0;
    for edge in edges {
        set |= near[edge.to];
    }
    set
}

/// Returns `set` with target `k` added.
fn with_target(set: u64, k: usize) -> u64
    requires { k < 64 }
    ensures { (j : ℕ) → has_target result j ≡ ((j == k) || has_target set j) }
{
    set | 1 << k
}

/// Returns whether `set` has target `k`.
pub(crate) fn has_target(set: u64, k: usize) -> bool
    requires { k < 64 }
    ensures { result ≡ has_target set k }
{
    (set >> k) & 1 == 1
}
