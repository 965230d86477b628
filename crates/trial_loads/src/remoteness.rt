//! How remote vertices are.
ghost use Rattle.std.specs.Prelude.{◌≡◌, ◌<◌, ◌≤◌, ◌+◌, ℕ, Some, All, IfOk, OnOk, length, slice_index};
ghost use Rattle.spread_labels.specs.LabelLaws.{IsSymmetric};
ghost use Rattle.spread_labels.specs.Orders.{numbers_from};
ghost use Rattle.trial_loads.specs.NearTargets.{AreWithShares, new_shares, shares_at, shares_in};
ghost use Rattle.trial_loads.specs.Starts.{all_remoteness, capped, keys_by_remoteness, remote_share};

use crate::adapter_graph::AdapterGraph;
use crate::near_targets::{at_targets, has_target, one_further};
use spread_labels::{TARGETS, VertexKey, keys};
use std::alloc::{AllocError, Global};

/// Returns the keys of vertices by how remote they are, and then by the distance from the least remote vertex of their
/// component. Finds the distances of all vertices to 64 vertices at a time, in rounds. Each round takes time linear in
/// the number of vertices and edges. There is at most one round more than the greatest distance.
pub(crate) fn keys_by_remoteness(
    alloc: Global,
    graph: &AdapterGraph,
) -> Result<Vec<VertexKey>, AllocError>
    requires symmetric { IsSymmetric graph.now.edges.now }
    ensures { IfOk result (λ keys. keys.items ≡ keys_by_remoteness graph.now.edges.now graph.now.adapters.now) }
{
    let remote = all_remoteness(alloc, graph)?;
    keys(alloc, graph.edges, &remote)
}

/// Returns how remote each vertex is. Adds up the shares of 64 vertices at a time.
fn all_remoteness(alloc: Global, graph: &AdapterGraph) -> Result<Vec<u128>, AllocError>
    ensures { IfOk result (λ found. found.items ≡ all_remoteness graph.now.edges.now graph.now.adapters.now) }
{
    let vertices = all_vertices(alloc, graph.edges.len())?;
    let mut sums = vec![in alloc; 0; graph.edges.len()]?;
    let mut first = 0;
    while first < vertices.len() {
        let end = first + TARGETS.min(vertices.len() - first);
        add_shares(alloc, graph, &vertices[first..end], &mut sums)?;
        first = end;
    }
    widened(alloc, &sums)
}

/// Returns `sums`, in 128 bits each.
fn widened(alloc: Global, sums: &[usize]) -> Result<Vec<u128>, AllocError>
    ensures { IfOk result (λ wide. wide.items ≡ sums.now) }
{
    let mut wide = Vec::with_capacity(alloc, sums.len())?;
    for sum in sums {
        wide.push(*sum as u128)?;
    }
    Ok(wide)
}

/// Returns the vertices of a graph with `count` vertices.
fn all_vertices(alloc: Global, count: usize) -> Result<Vec<usize>, AllocError>
    ensures numbers { IfOk result (λ vertices. vertices.items ≡ numbers_from 0 count) }
    ensures vertices { IfOk result (λ vertices. All (λ vertex. vertex < count) vertices.items) }
{
    let mut vertices = Vec::with_capacity(alloc, count)?;
    for vertex in 0..count {
        vertices.push(vertex)?;
    }
    Ok(vertices)
}

/// Adds to the sum of each vertex what each of `targets` adds to how remote the vertex is, up to 2^64 - 1.
fn add_shares(
    alloc: Global,
    graph: &AdapterGraph,
    targets: &[usize],
    sums: &mut [usize],
) -> Result<(), AllocError>
    requires few { length targets.now ≤ 64 }
    requires vertices { All (λ target. target < length graph.now.edges.now) targets.now }
    requires sums { length sums.old ≡ length graph.now.edges.now }
    ensures { OnOk result (AreWithShares graph.now.edges.now graph.now.adapters.now targets.now
        (length graph.now.edges.now) sums.old sums.new) }
{
    let mut near = at_targets(alloc, graph.edges.len(), targets)?;
    for distance in 1..graph.edges.len() {
        let next = one_further(alloc, graph.edges, &near)?;
        if next == near {
            break;
        }
        let shares = shares_at(alloc, graph.adapters, targets, distance)?;
        add_new_shares(&near, &next, &shares, sums);
        near = next;
    }
    Ok(())
}

/// Returns what each of `targets` adds to how remote a vertex at the given distance from it is.
fn shares_at(
    alloc: Global,
    adapters: &[u16],
    targets: &[usize],
    distance: usize,
) -> Result<Vec<usize>, AllocError>
    requires { All (λ target. target < length adapters.now) targets.now }
    ensures { IfOk result (λ shares. shares.items ≡ shares_at adapters.now targets.now distance) }
{
    let mut shares = Vec::with_capacity(alloc, targets.len())?;
    for target in targets {
        shares.push(remote_share(adapters[*target], distance))?;
    }
    Ok(shares)
}

/// Adds to the sum of each vertex the shares of the targets that `next` has for the vertex, but not `near`.
fn add_new_shares(near: &[u64], next: &[u64], shares: &[usize], sums: &mut [usize])
    requires near { length near.now ≡ length sums.old }
    requires next { length next.now ≡ length sums.old }
    requires few { length shares.now ≤ 64 }
    ensures { (s : ℕ) → s < length sums.old → slice_index sums.new s ≡ capped (slice_index sums.old s
        + new_shares shares.now (slice_index near.now s) (slice_index next.now s)) }
{
    for (vertex, sum) in sums.iter_mut().enumerate() {
        *sum = with_shares(*sum, shares, next[vertex] & !near[vertex]);
    }
}

/// Returns `sum` with the shares of the targets in `set` added, capped at 2^64 - 1.
fn with_shares(sum: usize, shares: &[usize], set: u64) -> usize
    requires { length shares.now ≤ 64 }
    ensures { result ≡ capped (sum + shares_in shares.now set) }
{
    if set == 0 {
        return sum;
    }
    let mut sum = sum;
    for (k, share) in shares.iter().enumerate() {
        if has_target(set, k) {
            sum = sum.saturating_add(*share);
        }
    }
    sum
}

/// Returns what a vertex with `adapters` adapters adds to how remote a vertex at the given distance is.
fn remote_share(adapters: u16, distance: usize) -> usize
    ensures { result ≡ remote_share adapters (Some distance) }
{
    distance
        .saturating_mul(distance)
        .saturating_mul(usize::from(adapters) + 1)
}
