//! The levels of vertices, and the digit weights of levels.
ghost use Rattle.std.specs.Prelude.{◌≡◌, ◌<◌, ◌*◌, suc, map, filter, min, length, All, IfOk, unwrap_or};
ghost use Rattle.port_graph.specs.Heads.{LeadToVertices};
ghost use Rattle.spread_labels.specs.Level.{greatest, is_rise, digit_weight_of, digit_weights_of, width_of};
ghost use Rattle.spread_labels.specs.Orders.{numbers_from};

use crate::distance_class::DistanceSum;
use port_graph::{Adjacency, Edge};
use std::alloc::{AllocError, Global};

/// The greatest digit weight. The number of a LID is never greater.
const GREATEST_WEIGHT: usize = 65536;

/// Returns the least distance in each of `distance_sums`, or 0 for a summary that has no distances.
pub(crate) fn near_or_0(
    alloc: Global,
    distance_sums: &[DistanceSum],
) -> Result<Vec<usize>, AllocError>
    ensures { IfOk result (λ found. found.items
        ≡ map (λ distance_sum. unwrap_or distance_sum.near 0) distance_sums.now) }
{
    distance_sums
        .iter()
        .map(|distance_sum| distance_sum.near.unwrap_or(0))
        .collect(alloc)
}

/// Returns, for each vertex, the digit weight of its level. The digit weight is the product of the widths of all
/// lesser levels, but at most 65536. The width of a level is the greatest number of edges from a vertex of the level
/// to vertices of higher levels, but at least 1. `levels` must have a level for each vertex, and all edges must lead
/// to vertices. Walks all vertices for each level. Returns an error if memory runs out.
pub fn digit_weights(
    alloc: Global,
    edges: &Adjacency,
    levels: &[usize],
) -> Result<Vec<usize>, AllocError>
    requires all { length levels.now ≡ length edges.now }
    requires lead { LeadToVertices edges.now }
    ensures { IfOk result (λ digit_weights. digit_weights.items ≡ digit_weights_of edges.now levels.now) }
{
    let by_level = digit_weights_by_level(alloc, edges, levels)?;
    let mut digit_weights = Vec::with_capacity(alloc, levels.len())?;
    for level in levels {
        digit_weights.push(by_level[*level])?;
    }
    Ok(digit_weights)
}

/// Returns the digit weight of each level from 0 to the greatest of `levels`.
fn digit_weights_by_level(
    alloc: Global,
    edges: &Adjacency,
    levels: &[usize],
) -> Result<Vec<usize>, AllocError>
    requires all { length levels.now ≡ length edges.now }
    requires lead { LeadToVertices edges.now }
    ensures { IfOk result (λ digit_weights. digit_weights.items
        ≡ map (digit_weight_of edges.now levels.now) (numbers_from 0 (suc (greatest 0 levels.now)))) }
{
    let mut digit_weights = Vec::new(alloc);
    let mut digit_weight = 1;
    digit_weights.push(digit_weight)?;
    for level in 0..greatest_of(levels) {
        digit_weight = next_digit_weight(digit_weight, width(edges, levels, level));
        digit_weights.push(digit_weight)?;
    }
    Ok(digit_weights)
}

/// Returns the digit weight of the next level above one with the digit weight `digit_weight` and the width `width`.
fn next_digit_weight(digit_weight: usize, width: usize) -> usize
    ensures { result ≡ min (digit_weight * width) 65536 }
{
    digit_weight.saturating_mul(width).min(GREATEST_WEIGHT)
}

/// Returns the greatest number of `levels`, or 0 if `levels` is empty.
pub fn greatest_of(levels: &[usize]) -> usize
    ensures { result ≡ greatest 0 levels.now }
{
    let mut found = 0;
    for level in levels {
        found = (*level).max(found);
    }
    found
}

/// Returns the width of `level`: the most edges from a vertex of it to vertices of higher levels, but at least 1.
fn width(edges: &Adjacency, levels: &[usize], level: usize) -> usize
    requires all { length levels.now ≡ length edges.now }
    requires lead { LeadToVertices edges.now }
    ensures { result ≡ width_of edges.now levels.now level }
{
    let mut width = 1;
    for vertex in 0..edges.len() {
        if levels[vertex] == level {
            width = rises(edges.at(vertex), vertex, levels).max(width);
        }
    }
    width
}

/// Returns how many of `edges`, the edges of `vertex`, lead to vertices of a higher level than that of `vertex`.
fn rises(edges: &[Edge], vertex: usize, levels: &[usize]) -> usize
    requires vertex { vertex < length levels.now }
    requires lead { All (λ edge. edge.to < length levels.now) edges.now }
    ensures { result ≡ length (filter (is_rise levels.now vertex) edges.now) }
{
    edges
        .iter()
        .filter(|edge| levels[vertex] < levels[edge.to])
        .count()
}
