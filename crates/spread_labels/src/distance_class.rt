//! The distances of vertices from others, and their distance classes.
ghost use Rattle.std.specs.Prelude.{◌≡◌, ◌<◌, ◌≤◌, ◌*◌, ◌^◌, length, map, All, IfOk};
ghost use Rattle.port_graph.specs.Heads.{LeadToVertices};
ghost use Rattle.spread_labels.specs.DistanceClass.{AreDistanceSums, AreWithDistances, HasRoom};
ghost use Rattle.spread_labels.specs.DistanceClass.{IsDistanceSum, IsDistanceSumOf, distance_classes_of};
ghost use Rattle.spread_labels.specs.DistanceClass.{distance_class_at, distance_class_by, quarters_of};
ghost use Rattle.spread_labels.specs.DistanceClass.{with_distance};
ghost use Rattle.spread_labels.specs.Level.{levels_of};
ghost use Rattle.spread_labels.specs.Orders.{numbers_from};

use crate::level::near_or_0;
use port_graph::{Adjacency, distances};
use std::alloc::{AllocError, Global};

/// A summary of the distances of a vertex from some other vertices.
#[derive(Clone, Copy, Debug, PartialEq, Eq)]
pub(crate) struct DistanceSum {
    /// The least distance, or `None` if there is no distance.
    pub(crate) near: Option<usize>,
    /// The sum of the distances.
    pub(crate) sum: u128,
    /// The number of distances.
    pub(crate) count: usize,
}

/// The distance classes and levels of vertices.
#[derive(Drop)]
pub struct Grades {
    /// The distance class of each vertex. If the vertex's component has a root, the class is the distance from the
    /// nearest root. Otherwise it is four times the mean distance from the leaf vertices of the component, rounded
    /// down. It is 0 if the component has neither a root nor a leaf vertex.
    pub distance_classes: Vec<u128>,
    /// The level of each vertex: its distance from the nearest leaf vertex, or 0 if its component has no leaf vertex.
    pub levels: Vec<usize>,
}

/// Returns the distance classes and levels of all vertices, given the leaf vertices `leaves` and the roots `roots`.
/// Does a breadth-first search from each leaf vertex and each root. Each of `leaves` and `roots` must be a vertex,
/// and all edges must lead to vertices. Returns an error if memory runs out.
pub fn grade(
    alloc: Global,
    edges: &Adjacency,
    leaves: &[usize],
    roots: &[usize],
) -> Result<Grades, AllocError>
    requires lead { LeadToVertices edges.now }
    requires leaves { All (λ a. a < length edges.now) leaves.now }
    requires roots { All (λ a. a < length edges.now) roots.now }
    ensures distance_classes { IfOk result (λ grades. grades.distance_classes.items
        ≡ distance_classes_of edges.now leaves.now roots.now) }
    ensures levels { IfOk result (λ grades. grades.levels.items ≡ levels_of edges.now leaves.now) }
{
    let near_roots = distance_sums(alloc, edges, roots)?;
    let near_leaves = distance_sums(alloc, edges, leaves)?;
    let distance_classes = distance_classes(alloc, &near_roots, &near_leaves)?;
    let levels = near_or_0(alloc, &near_leaves)?;
    Ok(Grades {
        distance_classes,
        levels,
    })
}

/// Returns the distance class of each vertex by the summaries of its distances from the `roots` and from the `leaves`.
fn distance_classes(
    alloc: Global,
    roots: &[DistanceSum],
    leaves: &[DistanceSum],
) -> Result<Vec<u128>, AllocError>
    requires all { length leaves.now ≡ length roots.now }
    requires bounded { All IsDistanceSum leaves.now }
    ensures { IfOk result (λ distance_classes. distance_classes.items
        ≡ map (distance_class_at roots.now leaves.now) (numbers_from 0 (length roots.now))) }
{
    let mut distance_classes = Vec::with_capacity(alloc, roots.len())?;
    for vertex in 0..roots.len() {
        distance_classes.push(distance_class(roots[vertex], leaves[vertex]))?;
    }
    Ok(distance_classes)
}

/// Returns the distance class of a vertex by the summaries of its distances from the roots and from the leaf vertices.
fn distance_class(roots: DistanceSum, leaves: DistanceSum) -> u128
    requires { IsDistanceSum leaves }
    ensures { result ≡ distance_class_by roots leaves }
{
    match roots.near {
        Some(distance) => distance as u128,
        None => quarters(leaves.sum, leaves.count),
    }
}

/// Returns four times the mean of `count` numbers whose sum is `sum`, rounded down, or 0 if `count` is 0.
fn quarters(sum: u128, count: usize) -> u128
    requires { sum ≤ count * 2 ^ 64 }
    ensures { result ≡ quarters_of sum count }
{
    if count == 0 {
        return 0;
    }
    let count = count as u128;
    4 * (sum / count) + 4 * (sum % count) / count
}

/// Returns, for each vertex, the summary of its distances from the vertices `some`.
pub(crate) fn distance_sums(
    alloc: Global,
    edges: &Adjacency,
    some: &[usize],
) -> Result<Vec<DistanceSum>, AllocError>
    requires lead { LeadToVertices edges.now }
    requires some { All (λ a. a < length edges.now) some.now }
    ensures distance_sums { IfOk result (λ distance_sums. AreDistanceSums edges.now some.now distance_sums.items) }
    ensures bounded { IfOk result (λ distance_sums. All (IsDistanceSumOf (length some.now)) distance_sums.items) }
{
    let mut distance_sums = vec![in alloc; DistanceSum {
        near: None,
        sum: 0,
        count: 0
    }; edges.len()]?;
    for from in some {
        let distances = distances(alloc, edges, *from)?;
        add_distances(&mut distance_sums, &distances);
    }
    Ok(distance_sums)
}

/// Adds to each of `distance_sums` the distance at its index, if there is one.
fn add_distances(distance_sums: &mut [DistanceSum], distances: &[Option<usize>])
    requires all { length distance_sums.old ≡ length distances.now }
    requires room { All HasRoom distance_sums.old }
    ensures { AreWithDistances distance_sums.old distance_sums.new distances.now }
{
    for (i, distance_sum) in distance_sums.iter_mut().enumerate() {
        *distance_sum = with(*distance_sum, distances[i]);
    }
}

/// Returns `distance_sum` with `distance` added, or unchanged if `distance` is `None`.
fn with(distance_sum: DistanceSum, distance: Option<usize>) -> DistanceSum
    requires { HasRoom distance_sum }
    ensures { result ≡ with_distance distance_sum distance }
{
    match distance {
        None => distance_sum,
        Some(distance) => DistanceSum {
            near: Some(
                distance_sum
                    .near
                    .map_or(distance, |near| distance.min(near)),
            ),
            sum: distance_sum.sum + distance as u128,
            count: distance_sum.count + 1,
        },
    }
}
