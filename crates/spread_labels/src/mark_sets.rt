//! Marks towards many targets at once, in rounds.
ghost use Rattle.std.specs.Prelude.{◌≡◌, ◌↔◌, ◌<◌, ◌≤◌, ◌&&◌, ◌||◌, length, map, nat_lt, All, IfOk, IsTrue};
ghost use Rattle.std.specs.List.{list_any};
ghost use Rattle.port_graph.specs.Heads.{LeadToVertices};
ghost use Rattle.spread_labels.specs.TargetSet.{EachTarget, has};
ghost use Rattle.spread_labels.specs.MarkSets.{AreAtTargets, AreNoted, AreRowsOf, AreSame, AreSetSteps};
ghost use Rattle.spread_labels.specs.MarkSets.{IsSetStep, giver_set};

use crate::target_set::TargetSet;
use port_graph::{Adjacency, Edge};
use std::alloc::{AllocError, Global};

/// For each vertex, the targets for which it has a mark, and the targets for which this mark is `Down`.
#[derive(Drop)]
pub(crate) struct MarkSets {
    marked: Vec<TargetSet>,
    downs: Vec<TargetSet>,
}

/// The sets of one vertex: the targets for which it has a mark, and the targets for which this mark is `Down`.
#[derive(Clone, Copy)]
struct VertexSets {
    marked: TargetSet,
    downs: TargetSet,
}

/// The targets for which any of a vertex's edges gives it a mark, and the targets for which an edge that leads up gives
/// it one.
#[derive(Clone, Copy)]
struct Givers {
    targets: TargetSet,
    ups: TargetSet,
}

/// Returns the targets for which `edge` gives `vertex` a mark, by the sets of the vertex that `edge` leads to.
fn giver_set(edge: &Edge, vertex: usize, marks: &MarkSets) -> TargetSet
    requires marked { edge.now.to < length marks.now.marked.items }
    requires downs { edge.now.to < length marks.now.downs.items }
    ensures { result ≡ giver_set vertex marks.now.marked.items marks.now.downs.items edge.now }
{
    if edge.to < vertex {
        marks.marked[edge.to]
    } else {
        marks.downs[edge.to]
    }
}

/// Returns the targets for which any of `edges` gives `vertex` a mark, and those for which an edge that leads up does.
fn given_by(edges: &[Edge], vertex: usize, marks: &MarkSets) -> Givers
    requires marked { All (λ edge. edge.to < length marks.now.marked.items) edges.now }
    requires downs { All (λ edge. edge.to < length marks.now.downs.items) edges.now }
    ensures targets { EachTarget (λ k. has result.targets k
        ≡ list_any (λ edge. has (giver_set vertex marks.now.marked.items marks.now.downs.items edge) k) edges.now) }
    ensures ups { EachTarget (λ k. has result.ups k
        ≡ list_any (λ edge. has (giver_set vertex marks.now.marked.items marks.now.downs.items edge) k
        && nat_lt edge.to vertex) edges.now) }
{
    let mut targets = TargetSet::none();
    let mut ups = TargetSet::none();
    for edge in edges {
        let givers = giver_set(edge, vertex, marks);
        targets = targets.or(givers);
        if edge.to < vertex {
            ups = ups.or(givers);
        }
    }
    Givers { targets, ups }
}

/// Adds to the set of each edge in `row` the targets of `new` for which the edge gives `vertex` a mark.
fn note(row: &mut [TargetSet], edges: &[Edge], vertex: usize, marks: &MarkSets, new: TargetSet)
    requires all { length row.old ≡ length edges.now }
    requires marked { All (λ edge. edge.to < length marks.now.marked.items) edges.now }
    requires downs { All (λ edge. edge.to < length marks.now.downs.items) edges.now }
    ensures { AreNoted vertex edges.now marks.now.marked.items marks.now.downs.items new row.old row.new }
{
    if new.is_empty() {
        return;
    }
    for (i, givers) in row.iter_mut().enumerate() {
        *givers = givers.or(giver_set(&edges[i], vertex, marks).and(new));
    }
}

/// Returns the sets of `vertex` after one more round. Adds to the set of each edge in `row` the targets for which the
/// edge gives a mark in this round.
fn set_step(edges: &[Edge], vertex: usize, marks: &MarkSets, row: &mut [TargetSet]) -> VertexSets
    requires row { length row.old ≡ length edges.now }
    requires in_marked { vertex < length marks.now.marked.items }
    requires in_downs { vertex < length marks.now.downs.items }
    requires marked { All (λ edge. edge.to < length marks.now.marked.items) edges.now }
    requires downs { All (λ edge. edge.to < length marks.now.downs.items) edges.now }
    ensures { IsSetStep vertex edges.now marks.now.marked.items marks.now.downs.items row.old
        result.marked result.downs row.new }
{
    let givers = given_by(edges, vertex, marks);
    let new = givers.targets.without(marks.marked[vertex]);
    note(row, edges, vertex, marks, new);
    VertexSets {
        marked: marks.marked[vertex].or(new),
        downs: marks.downs[vertex].or(new.without(givers.ups)),
    }
}

/// Returns the sets of all vertices after one more round. Adds to the set of each edge in `rows` the targets for which
/// the edge gives a mark in this round. Returns an error if memory runs out.
pub(crate) fn after_round(
    alloc: Global,
    edges: &Adjacency,
    marks: &MarkSets,
    rows: &mut [Vec<TargetSet>],
) -> Result<MarkSets, AllocError>
    requires lead { LeadToVertices edges.now }
    requires marked { length marks.now.marked.items ≡ length edges.now }
    requires downs { length marks.now.downs.items ≡ length edges.now }
    requires rows { AreRowsOf edges.now (map (λ row. row.items) rows.old) }
    ensures { IfOk result (λ next. AreSetSteps edges.now marks.now.marked.items marks.now.downs.items
        (map (λ row. row.items) rows.old) (length edges.now) next.marked.items next.downs.items
        (map (λ row. row.items) rows.new)) }
{
    let mut marked = Vec::with_capacity(alloc, edges.len())?;
    let mut downs = Vec::with_capacity(alloc, edges.len())?;
    for (vertex, row) in rows.iter_mut().enumerate() {
        let next = set_step(edges.at(vertex), vertex, marks, row);
        marked.push(next.marked)?;
        downs.push(next.downs)?;
    }
    Ok(MarkSets { marked, downs })
}

/// Returns the sets of `count` vertices before the first round: each target is marked `Down` for itself.
pub(crate) fn at_first(
    alloc: Global,
    count: usize,
    targets: &[usize],
) -> Result<MarkSets, AllocError>
    requires few { length targets.now ≤ 64 }
    requires vertices { All (λ target. target < count) targets.now }
    ensures marked { IfOk result (λ marks. AreAtTargets count targets.now (length targets.now) marks.marked.items) }
    ensures downs { IfOk result (λ marks. AreAtTargets count targets.now (length targets.now) marks.downs.items) }
{
    Ok(MarkSets {
        marked: at_targets(alloc, count, targets)?,
        downs: at_targets(alloc, count, targets)?,
    })
}

/// Returns, for each of `count` vertices, the indices at which `targets` has the vertex.
fn at_targets(alloc: Global, count: usize, targets: &[usize]) -> Result<Vec<TargetSet>, AllocError>
    requires few { length targets.now ≤ 64 }
    requires vertices { All (λ target. target < count) targets.now }
    ensures { IfOk result (λ sets. AreAtTargets count targets.now (length targets.now) sets.items) }
{
    let mut sets = vec![in alloc; TargetSet::none(); count]?;
    for (k, target) in targets.iter().enumerate() {
        sets[*target] = sets[*target].with(k);
    }
    Ok(sets)
}

/// Returns whether each vertex has marks for the same targets in `old` and in `new`.
pub(crate) fn are_same(old: &MarkSets, new: &MarkSets) -> bool
    requires { length old.now.marked.items ≡ length new.now.marked.items }
    ensures { IsTrue result ↔ AreSame old.now.marked.items new.now.marked.items (length old.now.marked.items) }
{
    for vertex in 0..old.marked.len() {
        if !old.marked[vertex].is_same(new.marked[vertex]) {
            return false;
        }
    }
    true
}
