//! The candidates of vertices, for many targets at once.
ghost use Rattle.std.specs.Prelude.{◌≡◌, ◌<◌, ◌≤◌, [], length, map, All, IfOk, slice_index_or};
ghost use Rattle.port_graph.specs.Heads.{LeadToVertices};
ghost use Rattle.spread_labels.specs.MarkSets.{AreCandidateSets, no_sets};

use crate::mark_sets::{after_round, are_same, at_first};
use crate::target_set::TargetSet;
use port_graph::Adjacency;
use std::alloc::{AllocError, Global};
use std::marker::Model;

/// For each edge of each vertex, the targets towards which the edge is a candidate: it gave the vertex its mark.
#[derive(Drop)]
pub struct CandidateSets {
    rows: Vec<Vec<TargetSet>>,
}

impl Model for CandidateSets {
    ghost use Rattle.std.specs.Prelude.{List, map};
    ghost use Rattle.spread_labels.specs.declared.target_set.TargetSet.{TargetSet as Targets};

    ghost Value = { List (List Targets) };

    ghost view = { λ a. map (λ row. row.items) a.rows.items };
}

impl CandidateSets {
    /// Finds, for each edge, the indices in `targets` of the targets towards which the edge is a candidate. `targets`
    /// must have at most 64 vertices. Each round takes time linear in the number of vertices and edges, for all
    /// targets together. There is one more round than the greatest cost. All edges must lead to vertices, and each of
    /// `targets` must be a vertex. Returns an error if memory runs out.
    pub fn towards(alloc: Global, edges: &Adjacency, targets: &[usize]) -> Result<Self, AllocError>
        requires lead { LeadToVertices edges.now }
        requires few { length targets.now ≤ 64 }
        requires vertices { All (λ target. target < length edges.now) targets.now }
        ensures { IfOk result (λ sets. AreCandidateSets edges.now targets.now sets) }
    {
        let rows = rows_towards(alloc, edges, targets)?;
        Ok(CandidateSets { rows })
    }

    /// Returns the sets of the edges of `vertex`, in the order of the edges. There must be such a vertex.
    pub fn at(&self, vertex: usize) -> &[TargetSet]
        requires { vertex < length self.now }
        ensures { result.now ≡ slice_index_or self.now vertex [] }
    {
        &self.rows[vertex]
    }
}

/// Returns, for each edge of each vertex, the indices in `targets` of those towards which the edge is a candidate.
fn rows_towards(
    alloc: Global,
    edges: &Adjacency,
    targets: &[usize],
) -> Result<Vec<Vec<TargetSet>>, AllocError>
    requires lead { LeadToVertices edges.now }
    requires few { length targets.now ≤ 64 }
    requires vertices { All (λ target. target < length edges.now) targets.now }
    ensures { IfOk result (λ rows. AreCandidateSets edges.now targets.now (map (λ row. row.items) rows.items)) }
{
    let mut marks = at_first(alloc, edges.len(), targets)?;
    let mut rows = no_rows(alloc, edges)?;
    for round in 0..edges.len() {
        let next = after_round(alloc, edges, &marks, &mut rows)?;
        let is_last = are_same(&marks, &next);
        marks = next;
        if is_last {
            break;
        }
    }
    Ok(rows)
}

/// Returns a row for each vertex, with an empty set for each of its edges.
fn no_rows(alloc: Global, edges: &Adjacency) -> Result<Vec<Vec<TargetSet>>, AllocError>
    ensures { IfOk result (λ rows. map (λ row. row.items) rows.items ≡ map no_sets edges.now) }
{
    let mut rows = Vec::with_capacity(alloc, edges.len())?;
    for vertex in 0..edges.len() {
        rows.push(vec![in alloc; TargetSet::none(); edges.at(vertex).len()]?)?;
    }
    Ok(rows)
}
