//! The targets towards which candidates lead up.
ghost use Rattle.std.specs.Prelude.{◌≡◌, IfOk, length};
ghost use Rattle.spread_labels.specs.Labels.{leads_up};
ghost use Rattle.spread_labels.specs.MarkSets.{AreRowsOf, picked};
ghost use Rattle.spread_labels.specs.TargetSet.{EachTarget, has};
ghost use Rattle.trial_loads.specs.TrialLoads.{AreUpward};

use port_graph::{Adjacency, Edge};
use spread_labels::{CandidateSets, TargetSet};
use std::alloc::{AllocError, Global};

/// Returns, for each position, the targets towards which any of its candidates leads up.
pub(crate) fn upward(
    alloc: Global,
    graph: &Adjacency,
    sets: &CandidateSets,
) -> Result<Vec<TargetSet>, AllocError>
    requires { AreRowsOf graph.now sets.now }
    ensures { IfOk result (λ ups. AreUpward graph.now sets.now ups.items) }
{
    let mut ups = Vec::with_capacity(alloc, graph.len())?;
    for position in 0..graph.len() {
        ups.push(upward_from(graph.at(position), sets.at(position), position))?;
    }
    Ok(ups)
}

/// Returns the targets towards which any of `edges`, by its set in `sets`, is a candidate up from `position`.
fn upward_from(edges: &[Edge], sets: &[TargetSet], position: usize) -> TargetSet
    requires { length sets.now ≡ length edges.now }
    ensures { EachTarget (λ k. has result k ≡ leads_up position (picked k sets.now edges.now)) }
{
    let mut ups = TargetSet::none();
    for (j, edge) in edges.iter().enumerate() {
        if edge.to < position {
            ups = ups.or(sets[j]);
        }
    }
    ups
}
