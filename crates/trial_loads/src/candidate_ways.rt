ghost use Rattle.port_graph.specs.Heads.{LeadToVertices};
ghost use Rattle.spread_labels.specs.MarkSets.{AreRowsOf};
ghost use Rattle.trial_loads.specs.TrialLoads.{AreUpward};

use port_graph::Adjacency;
use spread_labels::{CandidateSets, TargetSet};

/// The candidates of each position of a graph towards up to 64 targets, and the targets towards which they go up.
#[derive(Clone, Copy)]
pub(crate) struct CandidateWays<'a> {
    pub(crate) graph: &'a Adjacency,
    pub(crate) sets: &'a CandidateSets,
    /// For each position, the targets towards which it has a candidate up.
    pub(crate) ups: &'a [TargetSet],
    ghost lead: { LeadToVertices graph.now },
    ghost rows: { AreRowsOf graph.now sets.now },
    ghost upward: { AreUpward graph.now sets.now ups.now },
}
