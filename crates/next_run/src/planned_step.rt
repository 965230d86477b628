ghost use Rattle.std.specs.Prelude.{◌≡◌, length};
ghost use Rattle.std.proofs.Props.{props};
ghost use Rattle.fact_store.specs.Coded.{facts_code};
ghost use Rattle.fact_store.specs.View.{cells_of};
ghost use Rattle.subnet_view.specs.Graph.{graph_of};
ghost use Rattle.subnet_view.specs.Reading.{switches};

use packet_walks::Network;
use subnet_view::SwitchGraph;

/// The held tables and the plan's tables of a subnet, between which a step lies.
#[derive(Clone, Copy)]
pub(crate) struct PlannedStep<'a> {
    /// The graph of the usable switches.
    pub(crate) graph: &'a SwitchGraph,
    /// The position of each usable switch, in ascending order of GUID. It is meant to be that in the order that the
    /// plan goes by.
    pub(crate) positions: &'a [usize],
    /// The held tables.
    pub(crate) from: &'a Network<'a>,
    /// The tables of the plan.
    pub(crate) plan: &'a Network<'a>,
    ghost is_graph: { graph.now ≡ graph_of (cells_of from.now.facts) },
    ghost have_positions: { length positions.now ≡ length (switches (cells_of from.now.facts)) },
    ghost same_facts: { plan.now.facts ≡ from.now.facts } by { Prim.hlevel (props, facts_code) },
}
