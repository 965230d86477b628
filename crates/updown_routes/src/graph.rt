ghost use Rattle.std.specs.Prelude.{◌≡◌, ◌<◌, IfOk, length, map, slice_get};
ghost use Rattle.subnet_view.specs.Graph.{guids_of};
ghost use Rattle.subnet_view.specs.GraphLaws.{IsGraph};
ghost use Rattle.subnet_view.specs.Components.{root_of};
ghost use Rattle.subnet_view.specs.SwitchGraph.{AreEdgesAt, IsIndexIn, LeadBelow};
ghost use Rattle.updown_routes.specs.Ranks.{rank_of};

use crate::rank::ranks;
use port_graph::Edge;
use smp_bytes::Guid;
use std::alloc::{AllocError, Global};
use std::marker::Model;
use subnet_view::SwitchGraph;

/// The usable switches of a subnet, the wires between them, and their ranks.
#[derive(Drop)]
pub struct Graph<'g> {
    graph: &'g SwitchGraph,
    /// The rank of each switch, in ascending order of GUID. Each switch has one.
    ranks: Vec<Option<usize>>,
}

impl<'g> Model for Graph<'g> {
    ghost use Rattle.std.specs.Prelude.{List};
    ghost use Rattle.subnet_view.specs.SwitchEdges.{SwitchEdges};
    ghost use Rattle.updown_routes.specs.Ranks.{IsRanked};

    ghost Value = { List SwitchEdges };

    ghost view = { λ a. a.graph.now };

    ghost invariant = { λ a. IsRanked a.graph.now a.ranks.items };
}

impl<'g> Graph<'g> {
    /// Finds the ranks of the switches of `graph`. For each component, does a breadth-first search. Returns an error if
    /// memory runs out.
    pub fn of(alloc: Global, graph: &'g SwitchGraph) -> Result<Self, AllocError>
        ensures { IfOk result (λ ranked. ranked ≡ graph.now) }
    {
        let ranks = ranks(alloc, graph)?;
        Ok(Graph { graph, ranks })
    }

    /// Returns the number of switches. Takes constant time.
    pub fn len(&self) -> usize
        ensures count { result ≡ length self.now }
        ensures is_graph { IsGraph self.now }
    {
        self.graph.len()
    }

    /// Returns the switches, in ascending order of GUID.
    pub fn switches(&self) -> &[Guid]
        ensures { result.now ≡ guids_of self.now }
    {
        self.graph.switches()
    }

    /// Returns the switch at `index`, with the switches in ascending order of GUID, or `None` if `index` is past the
    /// end. Takes constant time.
    pub fn switch(&self, index: usize) -> Option<Guid>
        ensures { result ≡ slice_get (guids_of self.now) index }
    {
        self.graph.switch(index)
    }

    /// Returns the index of `switch`, or `None` if `switch` is not in the graph. Does a binary search among the
    /// switches.
    pub fn index_of(&self, switch: Guid) -> Option<usize>
        ensures { IsIndexIn (guids_of self.now) switch result }
    {
        self.graph.index_of(switch)
    }

    /// Returns the rank of `switch`: the length of a shortest walk from the root of its component to `switch`. Returns
    /// `None` if `switch` is not in the graph. Does a binary search among the switches.
    pub fn rank(&self, switch: Guid) -> Option<usize>
        ensures { result ≡ rank_of self.now switch }
    {
        let index = self.graph.index_of(switch)?;
        self.ranks[index]
    }

    /// Returns, for each switch in ascending order of GUID, the root of its component: the switch with the least GUID
    /// in the component. Each switch has a root. Does a breadth-first search for each component. Returns an error if
    /// memory runs out.
    pub fn roots(&self, alloc: Global) -> Result<Vec<Option<Guid>>, AllocError>
        ensures { IfOk result (λ roots. roots.items ≡ map (root_of self.now) (guids_of self.now)) }
    {
        self.graph.roots(alloc)
    }

    /// Returns the rank of each switch, in ascending order of the switches' GUIDs. Each switch has a rank.
    pub(crate) fn ranks(&self) -> &[Option<usize>]
        ensures ranks { result.now ≡ map (rank_of self.now) (guids_of self.now) }
        ensures is_graph { IsGraph self.now }
    {
        &self.ranks
    }

    /// Returns the edges of the switch at `index`. There must be a switch at `index`. The edges lead to indices of
    /// switches. Takes constant time.
    pub fn edges(&self, index: usize) -> &[Edge]
        requires { index < length self.now }
        ensures edges { AreEdgesAt self.now index result.now }
        ensures to_switches { LeadBelow (length self.now) result.now }
        ensures is_graph { IsGraph self.now }
    {
        self.graph.edges(index)
    }
}
