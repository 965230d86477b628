ghost use Rattle.std.specs.Prelude.{◌≡◌, ◌<◌, IfOk, IfSome, length, map, option_map, slice_get};
ghost use Rattle.std.specs.List.Sorted.{IsStrictlyIncreasing};
ghost use Rattle.fact_store.specs.View.{cells_of};
ghost use Rattle.port_graph.specs.Heads.{LeadToVertices};
ghost use Rattle.subnet_view.specs.Components.{root_of};
ghost use Rattle.subnet_view.specs.Graph.{edge_at, edges_of, graph_of, guids_of};
ghost use Rattle.subnet_view.specs.GraphLaws.{IsGraph};
ghost use Rattle.subnet_view.specs.Reading.{switches};
ghost use Rattle.subnet_view.specs.SwitchGraph.{by_guid, distances_from, AreEdgesAt, AreEdgesByIndex};
ghost use Rattle.subnet_view.specs.SwitchGraph.{IsIndexIn, LeadBelow};

use crate::reading::port_count;
use crate::root::roots;
use crate::switch::switches;
use crate::wire_table::Wires;
use fact_store::Refused;
use port_graph::{Adjacency, Edge};
use smp_bytes::{Guid, PortNum};
use std::alloc::{AllocError, Global};
use std::marker::Model;

/// The usable switches and the wires between them, as a graph.
#[derive(Drop)]
pub struct SwitchGraph {
    /// The switches in ascending order of GUID. Each edge leads to the index of a switch in this list.
    guids: Vec<Guid>,
    /// The edges of each switch, in ascending order of port.
    edges: Adjacency,
}

impl Model for SwitchGraph {
    ghost use Rattle.std.specs.Prelude.{List};
    ghost use Rattle.subnet_view.specs.SwitchEdges.{SwitchEdges};
    ghost use Rattle.subnet_view.specs.SwitchGraph.{named, IsSwitchGraph};

    ghost Value = { List SwitchEdges };

    ghost view = { λ a. named a.guids.items a.edges };

    ghost invariant = { λ a. IsSwitchGraph a.guids.items a.edges };
}

impl SwitchGraph {
    /// Builds the graph of the view's usable switches and the wires between them. Walks the cells, with at most two
    /// binary searches among them for each switch. For each port of a switch, does at most two binary searches among
    /// the ports that can have a wire. For each wire, does a binary search among the switches. Returns an error if
    /// memory runs out.
    pub fn of(alloc: Global, wires: &Wires) -> Result<Self, Refused>
        ensures { IfOk result (λ graph. graph ≡ graph_of (cells_of wires.now)) }
    {
        let guids = switches(alloc, wires.store())?;
        Ok(SwitchGraph::of_switches(alloc, wires, guids)?)
    }

    /// Builds the graph of the switches `guids` and the wires between them, as `of` does. `guids` must be the usable
    /// switches, in ascending order of GUID.
    pub(crate) fn of_switches(
        alloc: Global,
        wires: &Wires,
        guids: Vec<Guid>,
    ) -> Result<Self, AllocError>
        requires { guids.items ≡ switches (cells_of wires.now) }
        ensures { IfOk result (λ graph. graph ≡ graph_of (cells_of wires.now)) }
    {
        let edges = edges(alloc, wires, &guids)?;
        Ok(SwitchGraph { guids, edges })
    }

    /// Returns the number of switches. Takes constant time.
    pub fn len(&self) -> usize
        ensures count { result ≡ length self.now }
        ensures is_graph { IsGraph self.now }
    {
        self.guids.len()
    }

    /// Returns the switches, in ascending order of GUID.
    pub fn switches(&self) -> &[Guid]
        ensures { result.now ≡ guids_of self.now }
    {
        &self.guids
    }

    /// Returns the switches, in ascending order of GUID, and frees the edges.
    pub fn into_switches(self) -> Vec<Guid>
        ensures { result.items ≡ guids_of self }
    {
        self.guids
    }

    /// Returns the switch at `index`, or `None` if the graph has no switch at this index. Takes constant time.
    pub fn switch(&self, index: usize) -> Option<Guid>
        ensures { result ≡ slice_get (guids_of self.now) index }
    {
        self.guids.get(index).copied()
    }

    /// Returns the index of `switch`, or `None` if `switch` is not in the graph. Does a binary search among the
    /// switches.
    pub fn index_of(&self, switch: Guid) -> Option<usize>
        ensures { IsIndexIn (guids_of self.now) switch result }
    {
        index_of(&self.guids, switch)
    }

    /// Returns the edges of the switch at `index`. There must be a switch at this index. The edges lead to indices of
    /// switches. Takes constant time.
    pub fn edges(&self, index: usize) -> &[Edge]
        requires { index < length self.now }
        ensures edges { AreEdgesAt self.now index result.now }
        ensures to_switches { LeadBelow (length self.now) result.now }
    {
        self.edges.at(index)
    }

    /// Returns the edges of each switch, in ascending order of the switches' GUIDs. The edges lead to indices of
    /// switches.
    pub fn adjacency(&self) -> &Adjacency
        ensures edges { AreEdgesByIndex self.now result.now }
        ensures is_graph { IsGraph self.now }
    {
        &self.edges
    }

    /// Returns for each switch, in ascending order of GUID, its distance from the switch at index `from`. There must
    /// be a switch at this index. The distance is `None` if no walk leads to the switch. Does a breadth-first search.
    /// Returns an error if memory runs out.
    pub fn distances(&self, alloc: Global, from: usize) -> Result<Vec<Option<usize>>, AllocError>
        requires { from < length self.now }
        ensures { IfOk result (λ found. found.items ≡ distances_from self.now from) }
    {
        port_graph::distances(alloc, &self.edges, from)
    }

    /// Returns for each switch, in ascending order of GUID, the root of its component, which is the least GUID in the
    /// component. Does a breadth-first search for each component. Returns an error if memory runs out.
    pub fn roots(&self, alloc: Global) -> Result<Vec<Option<Guid>>, AllocError>
        ensures { IfOk result (λ roots. roots.items ≡ map (root_of self.now) (guids_of self.now)) }
    {
        roots(alloc, self)
    }
}

/// Returns the edges of each switch.
fn edges(alloc: Global, wires: &Wires, guids: &[Guid]) -> Result<Adjacency, AllocError>
    requires { guids.now ≡ switches (cells_of wires.now) }
    ensures wires { IfOk result (λ edges.
        map (map (by_guid guids.now)) edges ≡ map (edges_of (cells_of wires.now)) guids.now) }
    ensures to_switches { IfOk result (λ edges. LeadToVertices edges) }
{
    let mut edges = Adjacency::new(alloc);
    for guid in guids {
        let found = edges_of(alloc, wires, guids, *guid)?;
        edges.push_vertex(&found)?;
    }
    Ok(edges)
}

/// Returns the edges of the switch `guid`, in ascending order of port.
fn edges_of(
    alloc: Global,
    wires: &Wires,
    guids: &[Guid],
    guid: Guid,
) -> Result<Vec<Edge>, AllocError>
    requires { guids.now ≡ switches (cells_of wires.now) }
    ensures wires { IfOk result (λ found.
        map (by_guid guids.now) found.items ≡ edges_of (cells_of wires.now) guid) }
    ensures to_switches { IfOk result (λ found. LeadBelow (length guids.now) found.items) }
{
    let mut found = Vec::new(alloc);
    for before in 0..port_count(wires.store(), guid) {
        if let Some(edge) = edge_at(wires, guids, guid, PortNum::new(before + 1)) {
            found.push(edge)?;
        }
    }
    Ok(found)
}

/// Returns the edge of the wire in `port` of `guid`, or `None` if no wire leads from `port` to a switch. Does at most
/// two binary searches among the ports that can have a wire, and one among the switches if a wire is in `port`.
fn edge_at(wires: &Wires, guids: &[Guid], guid: Guid, port: PortNum) -> Option<Edge>
    requires { guids.now ≡ switches (cells_of wires.now) }
    ensures wire { option_map (by_guid guids.now) result ≡ edge_at (cells_of wires.now) guid port }
    ensures to_switch { IfSome result (λ e. e.to < length guids.now) }
{
    let (far, _) = wires.across(guid, port)?;
    let to = index_of(guids, far)?;
    Some(Edge { port, to })
}

/// Returns the index of `guid` in `guids`, or `None` if it is not there. Does a binary search.
fn index_of(guids: &[Guid], guid: Guid) -> Option<usize>
    requires { IsStrictlyIncreasing guids.now }
    ensures { IsIndexIn guids.now guid result }
{
    guids.binary_search(&guid).ok()
}
