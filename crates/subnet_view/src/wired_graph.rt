ghost use Rattle.std.specs.Prelude.{◌≡◌, IfOk};
ghost use Rattle.fact_store.specs.View.{cells_of};
ghost use Rattle.subnet_view.specs.Graph.{graph_of};
ghost use Rattle.subnet_view.specs.Reading.{switches};

use crate::subnet::Subnet;
use crate::switch_graph::SwitchGraph;
use crate::wire_table::Wires;
use fact_store::{Refused, Store};
use smp_bytes::Guid;
use std::alloc::Global;

/// The wires of a view, and the graph of its usable switches.
#[derive(Clone, Copy)]
pub struct WiredGraph<'a> {
    pub wires: &'a Wires<'a>,
    pub graph: &'a SwitchGraph,
    pub ghost is_graph: { graph.now ≡ graph_of (cells_of wires.now) },
}

impl<'a> WiredGraph<'a> {
    /// Returns the usable switches, in ascending order of GUID.
    pub fn switches(&self) -> &'a [Guid]
        ensures { result.now ≡ switches (cells_of self.now.wires.now) }
    {
        self.graph.switches()
    }
}

/// A subnet, and the graph of its usable switches.
#[derive(Drop)]
pub struct SubnetGraph<'s> {
    pub subnet: Subnet<'s>,
    pub graph: SwitchGraph,
    pub ghost is_graph: { graph ≡ graph_of (cells_of subnet) },
}

impl<'s> SubnetGraph<'s> {
    /// Returns the subnet that the view of `store` describes, and the graph of its usable switches. Returns an error if
    /// memory runs out.
    pub fn of(alloc: Global, store: &'s Store) -> Result<Self, Refused>
        ensures { IfOk result (λ found. found.subnet ≡ store.now) }
    {
        let subnet = Subnet::of(alloc, store)?;
        let graph = subnet.graph(alloc)?;
        Ok(SubnetGraph { subnet, graph })
    }

    /// Returns the wires of the subnet, with the graph.
    pub fn wired(&self) -> WiredGraph
        ensures { result.wires.now ≡ self.now.subnet }
    {
        WiredGraph {
            wires: self.subnet.wires(),
            graph: &self.graph,
        }
    }
}
