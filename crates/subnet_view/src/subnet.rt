ghost use Rattle.std.specs.Prelude.{◌≡◌, IfOk};
ghost use Rattle.fact_store.specs.View.{cells_of};
ghost use Rattle.subnet_view.specs.EndPort.{end_ports};
ghost use Rattle.subnet_view.specs.Graph.{graph_of};
ghost use Rattle.subnet_view.specs.Reading.{switches};

use crate::end_port::{EndPort, end_ports};
use crate::switch::switches;
use crate::switch_graph::SwitchGraph;
use crate::wire_table::Wires;
use fact_store::{Refused, Store};
use smp_bytes::Guid;
use std::alloc::{AllocError, Global};
use std::marker::Model;

/// A subnet, as a view of facts describes it: its wires, its usable switches and its end ports.
#[derive(Drop)]
pub struct Subnet<'s> {
    wires: Wires<'s>,
    /// The usable switches, in ascending order of GUID.
    switches: Vec<Guid>,
    /// The end ports, in ascending order of port GUID, then node GUID, then port.
    ports: Vec<EndPort>,
}

impl<'s> Model for Subnet<'s> {
    ghost use Rattle.fact_store.specs.Coded.{facts_code};
    ghost use Rattle.fact_store.specs.View.{Facts, cells_of};
    ghost use Rattle.subnet_view.specs.Subnet.{IsSubnet};

    ghost Value = { Facts };

    ghost coded = { facts_code };

    ghost view = { λ a. a.wires };

    ghost invariant = { λ a. IsSubnet (cells_of a.wires) a.switches.items a.ports.items };
}

impl<'s> Subnet<'s> {
    /// Returns the subnet that the view of `store` describes. Walks the cells as `Wires::of`, `switches` and
    /// `end_ports` do. Returns an error if memory runs out.
    pub fn of(alloc: Global, store: &'s Store) -> Result<Self, Refused>
        ensures { IfOk result (λ subnet. subnet ≡ store.now) }
    {
        let wires = Wires::of(alloc, store)?;
        let switches = switches(alloc, store)?;
        let ports = end_ports(alloc, store)?;
        Ok(Subnet {
            wires,
            switches,
            ports,
        })
    }

    /// Returns the store whose view describes the subnet.
    pub fn store(&self) -> &'s Store
        ensures { result.now ≡ self.now }
    {
        self.wires.store()
    }

    /// Returns the wires of the subnet.
    pub fn wires(&self) -> &Wires<'s>
        ensures { result.now ≡ self.now }
    {
        &self.wires
    }

    /// Returns the usable switches, in ascending order of GUID.
    pub fn switches(&self) -> &[Guid]
        ensures { result.now ≡ switches (cells_of self.now) }
    {
        &self.switches
    }

    /// Returns the end ports, in ascending order of port GUID, then node GUID, then port.
    pub fn end_ports(&self) -> &[EndPort]
        ensures { result.now ≡ end_ports (cells_of self.now) }
    {
        &self.ports
    }

    /// Returns the graph of the usable switches and the wires between them, as `SwitchGraph::of` does, but without a
    /// walk through the cells.
    pub fn graph(&self, alloc: Global) -> Result<SwitchGraph, AllocError>
        ensures { IfOk result (λ graph. graph ≡ graph_of (cells_of self.now)) }
    {
        let switches = Vec::from_slice(alloc, &self.switches)?;
        SwitchGraph::of_switches(alloc, &self.wires, switches)
    }
}
