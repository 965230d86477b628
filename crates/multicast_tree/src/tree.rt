//! The ports of each switch in the tree of an order.
ghost use Rattle.std.specs.Prelude.{◌≡◌, IfOk, length};
ghost use Rattle.std.specs.List.Sorted.{IsStrictlyIncreasing};
ghost use Rattle.fact_store.specs.View.{cells_of};
ghost use Rattle.subnet_view.specs.Reading.{switches};
ghost use Rattle.lft_blocks.specs.Rule.{value_of};
ghost use Rattle.multicast_tree.specs.Tree.{is_below, is_given, is_tree_port, parent_in, tree_by};
ghost use Rattle.multicast_tree.specs.Tree.{tree_in, tree_of, tree_ports};

use crate::parents::parent_ports;
use lft_blocks::Rule;
use plan_order::plan_positions;
use smp_bytes::{Guid, PortNum};
use std::alloc::{AllocError, Global};
use std::marker::Model;
use subnet_view::{WiredGraph, Wires, is_usable, port_count};

/// The ports of a switch that are in the tree, in ascending order.
#[derive(Drop)]
pub struct SwitchPorts {
    guid: Guid,
    ports: Vec<PortNum>,
}

impl Model for SwitchPorts {
    ghost use Rattle.multicast_tree.specs.Tree.{TreePorts};

    ghost Value = { TreePorts };

    ghost view = { λ a. record { guid = a.guid; ports = a.ports.items } };
}

impl SwitchPorts {
    /// Returns the GUID of the switch.
    pub fn guid(&self) -> Guid
        ensures { result ≡ self.now.guid }
    {
        self.guid
    }

    /// Returns the ports of the switch that are in the tree, in ascending order.
    pub fn ports(&self) -> &[PortNum]
        ensures { result.now ≡ self.now.ports }
    {
        &self.ports
    }
}

/// Returns the ports in the tree of each usable switch, in ascending order of GUID, for the order that `rule` plans by.
/// Finds the order as `plan_positions` does, and the ports as `tree_in` does. Returns an error if memory runs out.
pub fn plan_tree(
    alloc: Global,
    wired: &WiredGraph,
    rule: &Rule,
) -> Result<Vec<SwitchPorts>, AllocError>
    ensures { IfOk result (λ tree. tree.items ≡ tree_of (value_of rule.now) (cells_of wired.now.wires.now)) }
{
    let positions = plan_positions(alloc, wired, rule)?;
    tree_in(alloc, wired, &positions)
}

/// Returns the ports in the tree of each usable switch, in ascending order of GUID, for the order in which the switches
/// have `positions`, which are in ascending order of GUID too. Walks the edges once. For each port of a switch, does at
/// most two binary searches among the ports that can have a wire, one among the cells, and two among the switches.
/// Returns an error if memory runs out.
pub fn tree_in(
    alloc: Global,
    wired: &WiredGraph,
    positions: &[usize],
) -> Result<Vec<SwitchPorts>, AllocError>
    requires { length positions.now ≡ length wired.now.graph.now }
    ensures { IfOk result (λ tree. tree.items ≡ tree_in (cells_of wired.now.wires.now) positions.now) }
{
    let parents = parent_ports(alloc, wired.graph, positions)?;
    tree_by(alloc, wired.wires, wired.switches(), &parents)
}

/// Returns the ports in the tree of each switch of `guids`, given the port of each to its parent. `guids` must be the
/// usable switches, in ascending order of GUID.
fn tree_by(
    alloc: Global,
    wires: &Wires,
    guids: &[Guid],
    parents: &[Option<PortNum>],
) -> Result<Vec<SwitchPorts>, AllocError>
    requires usable { guids.now ≡ switches (cells_of wires.now) }
    requires all { length parents.now ≡ length guids.now }
    ensures { IfOk result (λ tree.
        tree.items ≡ tree_by (cells_of wires.now) (parent_in guids.now parents.now)) }
{
    let mut tree = Vec::new(alloc);
    for guid in guids {
        let ports = tree_ports(alloc, wires, guids, parents, *guid)?;
        tree.push(SwitchPorts { guid: *guid, ports })?;
    }
    Ok(tree)
}

/// Returns the ports of the switch `guid` that are in the tree, in ascending order.
fn tree_ports(
    alloc: Global,
    wires: &Wires,
    guids: &[Guid],
    parents: &[Option<PortNum>],
    guid: Guid,
) -> Result<Vec<PortNum>, AllocError>
    requires rising { IsStrictlyIncreasing guids.now }
    requires all { length parents.now ≡ length guids.now }
    ensures { IfOk result (λ ports.
        ports.items ≡ tree_ports (cells_of wires.now) (parent_in guids.now parents.now) guid) }
{
    let mut ports = Vec::new(alloc);
    for before in 0..port_count(wires.store(), guid) {
        let port = PortNum::new(before + 1);
        if is_tree_port(wires, guids, parents, guid, port) {
            ports.push(port)?;
        }
    }
    Ok(ports)
}

/// Returns whether `port` of the switch `guid` is in the tree.
fn is_tree_port(
    wires: &Wires,
    guids: &[Guid],
    parents: &[Option<PortNum>],
    guid: Guid,
    port: PortNum,
) -> bool
    requires rising { IsStrictlyIncreasing guids.now }
    requires all { length parents.now ≡ length guids.now }
    ensures { result ≡ is_tree_port (cells_of wires.now) (parent_in guids.now parents.now) guid port }
{
    is_given(parent_of(guids, parents, guid), port)
        || is_below(wires, guids, parents, wires.across(guid, port))
}

/// Returns whether `far`, the far end of a wire from a switch, is the port of a switch to its parent, or a port of an
/// adapter.
fn is_below(
    wires: &Wires,
    guids: &[Guid],
    parents: &[Option<PortNum>],
    far: Option<(Guid, PortNum)>,
) -> bool
    requires rising { IsStrictlyIncreasing guids.now }
    requires all { length parents.now ≡ length guids.now }
    ensures { result ≡ is_below (cells_of wires.now) (parent_in guids.now parents.now) far }
{
    match far {
        Some((node, port)) => {
            !is_usable(wires.store(), node) || is_given(parent_of(guids, parents, node), port)
        }
        None => false,
    }
}

/// Returns the port of the switch `guid` to its parent, or `None` if it has no parent or is not one of `guids`. Does
/// a binary search.
fn parent_of(guids: &[Guid], parents: &[Option<PortNum>], guid: Guid) -> Option<PortNum>
    requires rising { IsStrictlyIncreasing guids.now }
    requires all { length parents.now ≡ length guids.now }
    ensures { result ≡ parent_in guids.now parents.now guid }
{
    match guids.binary_search(&guid) {
        Ok(index) => parents[index],
        Err(_) => None,
    }
}

/// Returns whether the port that may be given is `port`.
fn is_given(given: Option<PortNum>, port: PortNum) -> bool
    ensures { result ≡ is_given given port }
{
    match given {
        Some(other) => other == port,
        None => false,
    }
}
