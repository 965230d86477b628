ghost use Rattle.std.specs.Prelude.{◌≡◌, ◌<◌, ◌≤◌, [], length, slice_get, option_copied};
ghost use Rattle.topo_file.specs.Topology.{id_of};
ghost use Rattle.topo_file.specs.Reading.{with_node, port_at};
ghost use Rattle.topo_file.specs.TopoFault.{Reads};

use crate::node::Node;
use crate::topo_fault::TopoFault;
use fabric_model::{NodeId, NodePort};
use smp_bytes::PortNum;
use std::alloc::Global;
use std::collections::BTreeMap;
use std::marker::Model;
use text_words::NodeName;

/// The maximum number of nodes of a topology.
pub(crate) const MAX_NODES: usize = 1024;

/// A list of nodes, whose ids are their indices, with different names.
#[derive(Drop)]
pub(crate) struct Nodes {
    nodes: Vec<Node>,
    /// The id of each node, by name.
    ids: BTreeMap<NodeName, NodeId>,
}

impl Model for Nodes {
    ghost use Rattle.std.specs.Prelude.{List};
    ghost use Rattle.topo_file.specs.declared.node.Node.{Node as Told};
    ghost use Rattle.topo_file.specs.Indexes.{HasIds};

    ghost Value = { List Told };

    ghost view = { λ a. a.nodes.items };

    ghost invariant = { λ a. HasIds a.nodes.items a.ids };
}

impl Nodes {
    /// Creates an empty list of nodes.
    pub(crate) fn new(alloc: Global) -> Self
        ensures { result ≡ [] }
    {
        Nodes {
            nodes: Vec::new(alloc),
            ids: BTreeMap::new(alloc),
        }
    }

    pub(crate) fn len(&self) -> usize
        ensures count { result ≡ length self.now }
        ensures few { result ≤ 1024 }
    {
        self.nodes.len()
    }

    /// Returns the node with the id `node`, or `None` if no node has this id. Takes constant time.
    pub(crate) fn get(&self, node: NodeId) -> Option<&Node>
        ensures { option_copied result ≡ slice_get self.now node }
    {
        self.nodes.get(node.number())
    }

    /// Returns the nodes, in ascending order of id.
    pub(crate) fn as_slice(&self) -> &[Node]
        ensures { result.now ≡ self.now }
    {
        &self.nodes
    }

    /// Returns the id of the node with the name `name`, if any. Takes time logarithmic in the number of nodes.
    pub(crate) fn id(&self, name: &NodeName) -> Option<NodeId>
        ensures { result ≡ id_of self.now name.now }
    {
        self.ids.get(name).copied()
    }

    /// Returns the port `port` of the node with the id `node`, or `None` if there is no such port. Takes constant time.
    pub(crate) fn port(&self, node: NodeId, port: Option<u8>) -> Option<NodePort>
        ensures { result ≡ port_at self.now node port }
    {
        let port = port?;
        if port > self.get(node)?.ports {
            return None;
        }
        Some(NodePort {
            node,
            port: PortNum::new(port),
        })
    }

    /// Appends `node`, of the line `line`. Fails with `Name` if its name is taken, `TooManyNodes`, or `Memory`.
    pub(crate) fn with(self, line: usize, node: Node) -> Result<Self, TopoFault>
        ensures { Reads result (with_node line self node) }
    {
        if self.id(&node.name).is_some() {
            return Err(TopoFault::Name { line });
        }
        let id = self.len();
        if id >= MAX_NODES {
            return Err(TopoFault::TooManyNodes { line });
        }
        let Nodes { mut nodes, mut ids } = self;
        let name = node.name.copied();
        ids.insert(name, NodeId::new(id))?;
        nodes.push(node)?;
        Ok(Nodes { nodes, ids })
    }
}
