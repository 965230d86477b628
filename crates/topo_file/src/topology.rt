ghost use Rattle.std.specs.Prelude.{◌≡◌, ◌↔◌, Err, None, length, slice_get, IsTrue, IfOk, IfSome, option_copied};
ghost use Rattle.text_words.specs.Text.{lines};
ghost use Rattle.topo_file.specs.Topology.{has_switch, id_of, IsFound, IsNode, IsTopology, GuidsDiffer};
ghost use Rattle.topo_file.specs.Reading.{topology_of, topology_in, nodes_of_lines};
ghost use Rattle.topo_file.specs.ReadingLaws.{IsDraft};
ghost use Rattle.topo_file.specs.FirstFault.{first_line_fault};
ghost use Rattle.topo_file.specs.TopoFault.{Reads};

use crate::draft::Draft;
use crate::first_fault::first_line_fault;
use crate::links::Links;
use crate::node::Node;
use crate::nodes::Nodes;
use crate::topo_fault::TopoFault;
use fabric_model::{Cable, NodeId};
use smp_bytes::Guid;
use std::alloc::{AllocError, Global};
use std::collections::BTreeSet;
use std::marker::Model;
use text_words::{NodeName, split_line};

/// The nodes of a simulated fabric, and the links between their ports.
#[derive(Drop)]
pub struct Topology {
    nodes: Nodes,
    links: Links,
    guids_distinct: bool,
}

impl Model for Topology {
    ghost use Rattle.std.specs.Prelude.{◌↔◌, IsTrue};
    ghost use Rattle.topo_file.specs.Topology.{Layout, IsTopology, GuidsDiffer};

    ghost Value = { Layout };

    ghost view = { λ a. record { nodes = a.nodes; links = a.links } };

    ghost invariant = { λ a. IsTopology (record { nodes = a.nodes; links = a.links })
        × (IsTrue a.guids_distinct ↔ GuidsDiffer a.nodes) };
}

impl Topology {
    /// Returns the number of nodes, at most 1,024.
    pub fn count(&self) -> usize
        ensures count { result ≡ length self.now.nodes }
        ensures is_topology { IsTopology self.now }
    {
        self.nodes.len()
    }

    /// Returns the node with the id `node`, or `None` if no node has this id. Ids count from 0, in the order of the
    /// nodes' lines. Takes constant time.
    pub fn node(&self, node: NodeId) -> Option<&Node>
        ensures node { option_copied result ≡ slice_get self.now.nodes node }
        ensures is_node { IfSome result (λ node. IsNode node.now) }
    {
        self.nodes.get(node)
    }

    /// Returns the links, each once, in the order of their first lines.
    pub fn links(&self) -> &[Cable]
        ensures { result.now ≡ self.now.links }
    {
        self.links.as_slice()
    }

    /// Returns the id of the node with the name `name`, or `None` if no node has this name. Takes time logarithmic in
    /// the number of nodes.
    pub fn find(&self, name: &str) -> Option<NodeId>
        ensures id { result ≡ id_of self.now.nodes name.now }
        ensures found { IsFound self.now.nodes name.now result }
    {
        self.nodes.id(&NodeName::new(name.as_bytes())?)
    }

    /// Returns whether some node is a switch with the GUID `guid`. Takes time linear in the number of nodes.
    pub fn has_switch(&self, guid: Guid) -> bool
        ensures { result ≡ has_switch self.now.nodes guid }
    {
        self.nodes
            .as_slice()
            .iter()
            .any(|node| node.kind.is_switch() && node.guid == guid)
    }

    /// Returns whether no two nodes have the same GUID. Takes constant time.
    pub fn guids_distinct(&self) -> bool
        ensures { IsTrue result ↔ GuidsDiffer self.now.nodes }
    {
        self.guids_distinct
    }
}

/// Parses the text of a topology. A line ends with LF or CR LF, and the last one may end with the text. A line is
/// empty, or is a node, or is a link of the last node above the line. `#` outside quotes begins a comment:
///
/// ```text
/// Switch 4 "S1" guid 0x10 cap 1024
/// [1] "H1"[1]
/// Hca 1 "H1" guid 0x100
/// ```
///
/// The line of a node has a port count, a name and a GUID. That of a switch may also have the size of its forwarding
/// table. The line of a link has a port of its node, and the name and the port of the peer.
///
/// # Errors
///
/// Returns the first fault of a line. If no line has a fault, returns the first fault of a link (`Peer`, `Port`,
/// `Linked`). If memory runs out, checks the lines again without memory from the allocator, and returns `Memory` if
/// no line has a fault. A link may still have one.
pub fn parse(alloc: Global, text: &str) -> Result<Topology, TopoFault>
    ensures reads { Reads result (topology_of text.now) }
    ensures memory { result ≡ Err TopoFault.Memory → first_line_fault text.now ≡ None }
{
    match read_lines(alloc, text.as_bytes()) {
        Ok(draft) => finish(alloc, draft),
        Err(fault) if fault != TopoFault::Memory => Err(fault),
        Err(_) => match first_line_fault(text.as_bytes()) {
            Some(fault) => Err(fault),
            None => Err(TopoFault::Memory),
        },
    }
}

/// Parses the lines of `text` into nodes and links. Fails with the first fault of a line, or with `Memory`.
fn read_lines(alloc: Global, text: &[u8]) -> Result<Draft, TopoFault>
    ensures { Reads result (nodes_of_lines (lines text.now)) }
{
    let mut draft = Draft::new(alloc);
    let mut number = 0;
    let mut rest = text;
    while let Some((line, later)) = split_line(rest) {
        number += 1;
        draft = draft.with(number, line)?;
        rest = later;
    }
    Ok(draft)
}

/// Builds the topology of `draft`. Fails with the first fault of a link, or with `Memory`.
fn finish(alloc: Global, draft: Draft) -> Result<Topology, TopoFault>
    requires { IsDraft draft }
    ensures { Reads result (topology_in draft) }
{
    let Draft {
        nodes,
        links: lines,
    } = draft;
    let links = Links::of(alloc, &nodes, &lines)?;
    let guids_distinct = guids_distinct(alloc, nodes.as_slice())?;
    Ok(Topology {
        nodes,
        links,
        guids_distinct,
    })
}

/// Returns whether no two of `nodes` have the same GUID. Returns an error if memory runs out.
fn guids_distinct(alloc: Global, nodes: &[Node]) -> Result<bool, AllocError>
    ensures { IfOk result (λ distinct. IsTrue distinct ↔ GuidsDiffer nodes.now) }
{
    let mut seen = BTreeSet::new(alloc);
    for node in nodes {
        if !seen.insert(node.guid)? {
            return Ok(false);
        }
    }
    Ok(true)
}
