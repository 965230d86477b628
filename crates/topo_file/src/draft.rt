ghost use Rattle.std.specs.Prelude.{◌≡◌, [], Some};
ghost use Rattle.topo_file.specs.TopologyLine.{line_of};
ghost use Rattle.topo_file.specs.Reading.{with_line, node_of};
ghost use Rattle.topo_file.specs.TopoFault.{Reads};

use crate::node::Node;
use crate::nodes::Nodes;
use crate::topo_fault::TopoFault;
use crate::topology_line::{LinkLine, NodeLine, TopologyLine, read_line};
use fabric_model::NodeId;
use std::alloc::Global;
use std::marker::Model;

/// A link, as given by its line, with the number of this line and the id of the last node above it.
#[derive(Drop)]
pub(crate) struct LinkAt {
    pub(crate) line: usize,
    pub(crate) node: NodeId,
    pub(crate) link: LinkLine,
}

/// The nodes and the links of the lines so far.
#[derive(Drop)]
pub(crate) struct Draft {
    pub(crate) nodes: Nodes,
    pub(crate) links: Vec<LinkAt>,
}

impl Model for Draft {
    ghost use Rattle.topo_file.specs.Reading.{Lines};

    ghost Value = { Lines };

    ghost view = { λ a. record { nodes = a.nodes; links = a.links.items } };
}

impl Draft {
    /// Creates an empty draft.
    pub(crate) fn new(alloc: Global) -> Self
        ensures { result ≡ record { nodes = []; links = [] } }
    {
        Draft {
            nodes: Nodes::new(alloc),
            links: Vec::new(alloc),
        }
    }

    /// Adds the node or the link that `line`, of number `number`, gives. Fails with its fault, or with `Memory`.
    pub(crate) fn with(self, number: usize, line: &[u8]) -> Result<Self, TopoFault>
        ensures { Reads result (with_line number self (line_of line.now)) }
    {
        let Draft { nodes, links } = self;
        match read_line(line) {
            None => Err(TopoFault::Syntax { line: number }),
            Some(TopologyLine::Empty) => Ok(Draft { nodes, links }),
            Some(TopologyLine::Node(line)) => {
                let nodes = nodes.with(number, node(number, line)?)?;
                Ok(Draft { nodes, links })
            }
            Some(TopologyLine::Link(link)) => Draft { nodes, links }.with_link(number, link),
        }
    }

    /// Adds `link`, of the line `number`, to the last node. Fails with `Syntax` if there is none, or with `Memory`.
    fn with_link(self, number: usize, link: LinkLine) -> Result<Self, TopoFault>
        ensures { Reads result (with_line number self (Some (TopologyLine.Link link))) }
    {
        let Draft { nodes, mut links } = self;
        let count = nodes.len();
        if count == 0 {
            return Err(TopoFault::Syntax { line: number });
        }
        links.push(LinkAt {
            line: number,
            node: NodeId::new(count - 1),
            link,
        })?;
        Ok(Draft { nodes, links })
    }
}

/// Builds the node that `line` gives. Fails with `Ports`, or with `GuidRange` if an adapter's GUIDs do not fit.
pub(crate) fn node(number: usize, line: NodeLine) -> Result<Node, TopoFault>
    ensures { result ≡ node_of number line }
{
    let (Some(ports), Some(cap)) = (line.ports, line.cap) else {
        return Err(TopoFault::Ports { line: number });
    };
    let last = line.guid.number().checked_add(u64::from(ports));
    if !line.kind.is_switch() && last.is_none() {
        return Err(TopoFault::GuidRange { line: number });
    }
    Ok(Node {
        name: line.name,
        kind: line.kind,
        ports,
        guid: line.guid,
        cap,
    })
}
