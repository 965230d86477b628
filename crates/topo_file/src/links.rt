ghost use Rattle.std.specs.Prelude.{◌≡◌, [], ◌∷◌, ◌++◌};
ghost use Rattle.fabric_model.specs.Cables.{other_end};
ghost use Rattle.topo_file.specs.Reading.{with_link, with_links, link_of};
ghost use Rattle.topo_file.specs.TopoFault.{Reads};

use crate::draft::LinkAt;
use crate::nodes::Nodes;
use crate::topo_fault::TopoFault;
use fabric_model::{Cable, NodeId, NodePort};
use smp_bytes::PortNum;
use std::alloc::Global;
use std::collections::BTreeMap;
use std::marker::Model;

/// A list of links, at most one in each port.
#[derive(Drop)]
pub(crate) struct Links {
    links: Vec<Cable>,
    /// For each port with a link, the port at the link's other end.
    across: BTreeMap<(NodeId, PortNum), NodePort>,
}

impl Model for Links {
    ghost use Rattle.std.specs.Prelude.{List};
    ghost use Rattle.fabric_model.specs.declared.cable.Cable.{Cable as Told};
    ghost use Rattle.topo_file.specs.Indexes.{HasEnds};

    ghost Value = { List Told };

    ghost view = { λ a. a.links.items };

    ghost invariant = { λ a. HasEnds a.links.items a.across };
}

impl Links {
    /// Creates an empty list of links.
    fn new(alloc: Global) -> Self
        ensures { result ≡ [] }
    {
        Links {
            links: Vec::new(alloc),
            across: BTreeMap::new(alloc),
        }
    }

    /// Builds the links of `lines`, each once. Returns the first fault, or `Memory` if memory runs out.
    pub(crate) fn of(alloc: Global, nodes: &Nodes, lines: &[LinkAt]) -> Result<Self, TopoFault>
        ensures { Reads result (with_links nodes.now [] lines.now) }
    {
        let mut links = Links::new(alloc);
        for at in lines {
            links = links.with(at.line, link(nodes, at)?)?;
        }
        Ok(links)
    }

    /// Returns the links, in the order in which they were added.
    pub(crate) fn as_slice(&self) -> &[Cable]
        ensures { result.now ≡ self.now }
    {
        &self.links
    }

    /// Returns the port at the other end of the link in `port`, if any. Takes time logarithmic in the ports with links.
    fn other_end(&self, port: NodePort) -> Option<NodePort>
        ensures { result ≡ other_end self.now port }
    {
        self.across.get(&key(port)).copied()
    }

    /// Adds `link`, of the line `line`, unless it is there. Fails with `Linked` if a port is taken, or with `Memory`.
    fn with(self, line: usize, link: Cable) -> Result<Self, TopoFault>
        ensures { Reads result (with_link line self link) }
    {
        let beyond_one = self.other_end(link.one);
        let beyond_other = self.other_end(link.other);
        match (beyond_one, beyond_other) {
            (Some(end), _) if end == link.other => Ok(self),
            (None, None) => self.with_new(link),
            _ => Err(TopoFault::Linked { line }),
        }
    }

    /// Adds `link`. Neither port of `link` may have a link already. Returns `Memory` if memory runs out.
    fn with_new(self, link: Cable) -> Result<Self, TopoFault>
        requires one { other_end self link.one ≡ None }
        requires other { other_end self link.other ≡ None }
        ensures { Reads result (Ok (self ++ link ∷ [])) }
    {
        let Links {
            mut links,
            mut across,
        } = self;
        across.insert(key(link.one), link.other)?;
        across.insert(key(link.other), link.one)?;
        links.push(link)?;
        Ok(Links { links, across })
    }
}

/// Returns the key of `port` in the map `across` of `Links`.
fn key(port: NodePort) -> (NodeId, PortNum)
    ensures { result ≡ (port.node, port.port) }
{
    (port.node, port.port)
}

/// Builds the link of the line `at`. Fails with `Peer` if no node has that name, or with `Port` if a port is wrong.
fn link(nodes: &Nodes, at: &LinkAt) -> Result<Cable, TopoFault>
    ensures { Reads result (link_of nodes.now at.now) }
{
    let line = at.line;
    let Some(peer) = nodes.id(&at.link.peer) else {
        return Err(TopoFault::Peer { line });
    };
    let one = nodes.port(at.node, at.link.port);
    let other = nodes.port(peer, at.link.peer_port);
    match (one, other) {
        (Some(one), Some(other)) => Ok(Cable { one, other }),
        _ => Err(TopoFault::Port { line }),
    }
}
