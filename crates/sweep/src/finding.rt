ghost use Rattle.std.specs.Prelude.{◌≡◌, ◌≤◌, ℕ, List, length};
ghost use Rattle.sweep.specs.Finding.{asks_manager, finding, goes_by, is_of_adapter, leads_on};
ghost use Rattle.attr_codec.specs.PortInfo.{has_manager};
ghost use Rattle.sweep.specs.Finding.{node_found, onward, port_found_of};
ghost use Rattle.sweep.specs.Questions.{port_found_questions, questions};
ghost use Rattle.sweep.specs.Finding.{vertex_of};
ghost use Rattle.sweep.specs.Questions.{vertex_questions};

use crate::question::Question;
use crate::request::Request;
use crate::sweep::Sweep;
use crate::vertex::Vertex;
use attr_codec::{Attribute, NodeInfo, PortInfo, PortState};
use fact_store::{Context, is_up};
use smp_bytes::{Guid, NodeType, Path, PortNum, Smp};

/// What a reply adds to a sweep.
#[derive(Debug, Drop)]
pub(crate) enum Finding {
    /// Nothing new.
    Nothing,
    /// A new node, or another port of an adapter.
    NewVertex(Vertex),
    /// The state of a port, and what the sweep asks next because of it.
    Port(PortFinding),
}

/// The state of a port, and what a sweep asks next because of it.
#[derive(Debug, Drop)]
pub(crate) struct PortFinding {
    pub(crate) guid: Guid,
    pub(crate) port: PortNum,
    /// The state, or `None` if its number is reserved.
    pub(crate) state: Option<PortState>,
    /// Whether to ask for SMInfo of the manager that sits at the port.
    pub(crate) asks_manager: bool,
    pub(crate) onward: Onward,
}

/// Whether a sweep goes on through a port.
#[derive(Clone, Copy, Debug, PartialEq, Eq)]
pub(crate) enum Onward {
    /// The port is not up, or is not one through which the sweep goes on.
    Stays,
    /// The sweep asks the node at the far end of the port's wire.
    Leads,
    /// The sweep would ask the node at the far end, but the path to the port already has 63 hops.
    TooFar,
}

impl Finding {
    /// Returns the number of requests that follow from the finding.
    pub(crate) fn question_count(&self) -> u64
        ensures count { (path : List ℕ) → result ≡ length (questions path self.now) }
        ensures within { result ≤ 257 }
    {
        match self {
            Finding::NewVertex(vertex) => vertex.question_count(),
            Finding::Port(found) => found.question_count(),
            Finding::Nothing => 0,
        }
    }
}

impl PortFinding {
    /// Returns the number of requests that follow from the reply about the port, at most 257.
    fn question_count(&self) -> u64
        ensures count { (path : List ℕ) → result ≡ length (port_found_questions path self.now) }
        ensures within { result ≤ 257 }
    {
        let across = match self.onward {
            Onward::Leads => 1,
            Onward::Stays | Onward::TooFar => 0,
        };
        u64::from(self.asks_manager) + across
    }
}

impl Vertex {
    /// Returns the number of requests that follow from a new vertex.
    fn question_count(&self) -> u64
        ensures count { result ≡ length (vertex_questions self.now) }
        ensures within { result ≤ 257 }
    {
        if self.is_switch() {
            u64::from(self.ports) + 2
        } else {
            1
        }
    }
}

impl Sweep {
    /// Returns what `smp`, a reply to `request`, adds to the sweep.
    pub(crate) fn finding(&self, request: &Request, smp: &Smp) -> Finding
        ensures { result ≡ finding self.now request.now smp.now }
    {
        let data = smp.attribute_data();
        match request.question {
            Question::Node => self.node_found(&request.path, &NodeInfo::decode(&data)),
            Question::Switch | Question::Manager(..) => Finding::Nothing,
            Question::Port(port) => match request.context {
                Context::About(guid) => self.port_found(
                    &request.path,
                    guid,
                    port,
                    &PortInfo::decode(&data),
                ),
                Context::Start | Context::Via(..) => Finding::Nothing,
            },
        }
    }

    /// Returns what the NodeInfo `info`, read along `path`, adds: a new node, another port of an adapter, or nothing.
    fn node_found(&self, path: &Path<63>, info: &NodeInfo) -> Finding
        ensures { result ≡ node_found self.now path.now info.now }
    {
        let Some(first) = self.found.first_of(info.node_guid) else {
            return match info.node_type.node_type() {
                Some(kind) => Finding::NewVertex(vertex_of(path, info, kind, info.num_ports)),
                None => Finding::Nothing,
            };
        };
        let is_known = first.is_switch()
            || self
                .found
                .vertex(info.node_guid, info.local_port_num)
                .is_some();
        if is_known {
            return Finding::Nothing;
        }
        Finding::NewVertex(vertex_of(path, info, first.kind, first.ports))
    }

    /// Returns what the PortInfo `info` adds: the state, whether to ask its manager, and whether to go on.
    fn port_found(&self, path: &Path<63>, guid: Guid, port: PortNum, info: &PortInfo) -> Finding
        ensures { result ≡ port_found_of self.now path.now guid port info.now }
    {
        Finding::Port(PortFinding {
            guid,
            port,
            state: info.port_state(),
            asks_manager: self.asks_manager(path, guid, info),
            onward: self.onward(path, guid, port, info),
        })
    }

    /// Returns whether to ask the manager at a port: `info` reports one, `guid` is an adapter, and `path` is not empty.
    fn asks_manager(&self, path: &Path<63>, guid: Guid, info: &PortInfo) -> bool
        ensures { result ≡ asks_manager self.now path.now guid info.now }
    {
        has_manager(info) && !path.is_empty() && self.is_of_adapter(guid)
    }

    /// Returns whether the node `guid` was reached, and is not a switch by its first reply.
    fn is_of_adapter(&self, guid: Guid) -> bool
        ensures { result ≡ is_of_adapter self.now guid }
    {
        match self.found.first_of(guid) {
            Some(first) => !first.is_switch(),
            None => false,
        }
    }

    fn onward(&self, path: &Path<63>, guid: Guid, port: PortNum, info: &PortInfo) -> Onward
        ensures { result ≡ onward self.now path.now guid port info.now }
    {
        if !self.leads_on(path, guid, port, info) {
            Onward::Stays
        } else if path.len() < 63 {
            Onward::Leads
        } else {
            Onward::TooFar
        }
    }

    /// Returns whether `info` says that `port` is up, and `port` is one through which the sweep goes on (`goes_by`).
    fn leads_on(&self, path: &Path<63>, guid: Guid, port: PortNum, info: &PortInfo) -> bool
        ensures { result ≡ leads_on self.now path.now guid port info.now }
    {
        is_up(info) && self.goes_by(path, guid, port)
    }

    /// Returns whether the sweep goes on through `port` if it is up: from the manager's own node by its port, or from a
    /// switch by any port but 0 and that at which a request first reached the node.
    fn goes_by(&self, path: &Path<63>, guid: Guid, port: PortNum) -> bool
        ensures { result ≡ goes_by self.now path.now guid port }
    {
        if path.is_empty() && port == self.origin {
            return true;
        }
        match self.found.first_of(guid) {
            Some(first) => { first.is_switch() && port.number() != 0 && port != first.arrival }
            None => false,
        }
    }
}

/// Returns whether `info` reports that a manager sits at the port.
fn has_manager(info: &PortInfo) -> bool
    ensures { result ≡ has_manager info.now }
{
    info.is_sm()
}

/// Returns the vertex of a node that answered: at port 0 for a switch, and for an adapter where the request arrived.
fn vertex_of(path: &Path<63>, info: &NodeInfo, kind: NodeType, ports: u8) -> Vertex
    ensures { result ≡ vertex_of path.now info.now kind ports }
{
    let port = match kind {
        NodeType::Switch => PortNum::MANAGEMENT,
        NodeType::ChannelAdapter | NodeType::Router => info.local_port_num,
    };
    Vertex {
        guid: info.node_guid,
        port,
        kind,
        ports,
        arrival: info.local_port_num,
        path: path.copy(),
    }
}
