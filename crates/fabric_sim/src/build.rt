ghost use Rattle.std.specs.Prelude.{◌≡◌, ◌≤◌, ◌-◌, ◌++◌, length, replicate, IfOk};
ghost use Rattle.node_agents.specs.Agent.{IsAgentNode};
ghost use Rattle.topo_file.specs.Topology.{IsTopology, IsNode};
ghost use Rattle.fabric_model.specs.Cables.{other_end};
ghost use Rattle.fabric_model.specs.declared.cable.NodePort.{NodePort};
ghost use Rattle.fabric_sim.specs.Simulation.{across};
ghost use Rattle.fabric_sim.specs.Build.{agent_node, uncabled, simulation_of};

use crate::fabric::Fabric;
use crate::peers::Peers;
use crate::traps::Traps;
use attr_codec::{Attribute, NodeDescription};
use fabric_model::NodeId;
use node_agents::{Agent, AgentNode};
use std::alloc::{AllocError, Global};
use std::collections::VecDeque;
use topo_file::{Node, Topology};

impl Fabric {
    /// Builds the fabric of `topology`, with an agent for each node and a cable for each link. Nothing has been
    /// written to the agents, no packet is in flight, serial numbers count from `first_serial`, and switches send no
    /// traps. Returns an error if memory runs out. Takes time linear in the number of ports and table entries of all
    /// nodes, and in the number of links.
    pub fn of(alloc: Global, topology: &Topology, first_serial: u64) -> Result<Fabric, AllocError>
        ensures fabric { IfOk result (λ fabric.
            fabric ≡ simulation_of topology.now first_serial) }
        ensures cables { IfOk result (λ fabric.
            (port : NodePort) → across fabric.peers port ≡ other_end topology.now.links port) }
    {
        let mut fabric = uncabled(alloc, topology, first_serial)?;
        for link in topology.links() {
            fabric.join(&link.one, &link.other);
        }
        Ok(fabric)
    }
}

/// Builds the fabric of the nodes of `topology`, without cables. Returns an error if memory runs out.
fn uncabled(alloc: Global, topology: &Topology, first_serial: u64) -> Result<Fabric, AllocError>
    ensures fabric { IfOk result (λ fabric. fabric ≡ uncabled topology.now.nodes first_serial) }
    ensures is_topology { IsTopology topology.now }
{
    let mut agents = Vec::with_capacity(alloc, topology.count())?;
    let mut peers = Vec::with_capacity(alloc, topology.count())?;
    while let Some(node) = topology.node(NodeId::new(agents.len())) {
        agents.push(Agent::new(alloc, agent_node(node))?)?;
        peers.push(Peers::new(alloc, node.ports)?)?;
    }
    Ok(Fabric {
        agents,
        peers,
        flights: VecDeque::new(alloc),
        next: Some(first_serial),
        traps: Traps::none(alloc),
    })
}

/// Returns `node` as an agent knows it, with the node's name as its description.
fn agent_node(node: &Node) -> AgentNode
    requires { length node.now.name ≤ 64 }
    ensures { result ≡ agent_node node.now }
{
    AgentNode {
        guid: node.guid,
        kind: node.kind,
        ports: node.ports,
        cap: node.cap,
        description: description(node.name.as_str().as_bytes()),
    }
}

/// Returns `name` as a description, with zeros after it.
fn description(name: &[u8]) -> NodeDescription
    requires { length name.now ≤ 64 }
    ensures { result ≡ name.now ++ replicate (64 - length name.now) 0 }
{
    NodeDescription::decode(&padded(name))
}

/// Returns `name` as 64 bytes, with zeros after it.
fn padded(name: &[u8]) -> [u8; 64]
    requires { length name.now ≤ 64 }
    ensures { result ≡ name.now ++ replicate (64 - length name.now) 0 }
{
    let mut bytes = [0; 64];
    bytes[..name.len()].copy_from_slice(name);
    bytes
}
