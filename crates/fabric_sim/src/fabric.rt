ghost use Rattle.std.specs.Prelude.{◌≡◌, ◌<◌, length, slice_get, option_copied, is_some, true, Some, IfSome};
ghost use Rattle.fabric_model.specs.Fabric.{is_switch_at};
ghost use Rattle.fabric_sim.specs.Simulation.{agent_at, across, is_cable_port, fabric_of};

use crate::flight::Flight;
use crate::peers::Peers;
use crate::traps::Traps;
use fabric_model::{NodeId, NodePort};
use node_agents::Agent;
use smp_bytes::Lid;
use std::collections::VecDeque;
use std::marker::Model;

/// A simulated fabric. Contracts see the agents, the other ends of the cables in the ports, the packets in flight,
/// the next serial number, and the traps that wait.
#[derive(Drop)]
pub struct Fabric {
    pub(crate) agents: Vec<Agent>,
    /// For each node, the other ends of the cables in its ports.
    pub(crate) peers: Vec<Peers>,
    /// The packets in flight, in ascending order of serial number.
    pub(crate) flights: VecDeque<Flight>,
    /// The next serial number, or `None` if no serial number is left.
    pub(crate) next: Option<u64>,
    /// The traps that wait at switches.
    pub(crate) traps: Traps,
}

impl Model for Fabric {
    ghost use Rattle.fabric_sim.specs.Simulation.{Simulation, IsSimulation, next_serial};

    ghost Value = { Simulation };

    ghost view = { λ f. record {
      agents = f.agents.items;
      peers = f.peers.items;
      flights = f.flights.items;
      next =
          next_serial f.next;
      traps = f.traps;
    } };

    ghost invariant = { λ f. IsSimulation (record {
      agents = f.agents.items;
      peers = f.peers.items;
      flights = f.flights.items;
      next =
          next_serial f.next;
      traps = f.traps;
    }) };
}

impl Fabric {
    /// Returns the number of nodes.
    pub fn node_count(&self) -> usize
        ensures { result ≡ length self.now.agents }
    {
        self.agents.len()
    }

    /// Returns the agent of `node`, or `None` if the fabric has no such node. Takes constant time.
    pub fn agent(&self, node: NodeId) -> Option<&Agent>
        ensures { option_copied result ≡ agent_at self.now node }
    {
        self.agents.get(node.number())
    }

    /// Returns the number of packets in flight.
    pub fn flight_count(&self) -> usize
        ensures { result ≡ length self.now.flights }
    {
        self.flights.len()
    }

    /// Returns the packet at index `i` among the packets in flight, in ascending order of serial number, or `None` if
    /// no more than `i` packets are in flight. Takes constant time.
    pub fn in_flight(&self, i: usize) -> Option<&Flight>
        ensures { option_copied result ≡ slice_get self.now.flights i }
    {
        self.flights.get(i)
    }

    /// Returns the port at the other end of the cable in `port`, or `None` if no cable is in `port`. For a loop, this
    /// is `port` itself.
    pub fn across(&self, port: &NodePort) -> Option<NodePort>
        ensures other { result ≡ across self.now.peers port.now }
        ensures port { IfSome result (λ other. is_cable_port self.now other ≡ true) }
    {
        self.peers.get(port.node.number())?.across(port.port)
    }

    /// Returns whether a cable is in `port`.
    pub(crate) fn has_cable(&self, port: &NodePort) -> bool
        ensures cable { result ≡ is_some (across self.now.peers port.now) }
        ensures port { result ≡ true → is_cable_port self.now port.now ≡ true }
    {
        match self.peers.get(port.node.number()) {
            Some(peers) => peers.across(port.port).is_some(),
            None => false,
        }
    }

    /// Returns the agent of `node`.
    pub(crate) fn agent_in(&self, node: NodeId) -> &Agent
        requires { node < length self.now.agents }
        ensures { agent_at self.now node ≡ Some result.now }
    {
        &self.agents[node.number()]
    }

    /// Returns whether `node` exists and is a switch.
    pub(crate) fn is_switch_at(&self, node: NodeId) -> bool
        ensures { result ≡ is_switch_at (fabric_of self.now) node }
    {
        match self.agent(node) {
            Some(agent) => agent.is_switch(),
            None => false,
        }
    }

    /// Returns whether `port` is from 1 to its node's port count.
    pub(crate) fn is_cable_port(&self, port: &NodePort) -> bool
        ensures { result ≡ is_cable_port self.now port.now }
    {
        match self.agent(port.node) {
            Some(agent) => port.port.is_within(agent.ports()),
            None => false,
        }
    }

    /// Returns the base LID of `port`, or 0 if the port has none or does not exist.
    pub(crate) fn base_lid(&self, port: &NodePort) -> Lid
        ensures { result ≡ (fabric_of self.now).base_lid port.now }
    {
        match self.agent(port.node) {
            Some(agent) => agent.base_lid(port.port),
            None => Lid::NONE,
        }
    }
}
