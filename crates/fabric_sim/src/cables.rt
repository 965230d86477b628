ghost use Rattle.std.specs.Prelude.{◌≡◌, true, None, Some};
ghost use Rattle.node_agents.specs.Agent.{after_set_wired};
ghost use Rattle.fabric_sim.specs.Simulation.{is_cable_port, has_cable_port, across, HasPeerSlot};
ghost use Rattle.fabric_sim.specs.Delivery.{with_changed};
ghost use Rattle.fabric_sim.specs.Changes.{with_peer, cabled_at, after_plug, uncabled_at, after_cut};

use crate::fabric::Fabric;
use crate::fabric_fault::FabricFault;
use crate::peers::Peers;
use fabric_model::NodePort;
use node_agents::Agent;

impl Fabric {
    /// Plugs a cable into the ports `one` and `other`, or a loop if they are the same port. The state of both becomes
    /// Initialize. Does not allocate.
    ///
    /// # Errors
    ///
    /// Returns `NoSuchPort` if `one` or `other` is not from 1 to its node's port count. Otherwise returns `PortTaken`
    /// if there is a cable in `one` or `other`.
    #[tactic(auto, unfolding(crate::specs::Changes::after_plug))]
    pub fn plug(&mut self, one: NodePort, other: NodePort) -> Result<(), FabricFault>
        ensures fabric { self.new ≡ (after_plug self.old one other).fabric }
        ensures result { result ≡ (after_plug self.old one other).result }
    {
        if !self.is_cable_port(&one) || !self.is_cable_port(&other) {
            return Err(FabricFault::NoSuchPort);
        }
        if self.across(&one).is_some() || self.across(&other).is_some() {
            return Err(FabricFault::PortTaken);
        }
        self.join(&one, &other);
        Ok(())
    }

    /// Plugs a cable into the ports `one` and `other`, or a loop if they are the same port.
    #[tactic(auto, unfolding(crate::specs::Changes::cabled_at))]
    pub(crate) fn join(&mut self, one: &NodePort, other: &NodePort)
        requires one { is_cable_port self.old one.now ≡ true }
        requires other { is_cable_port self.old other.now ≡ true }
        requires one_free { across self.old.peers one.now ≡ None }
        requires other_free { across self.old.peers other.now ≡ None }
        ensures { self.new ≡ cabled_at self.old one.now other.now }
    {
        set_wired(&mut self.agents, one, true);
        set_wired(&mut self.agents, other, true);
        set_peer(&mut self.peers, one, Some(*other));
        set_peer(&mut self.peers, other, Some(*one));
    }

    /// Takes out the cable in `at`. The state of the ports at its two ends becomes Down. Does not allocate.
    ///
    /// # Errors
    ///
    /// Returns `NoSuchPort` if no cable is in `at`.
    #[tactic(auto, unfolding(crate::specs::Changes::after_cut))]
    pub fn cut(&mut self, at: NodePort) -> Result<(), FabricFault>
        ensures fabric { self.new ≡ (after_cut self.old at).fabric }
        ensures result { result ≡ (after_cut self.old at).result }
    {
        let Some(other) = self.across(&at) else {
            return Err(FabricFault::NoSuchPort);
        };
        self.part(&at, &other);
        Ok(())
    }

    /// Takes out the cable between the ports `one` and `other`.
    #[tactic(auto, unfolding(crate::specs::Changes::uncabled_at))]
    fn part(&mut self, one: &NodePort, other: &NodePort)
        requires { across self.old.peers one.now ≡ Some other.now }
        ensures { self.new ≡ uncabled_at self.old one.now other.now }
    {
        set_wired(&mut self.agents, one, false);
        set_wired(&mut self.agents, other, false);
        set_peer(&mut self.peers, one, None);
        set_peer(&mut self.peers, other, None);
    }
}

/// Sets the state of `port` to Initialize if `is_wired`, and otherwise to Down.
fn set_wired(agents: &mut [Agent], port: &NodePort, is_wired: bool)
    requires { has_cable_port agents.old port.now ≡ true }
    ensures { agents.new
        ≡ with_changed agents.old port.now.node (λ a. after_set_wired a port.now.port is_wired) }
{
    let agent = &mut agents[port.node.number()];
    agent.set_wired(port.port, is_wired);
}

/// Sets `other` as the port at the other end of the cable in `port`; `None` stands for no cable.
fn set_peer(peers: &mut [Peers], port: &NodePort, other: Option<NodePort>)
    requires { HasPeerSlot peers.old port.now }
    ensures { peers.new ≡ with_peer peers.old port.now other }
{
    let peers = &mut peers[port.node.number()];
    peers.set(port.port, other);
}
