ghost use Rattle.std.specs.Prelude.{◌≡◌, true, Some};
ghost use Rattle.fabric_sim.specs.Simulation.{is_cable_port, is_seat_at};
ghost use Rattle.fabric_sim.specs.Changes.{after_seat};

use crate::fabric::Fabric;
use crate::fabric_fault::FabricFault;
use fabric_model::NodePort;

impl Fabric {
    /// Seats a subnet manager at `at`, a port of an adapter, and sets IsSM there. Does not allocate.
    ///
    /// # Errors
    ///
    /// Returns `NoSuchPort` if `at` is not a port from 1 to the port count of an adapter. Otherwise returns
    /// `PortTaken` if a manager sits there already.
    #[tactic(auto, using(crate::proofs::AgentLists::within_agents), unfolding(crate::specs::Changes::after_seat))]
    pub fn seat(&mut self, at: NodePort) -> Result<(), FabricFault>
        ensures fabric { self.new ≡ (after_seat self.old at).fabric }
        ensures result { result ≡ (after_seat self.old at).result }
    {
        if self.is_switch_at(at.node) || !self.is_cable_port(&at) {
            return Err(FabricFault::NoSuchPort);
        }
        if self.is_seat(&at) {
            return Err(FabricFault::PortTaken);
        }
        let agent = &mut self.agents[at.node.number()];
        agent.set_seat(at.port);
        Ok(())
    }

    /// Returns whether a subnet manager sits at `port`.
    pub fn is_seat(&self, port: &NodePort) -> bool
        ensures seat { result ≡ is_seat_at self.now port.now }
        ensures port { result ≡ true → is_cable_port self.now port.now ≡ true }
    {
        match self.agents.get(port.node.number()) {
            Some(agent) => agent.has_seat(port.port),
            None => false,
        }
    }
}
