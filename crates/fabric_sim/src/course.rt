ghost use Rattle.std.specs.Prelude.{◌≡◌, ◌<◌, ◌≤◌, length};
ghost use Rattle.fabric_model.specs.Fabric.{switch_count};
ghost use Rattle.fabric_model.specs.Forwarding.{course, switch_course};
ghost use Rattle.node_agents.specs.Agent.{is_switch, entry_at};
ghost use Rattle.fabric_sim.specs.Simulation.{fabric_of, is_port};

use crate::fabric::Fabric;
use fabric_model::{Course, NodeId, NodePort};
use node_agents::Agent;
use smp_bytes::{Lid, NO_ENTRY};

impl Fabric {
    /// Returns what the node of the port `at` does with a packet for `lid` there, which came by a wire if `is_by_wire`.
    pub(crate) fn course(&self, lid: Lid, at: &NodePort, is_by_wire: bool) -> Course
        requires { at.now.node < length self.now.agents }
        ensures { result ≡ course (fabric_of self.now) lid
            (record { at = at.now; by_wire = is_by_wire }) }
    {
        let agent = self.agent_in(at.node);
        if agent.is_switch() {
            switch_course(agent, at.node, lid)
        } else if agent.owns(at.port, lid) {
            Course::Delivers(*at)
        } else if is_by_wire {
            Course::Drops
        } else {
            Course::LeavesBy(*at)
        }
    }

    /// Returns whether `port` exists: it is from 1 to its node's port count, or port 0 of a switch.
    pub(crate) fn is_port(&self, port: &NodePort) -> bool
        ensures { result ≡ is_port self.now port.now }
    {
        match self.agent(port.node) {
            Some(agent) => {
                port.port.number() <= agent.ports()
                    && (1 <= port.port.number() || agent.is_switch())
            }
            None => false,
        }
    }

    /// Returns the number of nodes that are switches.
    pub(crate) fn switch_count(&self) -> usize
        ensures count { result ≡ switch_count (fabric_of self.now) }
        ensures few { result ≤ 1024 }
    {
        self.agents.iter().filter(|agent| agent.is_switch()).count()
    }
}

/// Returns what the switch `node`, whose agent is `agent`, does with a packet for `lid`.
fn switch_course(agent: &Agent, node: NodeId, lid: Lid) -> Course
    ensures { result ≡ switch_course agent.now.node.ports node agent.now.top lid
        (entry_at agent.now lid) }
{
    if lid.number() == 0 || agent.top() < lid {
        return Course::Drops;
    }
    let port = agent.entry(lid);
    if port.number() == NO_ENTRY || agent.ports() < port.number() {
        Course::Drops
    } else if port.number() == 0 {
        Course::Delivers(NodePort { node, port })
    } else {
        Course::LeavesBy(NodePort { node, port })
    }
}
