//! What to do with a packet where it waits.
ghost use Rattle.std.specs.Prelude.{◌≡◌, ◌<◌, length, None, true};
ghost use Rattle.smp_bytes.specs.Packet.{is_directed, fault_of};
ghost use Rattle.fabric_sim.specs.PacketOutcome.{Asks};
ghost use Rattle.fabric_sim.specs.declared.packet.Packet.{Packet};
ghost use Rattle.fabric_sim.specs.Simulation.{port_of, is_cable_port};
ghost use Rattle.fabric_sim.specs.PacketOutcome.{here_at, is_for_manager, leaving, at_agent, arrived, directed_outcome};
ghost use Rattle.fabric_sim.specs.Delivery.{packet_in};
ghost use Rattle.fabric_sim.specs.PacketOutcome.{outcome_by};
ghost use Rattle.fabric_sim.specs.PacketOutcome.{lid_routed_outcome, outcome_of, is_trap};

use crate::delivered::Reason;
use crate::envelope::Envelope;
use crate::fabric::Fabric;
use crate::flight::Whereabouts;
use crate::notice::{TRAP, TRAP_REPRESS};
use dr_forward::{Here, Verdict, step};
use fabric_model::{Course, NodePort};
use smp_bytes::{AttributeId, Lid, Smp, SmpClass};

/// What to do with a packet where it waits.
#[derive(Clone, Copy)]
pub(crate) enum Action {
    /// The packet moves, and then waits as these whereabouts say.
    Moves(Whereabouts),
    /// The agent answers the packet. The answer has the first LID as its SLID and the second as its DLID.
    Asks(Lid, Lid),
    /// The packet is handed up, for the subnet manager at its port.
    HandsUp,
    /// The packet is discarded, and the trap with the packet's TransactionID ends if it waits at the node.
    Represses,
    /// The packet is discarded.
    Drops(Reason),
}

impl Fabric {
    /// Returns what to do with the packet `smp`, which waits as `envelope` says. Performs its step on a directed route.
    #[tactic(auto, using(crate::proofs::AgentLists::within_agents), unfolding(crate::specs::PacketOutcome::outcome_of))]
    pub(crate) fn action(&self, envelope: &Envelope, smp: &mut Smp) -> Action
        requires parses { fault_of smp.old ≡ None }
        requires port { is_cable_port self.now (port_of envelope.now.whereabouts) ≡ true }
        ensures { outcome_by (packet_in envelope.now smp.new) result
            ≡ outcome_of self.now envelope.now.whereabouts (packet_in envelope.now smp.old) }
    {
        let at = envelope.whereabouts.port();
        if !envelope.whereabouts.is_seat() && self.across(&at).is_none() {
            return Action::Drops(Reason::Down);
        }
        match smp.class() {
            SmpClass::DirectedRoute => self.directed_action(&at, envelope, smp),
            SmpClass::LidRouted => self.lid_routed_action(&at, envelope, smp),
        }
    }

    /// Performs a step of `smp` on its directed route, and returns what to do with it. It waits at the port `at`.
    fn directed_action(&self, at: &NodePort, envelope: &Envelope, smp: &mut Smp) -> Action
        requires directed { is_directed smp.old ≡ true }
        requires port { at.now.node < length self.now.agents }
        ensures { outcome_by (packet_in envelope.now smp.new) result
            ≡ directed_outcome self.now at.now (packet_in envelope.now smp.old) }
    {
        match step(smp, &self.here(at)) {
            Verdict::Out(port) => self.leaving(&NodePort {
                node: at.node,
                port,
            }),
            Verdict::ToAgent => self.at_agent(at, envelope, smp),
            Verdict::ToManager => Action::HandsUp,
            Verdict::Discard(reason) => Action::Drops(Reason::from(reason)),
        }
    }

    /// Returns the node of the port `at`, as a step of a packet at this port sees it.
    fn here(&self, at: &NodePort) -> Here
        requires { at.now.node < length self.now.agents }
        ensures { result ≡ here_at self.now at.now }
    {
        let agent = self.agent_in(at.node);
        Here {
            is_switch: agent.is_switch(),
            ports: agent.ports(),
            arrival: at.port,
        }
    }

    /// Returns what to do with a directed packet that has reached the end of its path at the port `at`.
    fn at_agent(&self, at: &NodePort, envelope: &Envelope, smp: &Smp) -> Action
        ensures { outcome_by (packet_in envelope.now smp.now) result
            ≡ at_agent self.now at.now (packet_in envelope.now smp.now) }
    {
        if smp.is_response() {
            Action::Drops(Reason::Course)
        } else if self.is_for_manager(at, smp) {
            Action::HandsUp
        } else {
            Action::Asks(envelope.slid, envelope.dlid)
        }
    }

    /// Returns what to do with a packet that is forwarded by its DLID and waits at the port `at`.
    fn lid_routed_action(&self, at: &NodePort, envelope: &Envelope, smp: &Smp) -> Action
        requires at { at.now ≡ port_of envelope.now.whereabouts }
        requires port { at.now.node < length self.now.agents }
        ensures { outcome_by (packet_in envelope.now smp.now) result
            ≡ lid_routed_outcome self.now envelope.now.whereabouts (packet_in envelope.now smp.now) }
    {
        match self.course(envelope.dlid, at, envelope.whereabouts.is_by_wire()) {
            Course::Delivers(_) => self.arrival(at, envelope, smp),
            Course::LeavesBy(out) => self.leaving(&out),
            Course::Drops => Action::Drops(Reason::NoRoute),
        }
    }

    /// Returns what to do with a packet that is forwarded by its DLID and has reached its destination at the port `at`.
    fn arrival(&self, at: &NodePort, envelope: &Envelope, smp: &Smp) -> Action
        ensures { outcome_by (packet_in envelope.now smp.now) result
            ≡ arrived self.now at.now (packet_in envelope.now smp.now) }
    {
        if smp.is_response() || self.is_for_manager(at, smp) {
            Action::HandsUp
        } else if smp.method() == TRAP_REPRESS {
            Action::Represses
        } else {
            Action::Asks(envelope.dlid, envelope.slid)
        }
    }

    /// Returns the action for a packet that leaves by `out`: it moves across the cable, or is dropped without one.
    fn leaving(&self, out: &NodePort) -> Action
        ensures { (packet : Packet) → outcome_by packet result ≡ leaving self.now out.now packet }
    {
        match self.across(out) {
            Some(into) => Action::Moves(Whereabouts::Arrived(into)),
            None => Action::Drops(Reason::Down),
        }
    }

    /// Returns whether a manager sits at `at`, and `smp` is for one: a LID-routed trap, or a packet with SMInfo.
    fn is_for_manager(&self, at: &NodePort, smp: &Smp) -> bool
        ensures { result ≡ is_for_manager self.now at.now smp.now }
    {
        let is_for_managers = smp.attribute_id() == AttributeId::SM_INFO || is_trap(smp);
        is_for_managers && self.is_seat(at)
    }
}

/// Returns whether `smp` is a trap that is forwarded by LIDs.
fn is_trap(smp: &Smp) -> bool
    ensures { result ≡ is_trap smp.now }
{
    smp.method() == TRAP && smp.class() == SmpClass::LidRouted
}
