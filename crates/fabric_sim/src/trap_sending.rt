//! The traps by which switches report to the master that the state of a link has changed.
ghost use Rattle.std.specs.Prelude.{◌≡◌, ◌<◌, length, true, IfSome};
ghost use Rattle.fabric_sim.specs.Simulation.{is_cable_port};
ghost use Rattle.fabric_sim.specs.Called.{ComesTo};
ghost use Rattle.fabric_sim.specs.TrapSending.{after_begin_traps, after_port_change, after_send_trap, leaving_just};
ghost use Rattle.fabric_sim.specs.TrapSending.{master_lid, port_zero, sends_traps, trap_out, trap_packet, trap_sent};
ghost use Rattle.fabric_sim.specs.TrapSending.{with_traps};
ghost use Rattle.fabric_sim.specs.Traps.{with_new_trap};

use crate::fabric::Fabric;
use crate::fabric_fault::FabricFault;
use crate::flight::Whereabouts;
use crate::notice::link_trap;
use crate::packet::Packet;
use fabric_model::{Course, NodeId, NodePort};
use smp_bytes::{Lid, PortNum};
use std::alloc::Global;

impl Fabric {
    /// Lets the agents of switches send traps from now on. Does nothing if switches send traps already.
    ///
    /// # Errors
    ///
    /// Returns `Memory` if memory runs out.
    pub fn begin_traps(&mut self, alloc: Global) -> Result<(), FabricFault>
        ensures { ComesTo result self.old self.new (after_begin_traps self.old) }
    {
        let nodes = self.agents.len();
        match self.traps.begin(alloc, nodes) {
            Ok(()) => Ok(()),
            Err(_) => Err(FabricFault::Memory),
        }
    }

    /// Tells the agent of `node` that the state of one of its ports has changed. If the node is a switch and switches
    /// send traps, a new trap waits there, in place of any other, and is sent if it can leave and a serial number is
    /// left.
    ///
    /// # Errors
    ///
    /// Returns `Memory` if memory runs out.
    #[tactic(auto, unfolding(crate::specs::TrapSending::after_port_change))]
    pub fn tell_port_change(&mut self, node: NodeId) -> Result<(), FabricFault>
        ensures { ComesTo result self.old self.new (after_port_change self.old node) }
    {
        if !self.sends_traps(node) {
            return Ok(());
        }
        let number = self.traps.next();
        self.send_numbered(node, number)?;
        self.add_trap(node);
        Ok(())
    }

    /// Sends the trap that waits at `node`, if a trap waits there. Does not send it if the node has no LID, if its
    /// table has no port with a cable for the manager's LID, or if no serial number is left.
    ///
    /// # Errors
    ///
    /// Returns `Memory` if memory runs out.
    #[tactic(auto, unfolding(crate::specs::TrapSending::after_send_trap))]
    pub fn send_trap(&mut self, node: NodeId) -> Result<(), FabricFault>
        ensures { ComesTo result self.old self.new (after_send_trap self.old node) }
    {
        match self.traps.at(node) {
            Some(number) => self.send_numbered(node, number),
            None => Ok(()),
        }
    }

    /// Sends the trap with the TransactionID `number` from `node`, if it can leave and a serial number is left. Returns
    /// `Memory` if memory runs out.
    fn send_numbered(&mut self, node: NodeId, number: u64) -> Result<(), FabricFault>
        ensures { ComesTo result self.old self.new (leaving_just (trap_sent self.old node number)) }
    {
        let Some(out) = self.trap_out(node) else {
            return Ok(());
        };
        let packet = self.trap_packet(node, number);
        match self.enqueue(Whereabouts::Made(out), packet) {
            Err(FabricFault::Memory) => Err(FabricFault::Memory),
            _ => Ok(()),
        }
    }

    /// Makes a new trap wait at `node`, in place of any other.
    fn add_trap(&mut self, node: NodeId)
        requires { node < length self.old.traps.waiting }
        ensures { self.new ≡ with_traps self.old (with_new_trap self.old.traps node) }
    {
        self.traps.add(node);
    }

    /// Returns whether `node` is a switch, and switches send traps.
    fn sends_traps(&self, node: NodeId) -> bool
        ensures { result ≡ sends_traps self.now node }
    {
        self.traps.has_room(node) && self.is_switch_at(node)
    }

    /// Returns the port by which the trap of `node` leaves, if it has a LID, a port for the manager's, and a cable.
    fn trap_out(&self, node: NodeId) -> Option<NodePort>
        ensures out { result ≡ trap_out self.now node }
        ensures port { IfSome result (λ out. is_cable_port self.now out ≡ true) }
    {
        let at = port_zero(node);
        if self.base_lid(&at).number() == 0 {
            return None;
        }
        match self.course(self.master_lid(node), &at, false) {
            Course::LeavesBy(out) if self.has_cable(&out) => Some(out),
            _ => None,
        }
    }

    /// Returns the trap of `node` with the TransactionID `number`, from the node's LID to the manager's LID.
    fn trap_packet(&self, node: NodeId, number: u64) -> Packet
        ensures { result ≡ trap_packet self.now node number }
    {
        let lid = self.base_lid(&port_zero(node));
        Packet {
            bytes: *link_trap(lid, number).bytes(),
            slid: lid,
            dlid: self.master_lid(node),
        }
    }

    /// Returns the LID that was set at port 0 of `node` as the subnet manager's, or 0 if none was set.
    fn master_lid(&self, node: NodeId) -> Lid
        ensures { result ≡ master_lid self.now node }
    {
        match self.agent(node) {
            Some(agent) => agent.master_sm_lid(PortNum::new(0)),
            None => Lid::NONE,
        }
    }
}

/// Returns port 0 of `node`.
fn port_zero(node: NodeId) -> NodePort
    ensures { result ≡ port_zero node }
{
    NodePort {
        node,
        port: PortNum::new(0),
    }
}
