ghost use Rattle.std.specs.Prelude.{◌≡◌, ◌<◌, IfOk, true};
ghost use Rattle.fabric_model.specs.Fabric.{switch_count};
ghost use Rattle.fabric_model.specs.Forwarding.{course};
ghost use Rattle.smp_bytes.specs.Judges.{Judges};
ghost use Rattle.fabric_sim.specs.Simulation.{fabric_of, is_port};
ghost use Rattle.fabric_sim.specs.Ping.{ping, ping_fault};

use crate::fabric::Fabric;
use crate::fabric_fault::FabricFault;
use fabric_model::{Course, NodeId, NodePort};
use smp_bytes::Lid;

/// Where a packet for a LID ends.
#[derive(Clone, Copy, Debug, PartialEq, Eq)]
pub enum Ping {
    /// The packet reached this port, along this many wires.
    Reached(NodePort, usize),
    /// The packet reached no port: it is lost at this node.
    Lost(NodeId),
}

impl Fabric {
    /// Returns where a packet for `lid` ends if it is sent from the port `from` and switches forward it according to
    /// their tables. If `from` is a port of a switch, the packet begins at the switch. A packet that has taken two
    /// wires for each switch, and two more wires, is in a loop and counts as lost. Takes time linear in the number of
    /// nodes and in the number of wires that the packet takes. Does not allocate.
    ///
    /// # Errors
    ///
    /// Returns `NoSuchPort` if `from` does not exist. Port 0 of a switch exists.
    pub fn ping(&self, from: NodePort, lid: Lid) -> Result<Ping, FabricFault>
        ensures judged { Judges result (ping_fault self.now from) }
        ensures ping { IfOk result (λ comes. comes ≡ ping (fabric_of self.now) lid from) }
    {
        if !self.is_port(&from) {
            return Err(FabricFault::NoSuchPort);
        }
        let bound = 2 * self.switch_count() + 2;
        let mut at = from;
        let mut is_by_wire = false;
        for hops in 0..bound {
            let out = match self.course(lid, &at, is_by_wire) {
                Course::Delivers(port) => return Ok(Ping::Reached(port, hops)),
                Course::LeavesBy(out) => out,
                Course::Drops => return Ok(Ping::Lost(at.node)),
            };
            let Some(into) = self.across(&out) else {
                return Ok(Ping::Lost(at.node));
            };
            at = into;
            is_by_wire = true;
        }
        Ok(Ping::Lost(at.node))
    }
}
