//! The commands about cables, and about the traps that report changes of cables.
ghost use Rattle.std.specs.Prelude.{◌≡◌};
ghost use Rattle.schedule_run.specs.Commands.{after_cut_line, after_plug_line, after_resend, after_resend_line};
ghost use Rattle.schedule_run.specs.Commands.{after_tell, after_tell_ends, after_traps_line};
ghost use Rattle.schedule_run.specs.World.{Does, value_of};

use crate::world::World;
use byte_io::Sink;
use fabric_model::{NodeId, NodePort};
use schedule_lines::{RunFault, refuse_fabric};
use std::alloc::Global;

impl World<'_> {
    /// Cuts the cable in `port`, and informs the agents at both ends, or prints the refusal of the fabric.
    #[tactic(auto, unfolding(crate::specs::Commands::after_cut_line))]
    pub(crate) fn cut<W: Sink>(&mut self, port: NodePort, sink: &mut W) -> Result<(), RunFault>
        ensures does { Does W.written W.has_failed self.old self.new result sink.old sink.new
            (after_cut_line (value_of self.old) port) }
    {
        let other = self.fabric.across(&port);
        if let Err(fault) = self.fabric.cut(port) {
            return refuse_fabric(sink, fault);
        }
        match other {
            Some(other) => self.tell_ends(&port, &other, sink),
            None => Ok(()),
        }
    }

    /// Plugs a cable into `one` and `other`, and informs the agents at both ends, or prints the refusal of the fabric.
    #[tactic(auto, unfolding(crate::specs::Commands::after_plug_line))]
    pub(crate) fn plug<W: Sink>(
        &mut self,
        one: NodePort,
        other: NodePort,
        sink: &mut W,
    ) -> Result<(), RunFault>
        ensures does { Does W.written W.has_failed self.old self.new result sink.old sink.new
            (after_plug_line (value_of self.old) one other) }
    {
        match self.fabric.plug(one, other) {
            Ok(()) => self.tell_ends(&one, &other, sink),
            Err(fault) => refuse_fabric(sink, fault),
        }
    }

    /// Informs the agents at the ends `one` and `other` of a cable of a change of state, once if they are one node.
    #[tactic(auto, unfolding(crate::specs::Commands::after_tell_ends))]
    fn tell_ends<W: Sink>(
        &mut self,
        one: &NodePort,
        other: &NodePort,
        sink: &mut W,
    ) -> Result<(), RunFault>
        ensures does { Does W.written W.has_failed self.old self.new result sink.old sink.new
            (after_tell_ends (value_of self.old) one.now other.now) }
    {
        self.tell(one.node, sink)?;
        if other.node == one.node {
            return Ok(());
        }
        self.tell(other.node, sink)
    }

    /// Informs the agent of `node` that the state of a port has changed.
    fn tell<W: Sink>(&mut self, node: NodeId, sink: &mut W) -> Result<(), RunFault>
        ensures does { Does W.written W.has_failed self.old self.new result sink.old sink.new
            (after_tell (value_of self.old) node) }
    {
        match self.fabric.tell_port_change(node) {
            Ok(()) => Ok(()),
            Err(fault) => refuse_fabric(sink, fault),
        }
    }

    /// Makes the agents of switches send traps from now on.
    #[tactic(auto, unfolding(crate::specs::Commands::after_traps_line))]
    pub(crate) fn begin_traps<W: Sink>(
        &mut self,
        alloc: Global,
        sink: &mut W,
    ) -> Result<(), RunFault>
        ensures does { Does W.written W.has_failed self.old self.new result sink.old sink.new
            (after_traps_line (value_of self.old)) }
    {
        match self.fabric.begin_traps(alloc) {
            Ok(()) => Ok(()),
            Err(fault) => refuse_fabric(sink, fault),
        }
    }

    /// Resends each waiting trap, in the order of the nodes, but for those that cannot leave or get no serial number.
    pub(crate) fn resend<W: Sink>(&mut self, sink: &mut W) -> Result<(), RunFault>
        ensures does { Does W.written W.has_failed self.old self.new result sink.old sink.new
            (after_resend_line (value_of self.old)) }
    {
        let count = self.fabric.node_count();
        for id in 0..count {
            self.resend_one(NodeId::new(id), sink)?;
        }
        Ok(())
    }

    /// Resends the trap that waits at `node`, if there is one, it can leave, and a serial number is left.
    fn resend_one<W: Sink>(&mut self, node: NodeId, sink: &mut W) -> Result<(), RunFault>
        ensures does { Does W.written W.has_failed self.old self.new result sink.old sink.new
            (after_resend (value_of self.old) node) }
    {
        match self.fabric.send_trap(node) {
            Ok(()) => Ok(()),
            Err(fault) => refuse_fabric(sink, fault),
        }
    }
}
