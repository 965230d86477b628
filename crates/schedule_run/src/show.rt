ghost use Rattle.std.specs.Prelude.{◌<◌, length};
ghost use Rattle.schedule_run.specs.Commands.{flights_text, ping_shown, shown_of};
ghost use Rattle.schedule_lines.specs.Prints.{PrintsUnless};
ghost use Rattle.schedule_run.specs.World.{value_of};

use crate::world::World;
use byte_io::Sink;
use fabric_model::NodePort;
use schedule_file::Shown;
use schedule_lines::{RunFault, refuse_fabric, show_manager, write_flight, write_ping};
use smp_bytes::Lid;
use topo_file::Topology;

impl World<'_> {
    /// Prints what `what` asks about the manager at index `seat`.
    pub(crate) fn show<W: Sink>(
        &self,
        seat: usize,
        what: Shown,
        sink: &mut W,
    ) -> Result<(), RunFault>
        requires { seat < length self.now.managers.items }
        ensures prints { PrintsUnless W.written W.has_failed result sink.old sink.new
            (shown_of (value_of self.now) seat what) }
    {
        let seated = &self.managers[seat];
        show_manager(sink, Some(seated.seat.name.as_str()), &seated.manager, what)
    }

    /// Prints where a packet from the port `from` to `lid` ends. If the fabric refuses the ping, prints the refusal.
    #[tactic(auto, using(byte_io::proofs::Writing::wrote), unfolding(crate::specs::Commands::ping_shown))]
    pub(crate) fn show_ping<W: Sink>(
        &self,
        topology: &Topology,
        from: NodePort,
        lid: Lid,
        sink: &mut W,
    ) -> Result<(), RunFault>
        ensures prints { PrintsUnless W.written W.has_failed result sink.old sink.new
            (ping_shown topology.now.nodes (value_of self.now) from lid) }
    {
        match self.fabric.ping(from, lid) {
            Ok(ping) => {
                write_ping(sink, topology, &from, lid, &ping)?;
                Ok(())
            }
            Err(fault) => refuse_fabric(sink, fault),
        }
    }

    /// Prints the packets in flight, in ascending order of serial number.
    pub(crate) fn show_flight<W: Sink>(
        &self,
        topology: &Topology,
        sink: &mut W,
    ) -> Result<(), RunFault>
        ensures prints { PrintsUnless W.written W.has_failed result sink.old sink.new
            (flights_text topology.now.nodes self.now.fabric.flights) }
    {
        for i in 0..self.fabric.flight_count() {
            let flight = self.fabric.in_flight(i).unwrap();
            write_flight(
                sink,
                topology,
                flight.serial,
                flight.whereabouts.port().node,
            )?;
        }
        Ok(())
    }
}
