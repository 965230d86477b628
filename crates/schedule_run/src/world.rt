//! A simulated fabric and the managers that sit in it.
ghost use Rattle.std.specs.Prelude.{◌≡◌, ◌+◌, ◌<◌, true, All, IfOk, IfSome, OnOk, Some, length};
ghost use Rattle.std.specs.Prelude.{map, option_map, slice_get};
ghost use Rattle.schedule_file.specs.Resolve.{is_seat};
ghost use Rattle.fabric_sim.specs.Changes.{after_inject};
ghost use Rattle.schedule_run.specs.Commands.{manager_of, new_decider, new_seated, world_of};
ghost use Rattle.schedule_run.specs.Delivery.{seat_at};
ghost use Rattle.schedule_run.specs.NamedPackets.{packet_out};
ghost use Rattle.schedule_lines.specs.Prints.{PrintsUnless};
ghost use Rattle.sm_manager.specs.Manager.{emptied};
ghost use Rattle.schedule_run.specs.World.{Does, after_fabric, after_inject_all, after_send, decider_value};
ghost use Rattle.schedule_run.specs.World.{seated_value, value_of};

use byte_io::Sink;
use fabric_model::NodePort;
use fabric_sim::{Fabric, Packet};
use lft_blocks::Planning;
use request_window::Limits;
use schedule_file::Seat;
use schedule_lines::{RunFault, refuse_fabric};
use serve_run::ActingManager;
use sm_manager::{Manager, Outgoing};
use sm_policy::Timing;
use sm_state::Conduct;
use smp_bytes::{Guid, Lid, PERMISSIVE_LID};
use std::alloc::{AllocError, Global};
use topo_file::Topology;

/// The serial number of the first packet that is sent.
const FIRST_SERIAL: u64 = 1;

/// The time in milliseconds when a run begins. It is not 0, since a manager that was told no time but 0 counts as new.
const FIRST_TIME: u64 = 1;

/// How often managers that decide by themselves do what, as `ibsm manage` without options.
const TIMING: Timing = Timing {
    every: 10_000,
    poll: 1000,
    is_strict: false,
};

/// How many requests managers that decide by themselves have out, as `ibsm manage` without options.
const LIMITS: Limits = Limits {
    outstanding: 4,
    tries: 4,
    timeout: 500,
};

/// A manager with its seat.
#[derive(Drop)]
pub(crate) struct Seated<'s> {
    pub(crate) seat: &'s Seat,
    pub(crate) manager: Manager,
}

/// A manager that decides by itself, with its seat.
#[derive(Drop)]
pub(crate) struct Decider<'s> {
    pub(crate) seat: &'s Seat,
    pub(crate) acting: ActingManager,
    /// Whether the manager is told what happens. It is not before its own line, nor while it is paused.
    pub(crate) is_awake: bool,
}

/// A simulated fabric and the managers that sit in it.
#[derive(Drop)]
pub(crate) struct World<'s> {
    pub(crate) fabric: Fabric,
    /// The managers that are asked, in the order of their seats. Until the line that seats a manager is run, the
    /// manager does nothing, and its port is not a seat of the fabric.
    pub(crate) managers: Vec<Seated<'s>>,
    /// The managers that decide by themselves, in the order of their seats.
    pub(crate) deciders: Vec<Decider<'s>>,
    /// The time in milliseconds.
    pub(crate) time: u64,
}

impl<'s> World<'s> {
    /// Builds the fabric of `topology`, and creates a manager for each of `seats` and of `deciders`, which decide by
    /// themselves, that plans as `planning` says. Returns an error if memory runs out.
    pub(crate) fn of(
        alloc: Global,
        topology: &Topology,
        seats: &'s [Seat],
        deciders: &'s [Seat],
        planning: &Planning,
    ) -> Result<World<'s>, AllocError>
        requires seats { All (λ seat. is_seat topology.now.nodes seat.at ≡ true) seats.now }
        requires deciders { All (λ seat. is_seat topology.now.nodes seat.at ≡ true) deciders.now }
        ensures { IfOk result (λ world. value_of world
            ≡ world_of planning.now topology.now seats.now deciders.now) }
    {
        let fabric = Fabric::of(alloc, topology, FIRST_SERIAL)?;
        let managers = seat_all(alloc, topology, seats, planning)?;
        let deciders = decide_all(alloc, topology, deciders, planning)?;
        Ok(World {
            fabric,
            managers,
            deciders,
            time: FIRST_TIME,
        })
    }

    /// Sends all packets that the manager at index `seat` has queued. Prints a line for each that is refused.
    #[tactic(auto, using(crate::proofs::Seats::sits), unfolding(crate::specs::World::after_send))]
    pub(crate) fn send<W: Sink>(&mut self, seat: usize, sink: &mut W) -> Result<(), RunFault>
        requires { seat < length self.old.managers.items }
        ensures does { Does W.written W.has_failed self.old self.new result sink.old sink.new
            (after_send (value_of self.old) seat) }
    {
        let Seated { seat, manager } = &mut self.managers[seat];
        send_outgoing(&mut self.fabric, &seat.at, manager, sink)
    }

    /// Returns the index of the manager that sits at `port`, or `None` if no manager sits there.
    pub(crate) fn manager_at(&self, port: &NodePort) -> Option<usize>
        ensures seat { result ≡ seat_at (value_of self.now) port.now }
        ensures within { IfSome result (λ seat. seat < length self.now.managers.items) }
    {
        if !self.fabric.is_seat(port) {
            return None;
        }
        for (seat, seated) in self.managers.iter().enumerate() {
            if seated.seat.at == *port {
                return Some(seat);
            }
        }
        None
    }
}

/// Creates a manager for each of `seats`, which is asked and plans as `planning` says.
fn seat_all<'s>(
    alloc: Global,
    topology: &Topology,
    seats: &'s [Seat],
    planning: &Planning,
) -> Result<Vec<Seated<'s>>, AllocError>
    requires { All (λ seat. is_seat topology.now.nodes seat.at ≡ true) seats.now }
    ensures { IfOk result (λ managers. map seated_value managers.items
        ≡ map (new_seated planning.now topology.now.nodes) seats.now) }
{
    let mut managers = Vec::with_capacity(alloc, seats.len())?;
    for seat in seats {
        let manager = new_manager(alloc, topology, seat, planning)?;
        managers.push(Seated { seat, manager })?;
    }
    Ok(managers)
}

/// Creates a manager for each of `seats`, which decides by itself and plans as `planning` says.
fn decide_all<'s>(
    alloc: Global,
    topology: &Topology,
    seats: &'s [Seat],
    planning: &Planning,
) -> Result<Vec<Decider<'s>>, AllocError>
    requires { All (λ seat. is_seat topology.now.nodes seat.at ≡ true) seats.now }
    ensures { IfOk result (λ deciders. map decider_value deciders.items
        ≡ map (new_decider planning.now topology.now.nodes) seats.now) }
{
    let mut deciders = Vec::with_capacity(alloc, seats.len())?;
    for seat in seats {
        let manager = new_manager(alloc, topology, seat, planning)?;
        let newest = seat.manner.newest().unwrap_or(0);
        let acting = ActingManager::new(alloc, manager, TIMING, LIMITS, newest);
        deciders.push(Decider {
            seat,
            acting,
            is_awake: false,
        })?;
    }
    Ok(deciders)
}

/// Creates the manager of `seat`, which plans as `planning` says. Returns an error if memory runs out.
fn new_manager(
    alloc: Global,
    topology: &Topology,
    seat: &Seat,
    planning: &Planning,
) -> Result<Manager, AllocError>
    requires { is_seat topology.now.nodes seat.now.at ≡ true }
    ensures { IfOk result (λ manager. manager
        ≡ manager_of planning.now topology.now.nodes seat.now) }
{
    let guid = port_guid(topology, &seat.at);
    let own = planning.try_clone(alloc)?;
    let conduct = Conduct::with(seat.manner.sm_key());
    let port = seat.at.port;
    Ok(Manager::new(alloc, guid, port, seat.priority, conduct, own))
}

/// Sends all packets that `manager` has queued from the port `from`, in their order. Prints a line for each refused.
fn send_outgoing<W: Sink>(
    fabric: &mut Fabric,
    from: &NodePort,
    manager: &mut Manager,
    sink: &mut W,
) -> Result<(), RunFault>
    ensures fabric { OnOk result (fabric.new ≡ (after_inject_all fabric.old from.now manager.old.outgoing).now) }
    ensures manager { OnOk result (manager.new ≡ emptied manager.old) }
    ensures prints { PrintsUnless W.written W.has_failed result sink.old sink.new
        (after_inject_all fabric.old from.now manager.old.outgoing).text }
{
    while let Some(outgoing) = manager.take_outgoing() {
        send_one(fabric, from, &outgoing, sink)?;
    }
    Ok(())
}

/// Sends `outgoing` from the port `from`. If the fabric refuses the packet, prints the refusal.
pub(crate) fn send_one<W: Sink>(
    fabric: &mut Fabric,
    from: &NodePort,
    outgoing: &Outgoing,
    sink: &mut W,
) -> Result<(), RunFault>
    ensures fabric { OnOk result (fabric.new
        ≡ (after_inject fabric.old from.now (packet_out outgoing.now)).fabric) }
    ensures prints { PrintsUnless W.written W.has_failed result sink.old sink.new
        (after_fabric (after_inject fabric.old from.now (packet_out outgoing.now))).text }
{
    match fabric.inject(*from, packet(outgoing)) {
        Ok(_) => Ok(()),
        Err(fault) => refuse_fabric(sink, fault),
    }
}

/// Returns the packet of `outgoing` as it is sent. Its DLID is the LID of `outgoing` or, if there is none, the
/// permissive LID. Its SLID is the permissive LID, which the fabric replaces if switches forward the packet by LIDs.
fn packet(outgoing: &Outgoing) -> Packet
    ensures { result ≡ packet_out outgoing.now }
{
    let permissive = Lid::new(PERMISSIVE_LID);
    Packet {
        bytes: *outgoing.packet.bytes(),
        slid: permissive,
        dlid: outgoing.to.unwrap_or(permissive),
    }
}

/// Returns the GUID of `port`, a port of an adapter of `topology`.
#[tactic(auto, using(crate::proofs::Ports::guid_fits))]
fn port_guid(topology: &Topology, port: &NodePort) -> Guid
    requires { is_seat topology.now.nodes port.now ≡ true }
    ensures { option_map (λ node. node.guid + port.now.port)
        (slice_get topology.now.nodes port.now.node) ≡ Some result }
{
    let node = topology.node(port.node).unwrap();
    Guid::new(node.guid.number() + u64::from(port.port.number()))
}
