ghost use Rattle.std.specs.Prelude.{◌≡◌, IfOk, false};
ghost use Rattle.std.specs.List.{filter_map};
ghost use Rattle.std.specs.Option.{option_map_or};
ghost use Rattle.fact_store.specs.View.{cells_of};
ghost use Rattle.sweep.specs.Sweep.{seen_state};
ghost use Rattle.plan_steps.specs.StateSteps.{is_due, state_data, state_step, vertex_port};
ghost use Rattle.plan_steps.specs.StateSteps.{wired_port, wired_ports};

use crate::carried::{PortRead, port_read};
use crate::lid_steps::port_data;
use crate::step::{Step, step_at};
use attr_codec::{Lmc, PortState};
use fact_store::{Key, Sighting, Store};
use lid_assign::LidMap;
use smp_bytes::{AttributeId, Guid, Lid, PortNum};
use std::alloc::{AllocError, Global};
use subnet_view::{EndPort, is_usable, wire};
use sweep::Sweep;

/// Returns the ports on wires, which are both ends of each wire, in ascending order of node GUID and port.
pub(crate) fn wired_ports(alloc: Global, store: &Store) -> Result<Vec<(Guid, PortNum)>, AllocError>
    ensures { IfOk result (λ ports. ports.items ≡ wired_ports (cells_of store.now)) }
{
    let mut ports = Vec::new(alloc);
    for sighting in store.cells() {
        if let Some(port) = wired_port(store, &sighting) {
            ports.push(port)?;
        }
    }
    Ok(ports)
}

/// Returns the port whose link `sighting` is about, if this port is on a wire.
fn wired_port(store: &Store, sighting: &Sighting) -> Option<(Guid, PortNum)>
    ensures { result ≡ wired_port (cells_of store.now) sighting.now }
{
    match sighting.key() {
        Key::Link(guid, port) => {
            if wire(store, guid, port).is_some() {
                Some((guid, port))
            } else {
                None
            }
        }
        _ => None,
    }
}

/// Builds the steps that set `state` at those of `ports` that are due to go there and that the sweep reached.
#[tactic(auto, using(crate::proofs::Walked::walked_some, crate::proofs::Walked::walked_none))]
pub(crate) fn state_steps(
    alloc: Global,
    store: &Store,
    sweep: &Sweep,
    lids: &LidMap,
    master: Lid,
    ports: &[(Guid, PortNum)],
    state: PortState,
) -> Result<Vec<Step>, AllocError>
    ensures { IfOk result (λ steps. steps.items
        ≡ filter_map (state_step (cells_of store.now) sweep.now lids.now master state) ports.now) }
{
    let mut steps = Vec::new(alloc);
    for at in ports {
        if let Some(step) = state_step(store, sweep, lids, master, state, at.0, at.1) {
            steps.push(step)?;
        }
    }
    Ok(steps)
}

/// Builds the step that sets `state` at `port` of the node `guid`, if it is due to go there and the sweep reached it.
fn state_step(
    store: &Store,
    sweep: &Sweep,
    lids: &LidMap,
    master: Lid,
    state: PortState,
    guid: Guid,
    port: PortNum,
) -> Option<Step>
    ensures { result ≡ state_step (cells_of store.now) sweep.now lids.now master state (guid, port) }
{
    if !is_still_due(sweep, state, guid, port) {
        return None;
    }
    let read = port_read(store, sweep, guid, port);
    step_at(
        sweep,
        guid,
        vertex_port(store, guid, port),
        AttributeId::PORT_INFO,
        u32::from(port.number()),
        state_data(read, lids, master, state, guid, port),
    )
}

/// Returns whether the sweep saw `port` of the node `guid` in a state from which the port is due to go to `state`.
fn is_still_due(sweep: &Sweep, state: PortState, guid: Guid, port: PortNum) -> bool
    ensures { result ≡ option_map_or (is_due state) (seen_state sweep.now guid port) false }
{
    match sweep.seen_state(guid, port) {
        Some(seen) => is_due(state, seen),
        None => false,
    }
}

/// Returns whether a port goes from `seen` to `state`: from Initialize to Armed or Active, or from Armed to Active.
fn is_due(state: PortState, seen: PortState) -> bool
    ensures { result ≡ is_due state seen }
{
    match state {
        PortState::Armed => matches!(seen, PortState::Initialize),
        PortState::Active => matches!(seen, PortState::Initialize | PortState::Armed),
        PortState::NoChange | PortState::Down | PortState::Initialize => false,
    }
}

/// Returns the port number of the vertex of a port: 0 if the node `guid` is a usable switch, and otherwise `port`.
fn vertex_port(store: &Store, guid: Guid, port: PortNum) -> PortNum
    ensures { result ≡ vertex_port (cells_of store.now) (guid, port) }
{
    if is_usable(store, guid) {
        PortNum::MANAGEMENT
    } else {
        port
    }
}

/// Returns the PortInfo that sets `state` at `port` of the node `guid`, with everything else as `carried_port` gives it
/// for `read`, and the port's LID and LMC and `master`, or 0 if it has no LID.
fn state_data(
    read: Option<PortRead>,
    lids: &LidMap,
    master: Lid,
    state: PortState,
    guid: Guid,
    port: PortNum,
) -> [u8; 64]
    ensures { result ≡ state_data read lids.now master state (guid, port) }
{
    let end = EndPort { node: guid, port };
    let lmc = lids.lmc_of(&end);
    match lids.lid_of(end) {
        Some(lid) => port_data(read, lid, lmc, master, state),
        None => port_data(read, Lid::NONE, Lmc::ZERO, Lid::NONE, state),
    }
}
