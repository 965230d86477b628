ghost use Rattle.std.specs.Prelude.{◌≡◌, IfOk};
ghost use Rattle.fact_store.specs.View.{cells_of};
ghost use Rattle.plan_steps.specs.LidSteps.{is_own_port, own_lid, port_data};
ghost use Rattle.plan_steps.specs.LidSteps.{lid_step, lid_steps, owner_step};

use crate::carried::{PortRead, carried_port, port_read};
use crate::step::{Step, step_at};
use attr_codec::{Attribute, Lmc, PortState};
use fact_store::Store;
use lid_assign::LidMap;
use smp_bytes::{AttributeId, Guid, Lid, PortNum};
use std::alloc::{AllocError, Global};
use subnet_view::EndPort;
use sweep::Sweep;

/// Returns the manager's LID: that of the first end port with the number `port` and the GUID `own_guid`, or 0.
pub(crate) fn own_lid(store: &Store, lids: &LidMap, own_guid: Guid, port: PortNum) -> Lid
    ensures { result ≡ own_lid (cells_of store.now) lids.now.ports own_guid port }
{
    for (end, lid) in lids.given() {
        if is_own_port(store, *end, own_guid, port) {
            return *lid;
        }
    }
    Lid::NONE
}

/// Returns whether `end` has the port number `port`, and its port GUID is known to be `own_guid`.
fn is_own_port(store: &Store, end: EndPort, own_guid: Guid, port: PortNum) -> bool
    ensures { result ≡ is_own_port (cells_of store.now) own_guid port end }
{
    end.port == port && store.port_guid(end.node, end.port) == Some(own_guid)
}

/// Builds the steps that set the LID, the LMC and `master` at each end port that the sweep reached, in order of LID.
pub(crate) fn lid_steps(
    alloc: Global,
    store: &Store,
    sweep: &Sweep,
    master: Lid,
    lids: &LidMap,
) -> Result<Vec<Step>, AllocError>
    ensures { IfOk result (λ steps. steps.items
        ≡ lid_steps (cells_of store.now) sweep.now master lids.now) }
{
    let mut steps = Vec::new(alloc);
    for lid in lids.lids() {
        if let Some(step) = owner_step(store, sweep, master, lids, *lid) {
            steps.push(step)?;
        }
    }
    Ok(steps)
}

/// Builds the step that sets `lid`, the LMC and `master` at the owner of `lid`, if it has one that the sweep reached.
fn owner_step(store: &Store, sweep: &Sweep, master: Lid, lids: &LidMap, lid: Lid) -> Option<Step>
    ensures { result ≡ owner_step (cells_of store.now) sweep.now master lids.now lid }
{
    let end = lids.owner(lid)?;
    let lmc = lids.lmc_of(&end);
    lid_step(store, sweep, master, lid, lmc, end)
}

/// Builds the step that sets `lid`, `lmc` and the manager's LID `master` at `end`, if the sweep reached `end`.
fn lid_step(
    store: &Store,
    sweep: &Sweep,
    master: Lid,
    lid: Lid,
    lmc: Lmc,
    end: EndPort,
) -> Option<Step>
    ensures { result ≡ lid_step (cells_of store.now) sweep.now master (lid, lmc) end }
{
    let read = port_read(store, sweep, end.node, end.port);
    step_at(
        sweep,
        end.node,
        end.port,
        AttributeId::PORT_INFO,
        u32::from(end.port.number()),
        port_data(read, lid, lmc, master, PortState::NoChange),
    )
}

/// Returns the PortInfo with `lid`, `lmc`, `master` and `state`, and all else as `carried_port` gives it for `read`.
pub(crate) fn port_data(
    read: Option<PortRead>,
    lid: Lid,
    lmc: Lmc,
    master: Lid,
    state: PortState,
) -> [u8; 64]
    ensures { result ≡ port_data read (lid, lmc) master state }
{
    let mut info = carried_port(read);
    info.set_base_lid(lid);
    info.set_master_sm_lid(master);
    info.set_lmc(lmc);
    info.set_port_state(state);
    info.encode()
}
