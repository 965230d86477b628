ghost use Rattle.std.specs.Prelude.{◌≡◌, IfOk};
ghost use Rattle.fact_store.specs.View.{cells_of};
ghost use Rattle.plan_steps.specs.Phase.{phases_by, phases_of};

use crate::block_steps::{block_steps, top_steps};
use crate::lid_steps::{lid_steps, own_lid};
use crate::mask_steps::{clear_steps, tree_steps};
use crate::state_steps::{state_steps, wired_ports};
use crate::step::Step;
use attr_codec::PortState;
use fact_store::Store;
use lft_blocks::Plan;
use multicast_tree::SwitchPorts;
use smp_bytes::{Guid, Lid, PortNum};
use std::alloc::{AllocError, Global};
use std::collections::VecDeque;
use std::marker::Model;
use sweep::Sweep;

/// Steps that are sent together. Contracts see the steps, and whether the plan counts as written only if they were
/// done.
#[derive(Drop)]
pub struct Phase {
    /// Whether the plan counts as written only if all these steps were done.
    pub counts: bool,
    pub steps: Vec<Step>,
}

impl Model for Phase {
    ghost use Rattle.plan_steps.specs.Phase.{Phase};

    ghost Value = { Phase };

    ghost view = { λ a. record { counts = a.counts; steps = a.steps.items } };
}

/// Builds the phases in which a manager writes a plan along the paths of its last sweep: LIDs, forwarding blocks, the
/// greatest LID at each switch, and then the states of ports on wires, first Armed and then Active (subnet
/// management, initialization). Before the blocks the multicast masks of the switches of `tree` are cleared, and after
/// the tops they are set to those of `tree`, which may be empty. The manager is at the port with the number `port` and
/// the GUID `port_guid`. Leaves out agents that the sweep did not reach.
///
/// # Errors
///
/// Returns an error only if memory runs out.
pub fn phases(
    alloc: Global,
    plan: &Plan,
    tree: &[SwitchPorts],
    store: &Store,
    sweep: &Sweep,
    port_guid: Guid,
    port: PortNum,
) -> Result<VecDeque<Phase>, AllocError>
    ensures { IfOk result (λ phases. phases.items
        ≡ phases_of plan.now tree.now (cells_of store.now) sweep.now port_guid port) }
{
    let master = own_lid(store, plan.lids(), port_guid, port);
    phases_by(alloc, plan, tree, store, sweep, master)
}

/// Builds the phases in which a manager with the LID `master` writes `plan` and `tree`, as `phases` does.
fn phases_by(
    alloc: Global,
    plan: &Plan,
    tree: &[SwitchPorts],
    store: &Store,
    sweep: &Sweep,
    master: Lid,
) -> Result<VecDeque<Phase>, AllocError>
    ensures { IfOk result (λ phases. phases.items
        ≡ phases_by plan.now tree.now (cells_of store.now) sweep.now master) }
{
    let lids = plan.lids();
    let mut phases = VecDeque::with_capacity(alloc, 7)?;
    let steps = lid_steps(alloc, store, sweep, master, lids)?;
    phases.push_back(Phase {
        counts: true,
        steps,
    })?;
    let steps = clear_steps(alloc, store, sweep, tree)?;
    phases.push_back(Phase {
        counts: true,
        steps,
    })?;
    let steps = block_steps(alloc, sweep, plan)?;
    phases.push_back(Phase {
        counts: true,
        steps,
    })?;
    let steps = top_steps(alloc, sweep, plan)?;
    phases.push_back(Phase {
        counts: true,
        steps,
    })?;
    let steps = tree_steps(alloc, store, sweep, tree)?;
    phases.push_back(Phase {
        counts: true,
        steps,
    })?;
    let ports = wired_ports(alloc, store)?;
    let steps = state_steps(alloc, store, sweep, lids, master, &ports, PortState::Armed)?;
    phases.push_back(Phase {
        counts: false,
        steps,
    })?;
    let steps = state_steps(alloc, store, sweep, lids, master, &ports, PortState::Active)?;
    phases.push_back(Phase {
        counts: false,
        steps,
    })?;
    Ok(phases)
}
