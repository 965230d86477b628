ghost use Rattle.std.specs.Prelude.{◌≡◌, ◌++◌, ◌<◌, IfOk, OnOk};
ghost use Rattle.plan_steps.specs.BlockSteps.{block_step, block_steps, switch_steps};
ghost use Rattle.plan_steps.specs.BlockSteps.{top_data, top_step, top_steps};
ghost use Rattle.std.specs.List.{filter_map};
ghost use Rattle.lft_blocks.specs.Plan.{switches_of};

use crate::carried::carried_switch;
use crate::step::{Step, step_at};
use attr_codec::{Attribute, SwitchInfo};
use lft_blocks::{Plan, block_count};
use smp_bytes::{AttributeId, Guid, Lid, PortNum};
use std::alloc::{AllocError, Global};
use sweep::Sweep;

/// Builds a step for each block of the plan at each usable switch that the sweep reached, in ascending order.
pub(crate) fn block_steps(
    alloc: Global,
    sweep: &Sweep,
    plan: &Plan,
) -> Result<Vec<Step>, AllocError>
    ensures { IfOk result (λ steps. steps.items ≡ block_steps sweep.now plan.now) }
{
    let mut steps = Vec::new(alloc);
    for guid in plan.switches() {
        add_switch_steps(&mut steps, sweep, plan, *guid)?;
    }
    Ok(steps)
}

/// Appends to `steps` those that set the blocks of the switch `guid`, if the sweep reached it.
#[tactic(auto, using(crate::proofs::Ranges::given_some, crate::proofs::Ranges::given_none))]
fn add_switch_steps(
    steps: &mut Vec<Step>,
    sweep: &Sweep,
    plan: &Plan,
    guid: Guid,
) -> Result<(), AllocError>
    ensures { OnOk result
        (steps.new.items ≡ steps.old.items ++ switch_steps sweep.now plan.now guid) }
{
    for b in 0..block_count(plan.top()) {
        if let Some(step) = block_step(sweep, plan, guid, b) {
            steps.push(step)?;
        }
    }
    Ok(())
}

/// Builds the step that sets block `b` of the switch `guid`, if the plan has it and the sweep reached the switch.
fn block_step(sweep: &Sweep, plan: &Plan, guid: Guid, b: usize) -> Option<Step>
    requires { b < 1024 }
    ensures { result ≡ block_step sweep.now plan.now guid b }
{
    let block = plan.block(guid, b)?;
    step_at(
        sweep,
        guid,
        PortNum::MANAGEMENT,
        AttributeId::LINEAR_FORWARDING_TABLE,
        b as u32,
        *block,
    )
}

/// Builds the steps that set the greatest LID of the plan, if any, at each usable switch that the sweep reached.
pub(crate) fn top_steps(alloc: Global, sweep: &Sweep, plan: &Plan) -> Result<Vec<Step>, AllocError>
    ensures { IfOk result (λ steps. steps.items ≡ top_steps sweep.now plan.now) }
{
    match plan.top() {
        Some(top) => steps_with_top(alloc, sweep, plan, top),
        None => Ok(Vec::new(alloc)),
    }
}

/// Builds the steps that set the greatest LID to `top` at each usable switch that the sweep reached.
#[tactic(auto, using(crate::proofs::Walked::walked_some, crate::proofs::Walked::walked_none))]
fn steps_with_top(
    alloc: Global,
    sweep: &Sweep,
    plan: &Plan,
    top: Lid,
) -> Result<Vec<Step>, AllocError>
    ensures { IfOk result (λ steps. steps.items
        ≡ filter_map (top_step sweep.now top) (switches_of plan.now)) }
{
    let mut steps = Vec::new(alloc);
    for guid in plan.switches() {
        if let Some(step) = top_step(sweep, top, *guid) {
            steps.push(step)?;
        }
    }
    Ok(steps)
}

/// Builds the step that sets the greatest LID of the switch `guid` to `top`, if the sweep reached the switch.
fn top_step(sweep: &Sweep, top: Lid, guid: Guid) -> Option<Step>
    ensures { result ≡ top_step sweep.now top guid }
{
    let read = sweep.switch_image(guid);
    step_at(
        sweep,
        guid,
        PortNum::MANAGEMENT,
        AttributeId::SWITCH_INFO,
        0,
        top_data(read, top),
    )
}

/// Returns the SwitchInfo with `top` as the greatest LID, and all else as `carried_switch` gives it for `read`.
fn top_data(read: Option<SwitchInfo>, top: Lid) -> [u8; 64]
    ensures { result ≡ top_data read top }
{
    let mut info = carried_switch(read);
    info.set_linear_fdb_top(top);
    info.encode()
}
