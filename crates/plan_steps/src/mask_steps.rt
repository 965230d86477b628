//! The steps that set multicast forwarding tables.
ghost use Rattle.std.specs.Prelude.{◌≡◌, ◌++◌, ◌<◌, IfOk, OnOk};
ghost use Rattle.fact_store.specs.View.{cells_of};
ghost use Rattle.plan_steps.specs.MaskSteps.{clear_steps, has_table, mask_of, mask_step, mask_with, masks_data, position_count};
ghost use Rattle.plan_steps.specs.MaskSteps.{switch_mask_steps, tree_steps};

use crate::step::{Step, step_at};
use attr_codec::SwitchInfo;
use fact_store::Store;
use multicast_tree::SwitchPorts;
use smp_bytes::wire::put_u16;
use smp_bytes::{AttributeId, Guid, PortNum};
use std::alloc::{AllocError, Global};
use subnet_view::port_count;
use sweep::Sweep;

/// Builds the steps that set the masks of `tree` at its switches, as far as the sweep reached them.
pub(crate) fn tree_steps(
    alloc: Global,
    store: &Store,
    sweep: &Sweep,
    tree: &[SwitchPorts],
) -> Result<Vec<Step>, AllocError>
    ensures { IfOk result (λ steps. steps.items ≡ tree_steps (cells_of store.now) sweep.now tree.now) }
{
    let mut steps = Vec::new(alloc);
    for switch in tree {
        add_mask_steps(&mut steps, store, sweep, switch.guid(), switch.ports())?;
    }
    Ok(steps)
}

/// Builds the steps that take all ports out of the masks at the switches of `tree`, as far as the sweep reached them.
pub(crate) fn clear_steps(
    alloc: Global,
    store: &Store,
    sweep: &Sweep,
    tree: &[SwitchPorts],
) -> Result<Vec<Step>, AllocError>
    ensures { IfOk result (λ steps. steps.items ≡ clear_steps (cells_of store.now) sweep.now tree.now) }
{
    let mut steps = Vec::new(alloc);
    for switch in tree {
        add_mask_steps(&mut steps, store, sweep, switch.guid(), &[])?;
    }
    Ok(steps)
}

/// Appends to `steps` those that set the masks of the switch `guid` to `ports`, if it has a multicast forwarding table.
#[tactic(auto, using(crate::proofs::Ranges::given_some, crate::proofs::Ranges::given_none))]
fn add_mask_steps(
    steps: &mut Vec<Step>,
    store: &Store,
    sweep: &Sweep,
    guid: Guid,
    ports: &[PortNum],
) -> Result<(), AllocError>
    ensures { OnOk result (steps.new.items
        ≡ steps.old.items ++ switch_mask_steps (cells_of store.now) sweep.now ports.now guid) }
{
    if !has_table(sweep.switch_image(guid)) {
        return Ok(());
    }
    for position in 0..position_count(store, guid) {
        if let Some(step) = mask_step(sweep, guid, ports, position) {
            steps.push(step)?;
        }
    }
    Ok(())
}

/// Returns whether a switch has a multicast forwarding table, by the SwitchInfo that was read of it.
fn has_table(read: Option<SwitchInfo>) -> bool
    ensures { result ≡ has_table read }
{
    match read {
        Some(info) => info.multicast_fdb_cap() > 0,
        None => false,
    }
}

/// Returns the number of positions in the multicast forwarding table of the switch `guid`.
fn position_count(store: &Store, guid: Guid) -> usize
    ensures count { result ≡ position_count (cells_of store.now) guid }
    ensures few { result < 17 }
{
    usize::from(port_count(store, guid)) / 16 + 1
}

/// Builds the step that sets the mask of `ports` at `position`, if the sweep reached the switch `guid`.
fn mask_step(sweep: &Sweep, guid: Guid, ports: &[PortNum], position: usize) -> Option<Step>
    requires { position < 16 }
    ensures { result ≡ mask_step sweep.now guid ports.now position }
{
    step_at(
        sweep,
        guid,
        PortNum::MANAGEMENT,
        AttributeId::MULTICAST_FORWARDING_TABLE,
        0x1000_0000 * position as u32,
        masks_data(mask_of(ports, position)),
    )
}

/// Returns the mask that has those of `ports` that have the position `position`.
fn mask_of(ports: &[PortNum], position: usize) -> u16
    ensures { result ≡ mask_of ports.now position }
{
    let mut mask = 0;
    for port in ports {
        mask = mask_with(position, mask, *port);
    }
    mask
}

/// Returns `mask` with the bit of `port`, if the port has the position `position`.
fn mask_with(position: usize, mask: u16, port: PortNum) -> u16
    ensures { result ≡ mask_with position mask port }
{
    if usize::from(port.number()) / 16 == position {
        mask | 1 << (port.number() % 16)
    } else {
        mask
    }
}

/// Returns the block in which the first multicast LID has the mask `mask`.
fn masks_data(mask: u16) -> [u8; 64]
    ensures { result ≡ masks_data mask }
{
    let mut data = [0; 64];
    put_u16(&mut data, 0, mask);
    data
}
