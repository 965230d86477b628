//! The next entries of the switches for a LID that one end port alone holds, both in the held tables and in the plan.
ghost use Rattle.std.specs.Prelude.{◌≡◌, ◌↔◌, IfOk, IsTrue};
ghost use Rattle.packet_walks.specs.EndsBySwitch.{HaveEnded};
ghost use Rattle.next_tables.specs.SettledEntries.{agreed_by, agreed_of, arrives_by, chosen_by, hops_of, mending_by};
ghost use Rattle.next_tables.specs.SettledEntries.{mending_of, is_whole, next_by, next_of, patch_by, patch_entry_by};

use crate::held_arrivals::{arrives_by, hops};
use packet_walks::ends_by_switch::{ends, is_to};
use packet_walks::{Cause, End, NextHop, SwitchStep};
use std::alloc::{AllocError, Global};
use subnet_view::EndPort;

/// Returns the next entries of the switches for a LID of `port`, by their steps `held` and `plan`. Takes time linear in
/// the number of switches, times the logarithm of the longest walk's length.
pub(crate) fn next_entries(
    alloc: Global,
    port: &EndPort,
    held: &[SwitchStep],
    plan: &[SwitchStep],
) -> Result<Vec<u8>, AllocError>
    ensures { IfOk result (λ entries. entries.items ≡ next_of port.now held.now plan.now) }
{
    let agreed = agreed(alloc, held, plan)?;
    if are_hops_of(&agreed, held) {
        let settled = ends(agreed);
        return entries_by(alloc, port, &settled, &settled, held, plan);
    }
    let settled = ends(agreed);
    let hops = hops(alloc, held)?;
    let delivered = ends(hops);
    entries_by(alloc, port, &settled, &delivered, held, plan)
}

/// Returns the next entries of the switches for a LID of `port`, by the ends of the walks `settled` and `delivered`.
fn entries_by(
    alloc: Global,
    port: &EndPort,
    settled: &[NextHop],
    delivered: &[NextHop],
    held: &[SwitchStep],
    plan: &[SwitchStep],
) -> Result<Vec<u8>, AllocError>
    requires settled { HaveEnded (agreed_of held.now plan.now) settled.now }
    requires delivered { HaveEnded (hops_of held.now) delivered.now }
    ensures { IfOk result (λ entries. entries.items ≡ next_of port.now held.now plan.now) }
{
    if is_whole(port, settled, delivered, held, plan) {
        return chosen(alloc, port, settled, delivered, &[], held, plan);
    }
    let mending = mending(alloc, port, delivered, held, plan)?;
    let mended = ends(mending);
    chosen(alloc, port, settled, delivered, &mended, held, plan)
}

/// Returns whether `hops` are the next hops of `steps`, in the order of `steps`.
fn are_hops_of(hops: &[NextHop], steps: &[SwitchStep]) -> bool
    ensures { IsTrue result ↔ (hops.now ≡ hops_of steps.now) }
{
    if hops.len() != steps.len() {
        return false;
    }
    for (index, hop) in hops.iter().enumerate() {
        if !is_same_hop(hop, &steps[index].hop) {
            return false;
        }
    }
    true
}

/// Returns whether `hop` and `other` are equal.
fn is_same_hop(hop: &NextHop, other: &NextHop) -> bool
    ensures { IsTrue result ↔ (hop.now ≡ other.now) }
{
    *hop == *other
}

/// Returns, for each switch, the plan's next hop if its entries in both tables are equal, and otherwise a drop.
fn agreed(
    alloc: Global,
    held: &[SwitchStep],
    plan: &[SwitchStep],
) -> Result<Vec<NextHop>, AllocError>
    ensures { IfOk result (λ agreed. agreed.items ≡ agreed_of held.now plan.now) }
{
    held.iter()
        .zip(plan.iter())
        .map(|(held, plan)| agreed_by(held, plan))
        .collect(alloc)
}

/// Returns the plan's next hop of a switch if its entries in both tables are equal, and otherwise a drop.
fn agreed_by(held: &SwitchStep, plan: &SwitchStep) -> NextHop
    ensures { result ≡ agreed_by (held.now, plan.now) }
{
    if held.entry == plan.entry {
        plan.hop
    } else {
        NextHop::Ends(End::Lost(held.switch, Cause::NoEntry))
    }
}

/// Returns whether from each switch the plan's hop leads to `port` by `settled`, or the held hop by `delivered`.
fn is_whole(
    port: &EndPort,
    settled: &[NextHop],
    delivered: &[NextHop],
    held: &[SwitchStep],
    plan: &[SwitchStep],
) -> bool
    ensures { result ≡ is_whole (arrives_by port.now settled.now) (arrives_by port.now delivered.now)
        held.now plan.now }
{
    held.iter().zip(plan.iter()).all(|(held, plan)| arrives_by(port, settled, plan.hop)
        || arrives_by(port, delivered, held.hop))
}

/// Returns the next hop of each switch while mending, by the ends `delivered` of the walks under the held tables.
fn mending(
    alloc: Global,
    port: &EndPort,
    delivered: &[NextHop],
    held: &[SwitchStep],
    plan: &[SwitchStep],
) -> Result<Vec<NextHop>, AllocError>
    ensures { IfOk result (λ mending. mending.items
        ≡ mending_of port.now (arrives_by port.now delivered.now) held.now plan.now) }
{
    held.iter()
        .zip(plan.iter())
        .map(|(held, plan)| mending_by(port, delivered, held, plan))
        .collect(alloc)
}

/// Returns the next hop of a switch while mending: delivery at `port` if the held tables deliver from it, otherwise the
/// held hop if it leads to a switch, otherwise the plan's hop.
fn mending_by(
    port: &EndPort,
    delivered: &[NextHop],
    held: &SwitchStep,
    plan: &SwitchStep,
) -> NextHop
    ensures { result ≡ mending_by port.now (arrives_by port.now delivered.now) (held.now, plan.now) }
{
    if arrives_by(port, delivered, held.hop) {
        NextHop::Ends(End::Taken(*port))
    } else {
        patch_by(held, plan)
    }
}

/// Returns the held hop if it leads to a switch, otherwise the plan's hop.
fn patch_by(held: &SwitchStep, plan: &SwitchStep) -> NextHop
    ensures { result ≡ patch_by (held.now, plan.now) }
{
    if is_to(&held.hop) { held.hop } else { plan.hop }
}

/// Returns the held entry if the held hop leads to a switch, otherwise the plan's entry.
fn patch_entry_by(held: &SwitchStep, plan: &SwitchStep) -> u8
    ensures { result ≡ patch_entry_by (held.now, plan.now) }
{
    if is_to(&held.hop) {
        held.entry
    } else {
        plan.entry
    }
}

/// Returns the next entry of each switch, by the ends of the walks `settled`, `delivered` and `mended`.
fn chosen(
    alloc: Global,
    port: &EndPort,
    settled: &[NextHop],
    delivered: &[NextHop],
    mended: &[NextHop],
    held: &[SwitchStep],
    plan: &[SwitchStep],
) -> Result<Vec<u8>, AllocError>
    ensures { IfOk result (λ entries. entries.items ≡ chosen_by port.now (arrives_by port.now settled.now)
        (arrives_by port.now delivered.now) (arrives_by port.now mended.now) held.now plan.now) }
{
    held.iter()
        .zip(plan.iter())
        .map(|(held, plan)| next_by(port, settled, delivered, mended, held, plan))
        .collect(alloc)
}

/// Returns the next entry of a switch: the plan's if it arrives by `settled`, else the held one if it arrives by
/// `delivered`, else the one while mending if it arrives by `mended`, else 255.
fn next_by(
    port: &EndPort,
    settled: &[NextHop],
    delivered: &[NextHop],
    mended: &[NextHop],
    held: &SwitchStep,
    plan: &SwitchStep,
) -> u8
    ensures { result ≡ next_by port.now (arrives_by port.now settled.now)
        (arrives_by port.now delivered.now) (arrives_by port.now mended.now) (held.now, plan.now) }
{
    if arrives_by(port, settled, plan.hop) {
        plan.entry
    } else if arrives_by(port, delivered, held.hop) {
        held.entry
    } else if arrives_by(port, mended, mending_by(port, delivered, held, plan)) {
        patch_entry_by(held, plan)
    } else {
        255
    }
}
