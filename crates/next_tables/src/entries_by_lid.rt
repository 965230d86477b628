//! The next entries, LID by LID.
ghost use Rattle.std.specs.Prelude.{◌≡◌, ◌↔◌, ◌==◌, ◌≤◌, ◌*◌, IfOk, IsTrue, length, map, replicate, slice_get};
ghost use Rattle.std.specs.List.{range_with_len};
ghost use Rattle.fact_store.specs.View.{cells_of};
ghost use Rattle.next_tables.specs.NextTables.{by_order, column_of, keeper, kept_by, settled_first, value_of};

use crate::ordered_entries::ordered_entries;
use crate::settled_entries::next_entries;
use crate::step_rule::StepRule;
use packet_walks::{LidCursor, Network, is_same_end};
use smp_bytes::{Lid, NO_ENTRY};
use std::alloc::{AllocError, Global};
use subnet_view::EndPort;

/// Returns, for each LID of the first `count` blocks, the next entries of all usable switches, by `rule`.
pub(crate) fn columns(
    alloc: Global,
    rule: &StepRule,
    held: &Network,
    plan: &Network,
    count: usize,
) -> Result<Vec<Vec<u8>>, AllocError>
    requires facts { plan.now.facts ≡ held.now.facts }
    requires few { count ≤ 1024 }
    ensures { IfOk result (λ columns. map (λ column. column.items) columns.items
        ≡ map (column_of (cells_of held.now.facts) (value_of rule.now) held.now.held plan.now.held)
        (range_with_len 0 (64 * count))) }
{
    let mut columns = Vec::with_capacity(alloc, 64 * count)?;
    let mut held_at = LidCursor::of(alloc, held)?;
    let mut plan_at = LidCursor::with_deliveries(alloc, plan)?;
    for number in 0..64 * count {
        let lid = Lid::new(number as u16);
        held_at.go_to(alloc, lid)?;
        plan_at.go_to(alloc, lid)?;
        columns.push(column(alloc, rule, &held_at, &plan_at)?)?;
    }
    Ok(columns)
}

/// Returns the next entry of each usable switch, by `rule`, for the LID that both cursors are at.
fn column(
    alloc: Global,
    rule: &StepRule,
    held: &LidCursor,
    plan: &LidCursor,
) -> Result<Vec<u8>, AllocError>
    requires facts { plan.now.seen.facts ≡ held.now.seen.facts }
    requires lid { plan.now.lid ≡ held.now.lid }
    ensures { IfOk result (λ column. column.items ≡ column_of (cells_of held.now.seen.facts) (value_of rule.now)
        held.now.seen.held plan.now.seen.held held.now.lid) }
{
    match rule {
        StepRule::SettledFirst => settled_column(alloc, held, plan),
        StepRule::ByOrder(positions) => ordered_column(alloc, positions, held, plan),
    }
}

/// Returns the next entry of each usable switch, by the order `positions`, for the LID that both cursors are at.
fn ordered_column(
    alloc: Global,
    positions: &[usize],
    held: &LidCursor,
    plan: &LidCursor,
) -> Result<Vec<u8>, AllocError>
    requires facts { plan.now.seen.facts ≡ held.now.seen.facts }
    requires lid { plan.now.lid ≡ held.now.lid }
    ensures { IfOk result (λ column. column.items ≡ column_of (cells_of held.now.seen.facts) (by_order positions.now)
        held.now.seen.held plan.now.seen.held held.now.lid) }
{
    let planned = plan.owners(alloc)?;
    let Some(port) = first_owner(&planned) else {
        return no_entries(alloc, held.network().switch_count());
    };
    if plan.is_delivered() {
        let before = held.entries(alloc)?;
        let entries = plan.entries(alloc)?;
        if are_same(&before, &entries) {
            return Ok(entries);
        }
    }
    let held_steps = held.switch_steps(alloc)?;
    let plan_steps = plan.switch_steps(alloc)?;
    ordered_entries(alloc, &port, positions, &held_steps, &plan_steps)
}

/// Returns the next entry of each usable switch, by settled entries, for the LID that both cursors are at.
fn settled_column(alloc: Global, held: &LidCursor, plan: &LidCursor) -> Result<Vec<u8>, AllocError>
    requires facts { plan.now.seen.facts ≡ held.now.seen.facts }
    requires lid { plan.now.lid ≡ held.now.lid }
    ensures { IfOk result (λ column. column.items ≡ column_of (cells_of held.now.seen.facts) settled_first
        held.now.seen.held plan.now.seen.held held.now.lid) }
{
    let planned = plan.owners(alloc)?;
    if is_nobodys(&planned) {
        return no_entries(alloc, held.network().switch_count());
    }
    let entries = plan.entries(alloc)?;
    let owners = held.owners(alloc)?;
    let Some(port) = keeper(&planned, &owners) else {
        return Ok(entries);
    };
    let before = held.entries(alloc)?;
    if plan.is_delivered() && are_same(&before, &entries) {
        return Ok(entries);
    }
    let held_steps = held.switch_steps(alloc)?;
    let plan_steps = plan.switch_steps(alloc)?;
    next_entries(alloc, &port, &held_steps, &plan_steps)
}

/// Returns the first of `owners`, or `None` if there is none.
pub fn first_owner(owners: &[EndPort]) -> Option<EndPort>
    ensures { result ≡ slice_get owners.now 0 }
{
    owners.first().copied()
}

/// Returns whether `owners` is empty.
fn is_nobodys(owners: &[EndPort]) -> bool
    ensures { result ≡ (length owners.now == 0) }
{
    owners.is_empty()
}

/// Returns `count` entries of 255.
pub fn no_entries(alloc: Global, count: usize) -> Result<Vec<u8>, AllocError>
    ensures { IfOk result (λ entries. entries.items ≡ replicate count 255) }
{
    vec![in alloc; NO_ENTRY; count]
}

/// Returns whether `entries` and `others` are equal.
fn are_same(entries: &[u8], others: &[u8]) -> bool
    ensures { IsTrue result ↔ (entries.now ≡ others.now) }
{
    entries == others
}

/// Returns the end port that alone owns a LID both in the plan (`planned`) and in the held tables (`held`), if any.
fn keeper(planned: &[EndPort], held: &[EndPort]) -> Option<EndPort>
    ensures { result ≡ keeper planned.now held.now }
{
    match planned {
        [port] => kept_by(port, held),
        _ => None,
    }
}

/// Returns `port` if it is the only end port in `held`, otherwise `None`.
fn kept_by(port: &EndPort, held: &[EndPort]) -> Option<EndPort>
    ensures { result ≡ kept_by port.now held.now }
{
    match held {
        [other] if is_same_end(port, other) => Some(*port),
        _ => None,
    }
}
