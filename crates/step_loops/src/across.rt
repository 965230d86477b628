//! The channels that packets for one LID take one after the other while switches change from one table to another.
ghost use Rattle.std.specs.Prelude.{◌≡◌, ◌<◌, ◌*◌, ◌^◌, [], IfOk, OnOk, length};
ghost use Rattle.fact_store.specs.View.{cells_of};
ghost use Rattle.packet_walks.specs.Edges.{edges_of};
ghost use Rattle.step_loops.specs.StepOrder.{IsAddedInStep, IsWithStep};

use audit_channels::{Waits, add_across, add_column, is_same_column};
use packet_walks::LidCursor;
use port_graph::Edge;
use std::alloc::{AllocError, Global};

/// The edges along which packets for one LID leave the switches, under the held tables and under the next ones.
#[derive(Drop)]
pub(crate) struct Columns {
    pub held: Vec<Option<Edge>>,
    pub next: Vec<Option<Edge>>,
}

impl Columns {
    /// Creates columns without vertices.
    pub fn none(alloc: Global) -> Self
        ensures held { result.held.items ≡ [] }
        ensures next { result.next.items ≡ [] }
    {
        Columns {
            held: Vec::new(alloc),
            next: Vec::new(alloc),
        }
    }
}

/// Returns the edges for the LIDs of `held` and `next` under their tables, in the time of `LidCursor::edges` for each.
pub(crate) fn columns_of(
    alloc: Global,
    held: &LidCursor,
    next: &LidCursor,
) -> Result<Columns, AllocError>
    ensures held { IfOk result (λ columns.
        columns.held.items ≡ edges_of (cells_of held.now.seen.facts) held.now.seen.held held.now.lid) }
    ensures next { IfOk result (λ columns.
        columns.next.items ≡ edges_of (cells_of next.now.seen.facts) next.now.seen.held next.now.lid) }
{
    let held_edges = held.edges(alloc)?;
    let next_edges = next.edges(alloc)?;
    Ok(Columns {
        held: held_edges,
        next: next_edges,
    })
}

/// Records in `waits` that a channel follows another if packets for the LID of `columns` take the two in this order,
/// each under the held or the next tables. Equal columns are not added again. Takes time linear in the number of
/// switches. If it is not recorded yet that a switch's channel is followed by the next one, also takes time linear in
/// the number of channels that are recorded to follow it.
pub(crate) fn add_step(
    waits: &mut Waits,
    before: &Columns,
    columns: &Columns,
) -> Result<(), AllocError>
    requires added { IsAddedInStep before.now.held.items before.now.next.items waits.old }
    requires held { length waits.old ≡ 256 * length columns.now.held.items }
    requires next { length waits.old ≡ 256 * length columns.now.next.items }
    requires room { 256 * length columns.now.held.items < 2 ^ 64 }
    ensures { OnOk result (IsWithStep waits.old columns.now.held.items columns.now.next.items waits.new) }
{
    if is_same_column(&columns.held, &before.held) && is_same_column(&columns.next, &before.next) {
        return Ok(());
    }
    if is_same_column(&columns.held, &columns.next) {
        return add_column(waits, &columns.held);
    }
    add_all(waits, &columns.held, &columns.next)
}

/// Records in `waits` which channels follow which, as packets take them, each along an edge of `held` or of `next`.
fn add_all(
    waits: &mut Waits,
    held: &[Option<Edge>],
    next: &[Option<Edge>],
) -> Result<(), AllocError>
    requires held { length waits.old ≡ 256 * length held.now }
    requires next { length waits.old ≡ 256 * length next.now }
    requires room { 256 * length held.now < 2 ^ 64 }
    ensures { OnOk result (IsWithStep waits.old held.now next.now waits.new) }
{
    add_across(waits, held, held)?;
    add_across(waits, held, next)?;
    add_across(waits, next, held)?;
    add_across(waits, next, next)
}
