//! The LIDs for which packets wait in a credit loop of a step.
ghost use Rattle.std.specs.Prelude.{◌≡◌, ◌↔◌, IfOk, IsTrue, length, replicate};
ghost use Rattle.fact_store.specs.View.{cells_of};
ghost use Rattle.audit_channels.specs.Column.{number_of};
ghost use Rattle.step_loops.specs.LidsInLoop.{AreLoopLids, AreNoted, IsNoted, TakesFrom, TakesHere, are_known, turned};
ghost use Rattle.audit_channels.specs.ChannelOrders.{IsCycle};
ghost use Rattle.step_loops.specs.StepOrder.{WaitsFor};

use crate::across::columns_of;
use audit_channels::edge_of;
use next_tables::greater;
use packet_walks::{LidCursor, Network};
use port_graph::Edge;
use smp_bytes::Lid;
use std::alloc::{AllocError, Global};

/// Returns, for each channel of the credit loop `cycle` of a step, the least LID for which packets that hold the
/// channel wait for the next one. After the last channel comes the first. Packets may take each of the two channels
/// under the held or the next tables. `held` and `next` must have the same facts, and `cycle` must be a credit loop
/// of the step. Goes through the LIDs until each channel has one. For each LID, takes time linear in the number of
/// switches and in the number of channels.
pub fn loop_lids(
    alloc: Global,
    held: &Network,
    next: &Network,
    cycle: &[usize],
) -> Result<Vec<Lid>, AllocError>
    requires facts { next.now.facts ≡ held.now.facts }
    requires cycle { IsCycle (WaitsFor (cells_of held.now.facts) held.now.held next.now.held) cycle.now }
    ensures { IfOk result (λ lids.
        AreLoopLids (cells_of held.now.facts) held.now.held next.now.held cycle.now lids.items) }
{
    let after = turned(alloc, cycle)?;
    let mut lids = none_known(alloc, cycle.len())?;
    let mut held_at = LidCursor::of(alloc, held)?;
    let mut next_at = LidCursor::of(alloc, next)?;
    for below in 0..greater(held.greatest_top(), next.greatest_top()).number() {
        if are_known(&lids) {
            return Ok(lids);
        }
        let lid = Lid::new(below + 1);
        held_at.go_to(alloc, lid)?;
        next_at.go_to(alloc, lid)?;
        let columns = columns_of(alloc, &held_at, &next_at)?;
        note_lid(&mut lids, cycle, &after, &columns.held, &columns.next, lid);
    }
    Ok(lids)
}

/// Returns, for each channel of `cycle`, the channel after it. After the last comes the first.
fn turned(alloc: Global, cycle: &[usize]) -> Result<Vec<usize>, AllocError>
    ensures { IfOk result (λ after. after.items ≡ turned cycle.now) }
{
    let Some((first, later)) = cycle.split_first() else {
        return Ok(Vec::new(alloc));
    };
    let mut after = Vec::from_slice(alloc, later)?;
    after.push(*first)?;
    Ok(after)
}

/// Returns a list of `count` zeros, which stand for unknown LIDs.
fn none_known(alloc: Global, count: usize) -> Result<Vec<Lid>, AllocError>
    ensures { IfOk result (λ lids. lids.items ≡ replicate count 0) }
{
    vec![in alloc; Lid::NONE; count]
}

/// Returns whether all `lids` are known: none of them is 0.
fn are_known(lids: &[Lid]) -> bool
    ensures { result ≡ are_known lids.now }
{
    lids.iter().all(|lid| *lid != Lid::NONE)
}

/// Sets `lid`, in `lids`, for each channel of `cycle` that has no LID yet, if packets for `lid` hold the channel and
/// wait for that of `after`, each along an edge of `held` or of `next`.
fn note_lid(
    lids: &mut [Lid],
    cycle: &[usize],
    after: &[usize],
    held: &[Option<Edge>],
    next: &[Option<Edge>],
    lid: Lid,
)
    requires cycle { length cycle.now ≡ length lids.old }
    requires after { length after.now ≡ length lids.old }
    ensures { AreNoted held.now next.now lid cycle.now after.now lids.old lids.new }
{
    for index in 0..lids.len() {
        lids[index] = noted(cycle[index], after[index], held, next, lid, lids[index]);
    }
}

/// Returns `lid` if `known` is 0 and packets for it hold `channel` and wait for `other` (`waits`), otherwise `known`.
fn noted(
    channel: usize,
    other: usize,
    held: &[Option<Edge>],
    next: &[Option<Edge>],
    lid: Lid,
    known: Lid,
) -> Lid
    ensures { IsNoted held.now next.now lid channel other known result }
{
    if known == Lid::NONE && waits(channel, other, held, next) {
        lid
    } else {
        known
    }
}

/// Returns whether packets take `channel` and then `other`, each along an edge of `held` or of `next`.
fn waits(channel: usize, other: usize, held: &[Option<Edge>], next: &[Option<Edge>]) -> bool
    ensures { IsTrue result ↔ TakesHere held.now next.now channel other }
{
    takes(channel, other, held, held)
        || takes(channel, other, held, next)
        || takes(channel, other, next, held)
        || takes(channel, other, next, next)
}

/// Returns whether packets take `channel`, along an edge in `before`, and then `other`, along an edge in `now`.
fn takes(channel: usize, other: usize, before: &[Option<Edge>], now: &[Option<Edge>]) -> bool
    ensures { IsTrue result ↔ TakesFrom before.now now.now channel other }
{
    let Some(first) = edge_of(before, channel / 256) else {
        return false;
    };
    let to = first.to;
    let Some(second) = edge_of(now, to) else {
        return false;
    };
    is_channel(channel, channel / 256, first) && is_channel(other, to, second)
}

/// Returns whether `channel` is the channel of `edge`, an edge of `vertex`.
fn is_channel(channel: usize, vertex: usize, edge: Edge) -> bool
    ensures { IsTrue result ↔ (channel ≡ number_of vertex edge) }
{
    channel / 256 == vertex && channel % 256 == usize::from(edge.port.number())
}
