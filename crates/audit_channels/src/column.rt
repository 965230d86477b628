//! The channels that packets for the same LID take one after the other.
ghost use Rattle.std.specs.Prelude.{◌≡◌, ◌<◌, ◌+◌, ◌*◌, ◌^◌, ◌↔◌, IsTrue, MatchOption, None, OnOk, length};
ghost use Rattle.std.specs.Prelude.{slice_index_or};
ghost use Rattle.audit_channels.specs.Column.{IsTurn, IsWithAcross, IsWithColumn, TakesNone, number_of};

use crate::waits::Waits;
use port_graph::Edge;
use std::alloc::AllocError;

/// Records in `waits`, for each vertex, that the channel of its edge in `column` is followed by the channel of the
/// next vertex's edge. `column` has, for each vertex, the edge along which packets for the same LID leave it, if
/// there is such an edge. The channel of an edge has the number 256 times its vertex, plus its port. `waits` must
/// have 256 channels for each vertex, fewer than 2^64 in all.
pub fn add_column(waits: &mut Waits, column: &[Option<Edge>]) -> Result<(), AllocError>
    requires channels { length waits.old ≡ 256 * length column.now }
    requires room { 256 * length column.now < 2 ^ 64 }
    ensures { OnOk result (IsWithColumn waits.old column.now waits.new) }
{
    add_across(waits, column, column)
}

/// Records in `waits`, for each vertex, that the channel of its edge in `before` is followed by the channel of the
/// next vertex's edge in `now`. Records nothing for a vertex if one of these edges is missing. `waits` must have 256
/// channels for each vertex of each column, fewer than 2^64 in all.
#[tactic(auto, using(crate::proofs::Columns::none_so_far))]
pub fn add_across(
    waits: &mut Waits,
    before: &[Option<Edge>],
    now: &[Option<Edge>],
) -> Result<(), AllocError>
    requires before { length waits.old ≡ 256 * length before.now }
    requires now { length waits.old ≡ 256 * length now.now }
    requires room { 256 * length before.now < 2 ^ 64 }
    ensures { OnOk result (IsWithAcross waits.old before.now now.now waits.new) }
{
    for vertex in 0..before.len() {
        if let Some(turn) = turn_at(before, now, vertex) {
            waits.add(turn.channel, turn.next)?;
        }
    }
    Ok(())
}

/// Returns whether `column` and `other` are equal. Takes time linear in the number of vertices before the first
/// difference.
pub fn is_same_column(column: &[Option<Edge>], other: &[Option<Edge>]) -> bool
    ensures { IsTrue result ↔ (column.now ≡ other.now) }
{
    if column.len() != other.len() {
        return false;
    }
    for (vertex, edge) in column.iter().enumerate() {
        if *edge != other[vertex] {
            return false;
        }
    }
    true
}

/// Two channels that a packet takes one after the other.
#[derive(Clone, Copy)]
struct Turn {
    channel: usize,
    next: usize,
}

/// Returns the channel that a packet takes from `vertex` by `before`, and its next one by `now`, if there are both.
fn turn_at(before: &[Option<Edge>], now: &[Option<Edge>], vertex: usize) -> Option<Turn>
    requires before { 256 * length before.now < 2 ^ 64 }
    requires now { 256 * length now.now < 2 ^ 64 }
    ensures { MatchOption result (TakesNone before.now now.now vertex) (IsTurn before.now now.now vertex) }
{
    let first = edge_of(before, vertex)?;
    let to = first.to;
    let second = edge_of(now, to)?;
    let channel = number_of(vertex, first);
    let next = number_of(to, second);
    Some(Turn { channel, next })
}

/// Returns the edge of `vertex` in `column`, or `None` if there is no such edge. Takes constant time.
pub fn edge_of(column: &[Option<Edge>], vertex: usize) -> Option<Edge>
    ensures { result ≡ slice_index_or column.now vertex None }
{
    column.get(vertex).copied().flatten()
}

/// Returns the number of the channel of `edge`, an edge of `vertex`.
fn number_of(vertex: usize, edge: Edge) -> usize
    requires { 256 * vertex + 256 < 2 ^ 64 + 1 }
    ensures is { result ≡ number_of vertex edge }
    ensures within { result < 256 * vertex + 256 }
{
    256 * vertex + usize::from(edge.port.number())
}
