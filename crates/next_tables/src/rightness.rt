//! Whether tables are right by an order of the switches.
ghost use Rattle.std.specs.Prelude.{◌≡◌, IfOk};
ghost use Rattle.fact_store.specs.View.{cells_of};
ghost use Rattle.next_tables.specs.SwitchPositions.{position_at};
ghost use Rattle.next_tables.specs.Rightness.{are_right, goes_well, is_right_column, leaves_up};

use crate::switch_positions::{is_down, is_up};
use audit_channels::edge_of;
use packet_walks::{LidCursor, Network};
use port_graph::Edge;
use smp_bytes::Lid;
use std::alloc::{AllocError, Global};

/// Returns whether no packet, for any LID, goes down and then up again under the tables of `held`, in the order that
/// `positions` gives. `positions` has the position of each usable switch, in ascending order of GUID. Takes the time
/// of `LidCursor::go_to` and `LidCursor::edges` for each LID up to the greatest top.
pub fn are_right(alloc: Global, held: &Network, positions: &[usize]) -> Result<bool, AllocError>
    ensures { IfOk result (λ right.
        right ≡ are_right (cells_of held.now.facts) (position_at positions.now) held.now.held) }
{
    let mut cursor = LidCursor::of(alloc, held)?;
    for below in 0..held.greatest_top().number() {
        cursor.go_to(alloc, Lid::new(below + 1))?;
        let edges = cursor.edges(alloc)?;
        if !is_right_column(positions, &edges) {
            return Ok(false);
        }
    }
    Ok(true)
}

/// Returns whether packets along `edges`, one at most from each switch, never go down and then up by `positions`.
fn is_right_column(positions: &[usize], edges: &[Option<Edge>]) -> bool
    ensures { result ≡ is_right_column (position_at positions.now) edges.now }
{
    (0..edges.len()).all(|index| goes_well(positions, edges, index))
}

/// Returns whether no packet leaves the switch at `index` on a channel down and then the next one on a channel up.
fn goes_well(positions: &[usize], edges: &[Option<Edge>], index: usize) -> bool
    ensures { result ≡ goes_well (position_at positions.now) edges.now index }
{
    match edge_of(edges, index) {
        Some(edge) => !(is_down(positions, index, edge.to) && leaves_up(positions, edges, edge.to)),
        None => true,
    }
}

/// Returns whether packets leave the switch at `index` on a channel up.
fn leaves_up(positions: &[usize], edges: &[Option<Edge>], index: usize) -> bool
    ensures { result ≡ leaves_up (position_at positions.now) edges.now index }
{
    match edge_of(edges, index) {
        Some(edge) => is_up(positions, index, edge.to),
        None => false,
    }
}
