//! The ways of packets, and the loads of the channels that they take.
ghost use Rattle.std.specs.Prelude.{◌≡◌, ◌<◌, ◌+◌, ◌*◌, IfSome, None, length, map, min, slice_index, slice_index_or};
ghost use Rattle.spread_labels.specs.Level.{greatest};
ghost use Rattle.balanced_choices.specs.EdgesTaken.{lightest_by, peak_by, way_by};
ghost use Rattle.balanced_choices.specs.Ways.{changed, with_changes};

use crate::loads::PORTS;
use port_graph::{Adjacency, Edge};

/// A change of a load: packets are added or removed.
#[derive(Clone, Copy)]
pub(crate) enum Change {
    Add(usize),
    Remove(usize),
}

/// Returns `load` after `change`, but no less than 0 and no more than 2^64 - 1.
fn changed(change: Change, load: usize) -> usize
    ensures { result ≡ changed change load }
{
    match change {
        Change::Add(packets) => load.saturating_add(packets),
        Change::Remove(packets) => load.saturating_sub(packets),
    }
}

/// Makes `change` to the load of each channel of the way from position `from`, by the edges `taken` at each.
pub(crate) fn change_way(taken: &[Option<Edge>], loads: &mut [usize], from: usize, change: Change)
    requires { length loads.old ≡ 256 * length taken.now }
    ensures { loads.new ≡ with_changes change loads.old (way_by taken.now from) }
{
    let mut position = from;
    for _ in 0..taken.len() {
        match edge_at(taken, position) {
            Some(edge) => {
                let channel = PORTS * position + usize::from(edge.port.number());
                loads[channel] = changed(change, loads[channel]);
                position = edge.to;
            }
            None => return,
        }
    }
}

/// Returns the edge that is taken at `position`, or `None` if no edge is taken there.
fn edge_at(taken: &[Option<Edge>], position: usize) -> Option<Edge>
    ensures edge { result ≡ slice_index_or taken.now position None }
    ensures position { IfSome result (λ edge. position < length taken.now) }
{
    match taken.get(position) {
        Some(edge) => *edge,
        None => None,
    }
}

/// Returns the number, up to 255, of the candidate of `position` whose way by `taken` has the least peak load, or 0.
pub(crate) fn lightest(
    ways: &Adjacency,
    taken: &[Option<Edge>],
    loads: &[usize],
    position: usize,
) -> u8
    requires position { position < length ways.now }
    requires taken { length taken.now ≡ length ways.now }
    requires loads { length loads.now ≡ 256 * length ways.now }
    ensures { result ≡ lightest_by ways.now taken.now loads.now position }
{
    let edges = ways.at(position);
    if edges.len() < 2 {
        return 0;
    }
    let mut best = 0;
    let mut least = usize::MAX;
    for k in 0..edges.len().min(PORTS) {
        let peak = peak(taken, loads, position, edges[k], least);
        if peak < least {
            best = k;
            least = peak;
        }
    }
    best as u8
}

/// Returns the greatest load on the way from `position` that begins with `edge`, or one of at least `enough`.
fn peak(
    taken: &[Option<Edge>],
    loads: &[usize],
    position: usize,
    edge: Edge,
    enough: usize,
) -> usize
    requires loads { length loads.now ≡ 256 * length taken.now }
    requires position { position < length taken.now }
    ensures { min result enough ≡ min (peak_by taken.now loads.now position edge) enough }
{
    let channel = PORTS * position + usize::from(edge.port.number());
    peak_from(taken, loads, edge.to, loads[channel], enough)
}

/// Returns the greatest of `found` and the loads of the way from `from`, or another of them that is at least `enough`.
fn peak_from(
    taken: &[Option<Edge>],
    loads: &[usize],
    from: usize,
    found: usize,
    enough: usize,
) -> usize
    requires { length loads.now ≡ 256 * length taken.now }
    ensures { min result enough
        ≡ min (greatest found (map (λ c. slice_index loads.now c) (way_by taken.now from))) enough }
{
    let mut peak = found;
    let mut position = from;
    for _ in 0..taken.len() {
        if peak >= enough {
            return peak;
        }
        match edge_at(taken, position) {
            Some(edge) => {
                let channel = PORTS * position + usize::from(edge.port.number());
                peak = peak.max(loads[channel]);
                position = edge.to;
            }
            None => return peak,
        }
    }
    peak
}
