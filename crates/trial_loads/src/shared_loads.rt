//! How packets are shared out among candidates.
ghost use Rattle.std.specs.Prelude.{◌≡◌, ◌<◌, ◌≤◌, ◌*◌, All, IfOk, OnOk, count_by, filter, length, not};
ghost use Rattle.spread_labels.specs.MarkSets.{picked};
ghost use Rattle.spread_labels.specs.Orders.{numbers_from};
ghost use Rattle.spread_labels.specs.TargetSet.{has};
ghost use Rattle.trial_loads.specs.TrialLoads.{candidates_in, carried_between, carried_to, first_had};
ghost use Rattle.trial_loads.specs.TrialLoads.{goes_up, last_first, shared, with_shares, loads_by};

use crate::adapter_graph::AdapterGraph;
use crate::candidate_ways::CandidateWays;
use crate::upward::upward;
use balanced_choices::{PORTS, no_loads};
use port_graph::Edge;
use spread_labels::{CandidateSets, TARGETS, TargetSet, leaf_vertices};
use std::alloc::{AllocError, Global};

/// The number of packets from each adapter to each adapter, in a trial.
const PACKETS: usize = 65_536;

/// Adds to the load of each channel the packets that it carries from all adapters to the adapters of each of `targets`.
pub(crate) fn add_packets_between(
    alloc: Global,
    graph: &AdapterGraph,
    targets: &[usize],
    loads: &mut [usize],
) -> Result<(), AllocError>
    requires few { length targets.now ≤ 64 }
    requires targets { All (λ target. target < length graph.now.edges.now) targets.now }
    requires loads { length loads.old ≡ 256 * length graph.now.edges.now }
    ensures { OnOk result (loads.new
        ≡ carried_between graph.now.edges.now graph.now.adapters.now loads.old targets.now) }
{
    let (edges, adapters) = (graph.edges, graph.adapters);
    let sets = CandidateSets::towards(alloc, edges, targets)?;
    let ups = upward(alloc, edges, &sets)?;
    let ways = CandidateWays {
        graph: edges,
        sets: &sets,
        ups: &ups,
    };
    let mut had = vec![in alloc; 0; edges.len()]?;
    for k in 0..targets.len() {
        start(adapters, adapters[targets[k]], &mut had);
        add_packets_to(&ways, k, &mut had, loads);
    }
    Ok(())
}

/// Adds to the load of each channel the packets that it carries to target `k`, by the candidates of `ways`. `had` has
/// the packets that each position starts with, and gets those that reach it on the way added.
fn add_packets_to(ways: &CandidateWays, k: usize, had: &mut [usize], loads: &mut [usize])
    requires target { k < 64 }
    requires had { length had.old ≡ length ways.now.graph.now }
    requires loads { length loads.old ≡ 256 * length ways.now.graph.now }
    ensures { loads.new
        ≡ carried_to (candidates_in ways.now.graph.now ways.now.sets.now k) (length ways.now.graph.now)
        had.old loads.old }
{
    share_up(ways, k, had, loads);
    share_down(ways, k, had, loads);
}

/// Sets `had` to the packets of each position to a target with `to` adapters: `PACKETS` for each pair of adapters.
fn start(adapters: &[u16], to: u16, had: &mut [usize])
    requires { length adapters.now ≡ length had.old }
    ensures { had.new ≡ first_had to adapters.now }
{
    for (position, from) in adapters.iter().enumerate() {
        had[position] = PACKETS * usize::from(*from) * usize::from(to);
    }
}

/// Shares out the packets of each position with a candidate up towards target `k`, from the last to the first.
fn share_up(ways: &CandidateWays, k: usize, had: &mut [usize], loads: &mut [usize])
    requires target { k < 64 }
    requires had { length had.old ≡ length ways.now.graph.now }
    requires loads { length loads.old ≡ 256 * length ways.now.graph.now }
    ensures { record { had = had.new; carried = loads.new }
        ≡ shared (candidates_in ways.now.graph.now ways.now.sets.now k)
        (filter (goes_up (candidates_in ways.now.graph.now ways.now.sets.now k))
        (last_first (length ways.now.graph.now)))
        (record { had = had.old; carried = loads.old }) }
{
    for position in (0..ways.graph.len()).rev() {
        if ways.ups[position].has(k) {
            let (edges, sets) = (ways.graph.at(position), ways.sets.at(position));
            share(edges, sets, k, position, had, loads);
        }
    }
}

/// Shares out the packets of each position without a candidate up towards target `k`, from the first to the last.
fn share_down(ways: &CandidateWays, k: usize, had: &mut [usize], loads: &mut [usize])
    requires target { k < 64 }
    requires had { length had.old ≡ length ways.now.graph.now }
    requires loads { length loads.old ≡ 256 * length ways.now.graph.now }
    ensures { record { had = had.new; carried = loads.new }
        ≡ shared (candidates_in ways.now.graph.now ways.now.sets.now k)
        (filter (λ s. not (goes_up (candidates_in ways.now.graph.now ways.now.sets.now k) s))
        (numbers_from 0 (length ways.now.graph.now)))
        (record { had = had.old; carried = loads.old }) }
{
    for position in 0..ways.graph.len() {
        if !ways.ups[position].has(k) {
            let (edges, sets) = (ways.graph.at(position), ways.sets.at(position));
            share(edges, sets, k, position, had, loads);
        }
    }
}

/// Shares out the packets of `position` evenly among its candidates towards target `k`, and drops the remainder.
fn share(
    edges: &[Edge],
    sets: &[TargetSet],
    k: usize,
    position: usize,
    had: &mut [usize],
    loads: &mut [usize],
)
    requires target { k < 64 }
    requires all { length sets.now ≡ length edges.now }
    requires vertices { All (λ edge. edge.to < length had.old) edges.now }
    requires position { position < length had.old }
    requires loads { length loads.old ≡ 256 * length had.old }
    ensures { record { had = had.new; carried = loads.new }
        ≡ with_shares position (picked k sets.now edges.now) (record { had = had.old; carried = loads.old }) }
{
    if had[position] == 0 {
        return;
    }
    let count = count_having(sets, k);
    if count == 0 {
        return;
    }
    let share = had[position] / count;
    for (j, edge) in edges.iter().enumerate() {
        if sets[j].has(k) {
            let channel = PORTS * position + usize::from(edge.port.number());
            loads[channel] = loads[channel].saturating_add(share);
            had[edge.to] = had[edge.to].saturating_add(share);
        }
    }
}

/// Returns how many of `sets` have `target`.
fn count_having(sets: &[TargetSet], target: usize) -> usize
    requires { target < 64 }
    ensures { result ≡ count_by (λ set. has set target) sets.now }
{
    let mut count = 0;
    for set in sets {
        if set.has(target) {
            count += 1;
        }
    }
    count
}

/// Returns how many packets each channel carries if each adapter sends 65,536 packets to each adapter. Counts the
/// packets to 64 targets at a time.
pub(crate) fn loads_by(alloc: Global, graph: &AdapterGraph) -> Result<Vec<usize>, AllocError>
    ensures { IfOk result (λ loads. loads.items ≡ loads_by graph.now.edges.now graph.now.adapters.now) }
{
    let targets = leaf_vertices(alloc, graph.adapters)?;
    let mut loads = no_loads(alloc, graph.edges.len())?;
    let mut first = 0;
    while first < targets.len() {
        let end = first + TARGETS.min(targets.len() - first);
        add_packets_between(alloc, graph, &targets[first..end], &mut loads)?;
        first = end;
    }
    Ok(loads)
}
