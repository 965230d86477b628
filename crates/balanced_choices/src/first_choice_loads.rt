//! The loads of channels by first choices.
ghost use Rattle.std.specs.Prelude.{◌≡◌, ◌<◌, ◌≤◌, ◌*◌, [], ◌∷◌, All, IfOk, OnOk, length};
ghost use Rattle.std.specs.Prelude.{reverse};
ghost use Rattle.port_graph.specs.Heads.{LeadToVertices, edges_at};
ghost use Rattle.spread_labels.specs.Orders.{numbers_from};
ghost use Rattle.balanced_choices.specs.declared.ways.Change.TheVariants.{Add};
ghost use Rattle.balanced_choices.specs.BalancedChoices.{near_first, weight_among};
ghost use Rattle.balanced_choices.specs.Loads.{first_loads, loads_with_all, passed_on, passed_to, repeated};
ghost use Rattle.balanced_choices.specs.Ways.{with_changes};

use crate::choice_order::near_first;
use crate::choice_rounds::{Destination, positions_of};
use crate::level_digit::{LevelDigit, weight_among};
use crate::loads::{PORTS, no_loads};
use crate::round_robin::RoundRobin;
use crate::target_ways::ways_towards;
use port_graph::Adjacency;
use spread_labels::{CandidateSets, TARGETS};
use std::alloc::{AllocError, Global};

/// Returns the load of each channel if the packets to all ends of all destinations go by first choices. Position p
/// sends `sent[p]` packets to each end, and has the level and the digit weight `digits[p]`. `sent` and `digits` must
/// have an entry for each position, and destinations must be at positions. Finds the candidates towards 64 destinations
/// at a time. For each end, takes time linear in the number of positions.
pub fn first_loads(
    alloc: Global,
    graph: &Adjacency,
    sent: &[usize],
    digits: &[LevelDigit],
    destinations: &[Destination],
) -> Result<Vec<usize>, AllocError>
    requires lead { LeadToVertices graph.now }
    requires sent { length sent.now ≡ length graph.now }
    requires digits { length digits.now ≡ length graph.now }
    requires destinations { All (λ d. d.position < length graph.now) destinations.now }
    ensures { IfOk result (λ loads. loads.items ≡ first_loads graph.now sent.now digits.now destinations.now) }
{
    let mut loads = no_loads(alloc, graph.len())?;
    let mut first = 0;
    while first < destinations.len() {
        let last = first + TARGETS.min(destinations.len() - first);
        add_packets(
            alloc,
            graph,
            sent,
            digits,
            &destinations[first..last],
            &mut loads,
        )?;
        first = last;
    }
    Ok(loads)
}

/// Adds the packets to all ends of `destinations`, by first choices, to the loads of channels.
fn add_packets(
    alloc: Global,
    graph: &Adjacency,
    sent: &[usize],
    digits: &[LevelDigit],
    destinations: &[Destination],
    loads: &mut [usize],
) -> Result<(), AllocError>
    requires lead { LeadToVertices graph.now }
    requires sent { length sent.now ≡ length graph.now }
    requires digits { length digits.now ≡ length graph.now }
    requires few { length destinations.now ≤ 64 }
    requires destinations { All (λ d. d.position < length graph.now) destinations.now }
    requires loads { length loads.old ≡ 256 * length graph.now }
    ensures { OnOk result (loads.new
        ≡ loads_with_all graph.now sent.now digits.now loads.old destinations.now) }
{
    let targets = positions_of(alloc, destinations)?;
    let sets = CandidateSets::towards(alloc, graph, &targets)?;
    let mut had = Vec::new(alloc);
    for (k, destination) in destinations.iter().enumerate() {
        let ways = ways_towards(alloc, graph, &sets, k)?;
        repeat(sent, destination.ends, &mut had)?;
        add_packets_to(alloc, &ways, digits, destination, &mut had, loads)?;
    }
    Ok(())
}

/// Adds the packets to all ends of `destination`, by first choices, to the loads of channels. `ways` has the candidates
/// of each position towards that of `destination`. `had` has the packets that each position sends to each end, and gets
/// those that reach a position added.
fn add_packets_to(
    alloc: Global,
    ways: &Adjacency,
    digits: &[LevelDigit],
    destination: &Destination,
    had: &mut [usize],
    loads: &mut [usize],
) -> Result<(), AllocError>
    requires digits { length digits.now ≡ length ways.now }
    requires had { length had.old ≡ length ways.now * destination.now.ends }
    requires loads { length loads.old ≡ 256 * length ways.now }
    ensures { OnOk result (loads.new ≡ (passed_on ways.now digits.now destination.now.number destination.now.ends
        (record { had = had.old; loads = loads.old }) (reverse (near_first ways.now))).loads) }
{
    let order = far_first(alloc, ways)?;
    for position in &order {
        pass_on(ways, digits, *position, destination, had, loads);
    }
    Ok(())
}

/// Returns all positions, each before those that its candidates `ways` lead to if they are towards one target.
fn far_first(alloc: Global, ways: &Adjacency) -> Result<Vec<usize>, AllocError>
    ensures order { IfOk result (λ order. order.items ≡ reverse (near_first ways.now)) }
    ensures positions { IfOk result (λ order. All (λ p. p < length ways.now) order.items) }
{
    let mut order = near_first(alloc, ways)?;
    order.reverse();
    Ok(order)
}

/// Makes `copies` have `count` copies of each number of `list`.
fn repeat(list: &[usize], count: u16, copies: &mut Vec<usize>) -> Result<(), AllocError>
    ensures { OnOk result (copies.new.items ≡ repeated count list.now) }
{
    copies.clear();
    for number in list {
        for _ in 0..count {
            copies.push(*number)?;
        }
    }
    Ok(())
}

/// Passes the packets of `position` in `had` on for each end of `destination`, and adds them to the loads of channels.
fn pass_on(
    ways: &Adjacency,
    digits: &[LevelDigit],
    position: usize,
    destination: &Destination,
    had: &mut [usize],
    loads: &mut [usize],
)
    requires position { position < length ways.now }
    requires had { length had.old ≡ length ways.now * destination.now.ends }
    requires loads { length loads.old ≡ 256 * length ways.now }
    ensures { passed_to destination.now.ends (edges_at ways.now position)
        (weight_among digits.now (edges_at ways.now position) position) position destination.now.number
        (record { had = had.old; loads = loads.old }) (numbers_from 0 destination.now.ends)
        ≡ record { had = had.new; loads = loads.new } }
{
    let edges = ways.at(position);
    let count = edges.len().min(PORTS);
    if count == 0 {
        return;
    }
    let ends = usize::from(destination.ends);
    let mut turn = RoundRobin::first(weight_among(digits, edges, position), position, count);
    for k in 0..ends {
        turn.go_to(destination.number as usize + k);
        let edge = edges[turn.choice()];
        let packets = had[position * ends + k];
        if edge.to < ways.len() {
            add_at(had, edge.to * ends + k, packets);
        }
        let channel = PORTS * position + usize::from(edge.port.number());
        add_at(loads, channel, packets);
    }
}

/// Adds `packets` to the number at `index`, but to at most 2^64 - 1. Does nothing if there is no such index.
fn add_at(numbers: &mut [usize], index: usize, packets: usize)
    ensures { numbers.new ≡ with_changes (Add packets) numbers.old (index ∷ []) }
{
    if index < numbers.len() {
        numbers[index] = numbers[index].saturating_add(packets);
    }
}
