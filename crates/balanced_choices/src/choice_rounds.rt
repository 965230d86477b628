//! The choices for all ends, in rounds.
ghost use Rattle.std.specs.Prelude.{◌≡◌, ◌<◌, ◌≤◌, ◌+◌, ◌*◌, ◌++◌, All, IfOk, OnOk, length, map, replicate};
ghost use Rattle.port_graph.specs.Heads.{LeadToVertices};
ghost use Rattle.spread_labels.specs.Orders.{numbers_from};
ghost use Rattle.spread_labels.specs.Level.{greatest};
ghost use Rattle.balanced_choices.specs.BalancedChoices.{are_even, at_first, balanced_choices, ends_of, later_rounds};
ghost use Rattle.balanced_choices.specs.BalancedChoices.{lightest_choices, near_first, with_all, with_ends};

use crate::choice::Choosing;
use crate::edges_taken::edges_taken;
use crate::evenness::are_even;
use crate::level_digit::LevelDigit;
use crate::loads::no_loads;
use crate::target_ways::TargetWays;
use crate::traffic::Traffic;
use port_graph::Adjacency;
use spread_labels::{CandidateSets, TARGETS, greatest_of};
use std::alloc::{AllocError, Global};
use std::marker::Model;
use std::mem;

/// The greatest number of rounds: one for first choices, and two for new choices.
const ROUNDS: usize = 3;

/// A position at which ends are attached. Packets are sent to these ends.
#[derive(Clone, Copy, Debug, PartialEq, Eq)]
pub struct Destination {
    /// The position at which the ends are attached.
    pub position: usize,
    /// The number of ends.
    pub ends: u16,
    /// The number of the first end. The other ends have the numbers that follow. First choices go by the digits of
    /// these numbers.
    pub number: u32,
}

/// Returns, for each end of each of `destinations` in order, the number of the candidate that each position takes.
/// Position p sends `sent[p]` packets to each end. `sent` and `digits` must have an entry for each position, and
/// destinations must be at positions. First choices go by the end's number. Where a candidate leads to a higher level,
/// the digits below the digit of the position's weight do not count. The candidates of a position are numbered from 0,
/// in the order of its edges. A position that has no candidates gets 0. Makes at most three rounds, and returns the
/// choices of the round with the least greatest load. Each round finds the candidates towards 64 destinations at a
/// time. From the second round on, a round walks, for each end, the ways of all candidates of each position. Keeps a
/// byte for each end and position, and another from the second round on.
pub fn balanced_choices(
    alloc: Global,
    graph: &Adjacency,
    sent: &[usize],
    digits: &[LevelDigit],
    destinations: &[Destination],
) -> Result<Vec<Vec<u8>>, AllocError>
    requires lead { LeadToVertices graph.now }
    requires sent { length sent.now ≡ length graph.now }
    requires digits { length digits.now ≡ length graph.now }
    requires destinations { All (λ d. d.position < length graph.now) destinations.now }
    ensures { IfOk result (λ choices. map (λ own. own.items) choices.items
        ≡ balanced_choices graph.now sent.now digits.now destinations.now) }
{
    let traffic = Traffic {
        graph,
        sent,
        digits,
    };
    let mut balance = Balance::at_first(alloc, graph, destinations)?;
    balance.choose_all(alloc, 0, &traffic, destinations)?;
    balance.lightest_choices(alloc, &traffic, destinations)
}

/// For each end, the number of the candidate that each position takes; and the loads of channels.
#[derive(Drop)]
struct Balance {
    choices: Vec<Vec<u8>>,
    loads: Vec<usize>,
}

impl Model for Balance {
    ghost use Rattle.std.specs.Prelude.{◌≡◌, ◌*◌, All, length, map};
    ghost use Rattle.balanced_choices.specs.BalancedChoices.{Balance as Balanced};

    ghost Value = { Balanced };

    ghost view = { λ b. record { choices = map (λ own. own.items) b.choices.items; loads = b.loads.items } };

    ghost invariant = { λ b. All (λ own. 256 * length own.items ≡ length b.loads.items) b.choices.items };
}

impl Balance {
    /// Returns the balance before the first round: all choices and all loads are 0.
    fn at_first(
        alloc: Global,
        graph: &Adjacency,
        destinations: &[Destination],
    ) -> Result<Self, AllocError>
        ensures { IfOk result (λ balance. balance ≡ at_first graph.now destinations.now) }
    {
        let choices = no_choices(alloc, graph.len(), destinations)?;
        let loads = no_loads(alloc, graph.len())?;
        Ok(Balance { choices, loads })
    }

    /// Makes new choices for all ends of `destinations`, at most twice, while loads are not even. Returns the choices
    /// with the least greatest load, the first of equals.
    fn lightest_choices(
        mut self,
        alloc: Global,
        traffic: &Traffic,
        destinations: &[Destination],
    ) -> Result<Vec<Vec<u8>>, AllocError>
        requires destinations { All (λ d. d.position < length traffic.now.edges) destinations.now }
        requires ends { length self.choices ≡ ends_of 0 destinations.now }
        requires loads { length self.loads ≡ 256 * length traffic.now.edges }
        ensures { IfOk result (λ choices. map (λ own. own.items) choices.items
            ≡ lightest_choices self.choices (greatest 0 self.loads) (later_rounds 2 1 traffic.now.edges
            traffic.now.sent traffic.now.digits destinations.now self)) }
    {
        let mut least = self.greatest_load();
        let mut best = None;
        for round in 1..ROUNDS {
            if self.is_even(traffic.graph) {
                break;
            }
            if best.is_none() {
                best = Some(self.copy_choices(alloc)?);
            }
            self.choose_all(alloc, round, traffic, destinations)?;
            let load = self.greatest_load();
            if load < least {
                least = load;
                best = None;
            }
        }
        Ok(best.unwrap_or(self.choices))
    }

    /// Makes the choices of `round` for all ends of `destinations`. Finds candidates towards 64 of them at a time.
    fn choose_all(
        &mut self,
        alloc: Global,
        round: usize,
        traffic: &Traffic,
        destinations: &[Destination],
    ) -> Result<(), AllocError>
        requires destinations { All (λ d. d.position < length traffic.now.edges) destinations.now }
        requires ends { length self.old.choices ≡ ends_of 0 destinations.now }
        requires loads { length self.old.loads ≡ 256 * length traffic.now.edges }
        ensures { OnOk result (with_all round traffic.now.edges traffic.now.sent traffic.now.digits self.old 0
            destinations.now ≡ self.new) }
    {
        let mut first = 0;
        let mut end = 0;
        while first < destinations.len() {
            let last = first + TARGETS.min(destinations.len() - first);
            end = self.choose_some(alloc, round, traffic, &destinations[first..last], end)?;
            first = last;
        }
        Ok(())
    }

    /// Returns whether the loads of the channels of `graph` are even.
    fn is_even(&self, graph: &Adjacency) -> bool
        ensures { result ≡ are_even graph.now self.now.loads }
    {
        are_even(graph, &self.loads)
    }

    /// Returns the load of the channel that carries most.
    fn greatest_load(&self) -> usize
        ensures { result ≡ greatest 0 self.now.loads }
    {
        greatest_of(&self.loads)
    }

    /// Returns a copy of the choices.
    fn copy_choices(&self, alloc: Global) -> Result<Vec<Vec<u8>>, AllocError>
        ensures { IfOk result (λ choices. map (λ own. own.items) choices.items ≡ self.now.choices) }
    {
        let mut choices = Vec::with_capacity(alloc, self.choices.len())?;
        for own in &self.choices {
            choices.push(Vec::from_slice(alloc, own)?)?;
        }
        Ok(choices)
    }

    /// Makes the choices of `round` for the ends of `destinations` from index `first` on, and returns the index after.
    fn choose_some(
        &mut self,
        alloc: Global,
        round: usize,
        traffic: &Traffic,
        destinations: &[Destination],
        first: usize,
    ) -> Result<usize, AllocError>
        requires few { length destinations.now ≤ 64 }
        requires destinations { All (λ d. d.position < length traffic.now.edges) destinations.now }
        requires ends { ends_of first destinations.now ≤ length self.old.choices }
        requires loads { length self.old.loads ≡ 256 * length traffic.now.edges }
        ensures balance { OnOk result (with_all round traffic.now.edges traffic.now.sent traffic.now.digits self.old
            first destinations.now ≡ self.new) }
        ensures next { IfOk result (λ end. end ≡ ends_of first destinations.now) }
    {
        let targets = positions_of(alloc, destinations)?;
        let sets = CandidateSets::towards(alloc, traffic.graph, &targets)?;
        let mut end = first;
        for (k, destination) in destinations.iter().enumerate() {
            let ways = TargetWays::of(alloc, traffic, &sets, k)?;
            end = self.choose_at(alloc, round, &ways, destination, end)?;
        }
        Ok(end)
    }

    /// Makes the choices of `round` for the ends of `destination` from `first` on, by `ways`. Returns the index after.
    fn choose_at(
        &mut self,
        alloc: Global,
        round: usize,
        ways: &TargetWays,
        destination: &Destination,
        first: usize,
    ) -> Result<usize, AllocError>
        requires ends { first + destination.now.ends ≤ length self.old.choices }
        requires loads { length self.old.loads ≡ 256 * length ways.now.edges }
        ensures balance { OnOk result (with_ends round ways.now.edges ways.now.sent ways.now.digits
            (near_first ways.now.edges) destination.now.number first self.old (numbers_from first destination.now.ends)
            ≡ self.new) }
        ensures next { IfOk result (λ end. end ≡ first + destination.now.ends) }
    {
        let ends = usize::from(destination.ends);
        for k in 0..ends {
            let taken = edges_taken(alloc, &ways.ways, &self.choices[first + k])?;
            let mut choosing = Choosing {
                ways: &*ways,
                choices: mem::replace(&mut self.choices[first + k], Vec::new(alloc)),
                taken,
                loads: mem::replace(&mut self.loads, Vec::new(alloc)),
            };
            choosing.choose(round, destination.number as usize + k);
            self.choices[first + k] = choosing.choices;
            self.loads = choosing.loads;
        }
        Ok(first + ends)
    }
}

/// Returns, for each end of each of `destinations`, a choice of 0 for each position.
fn no_choices(
    alloc: Global,
    positions: usize,
    destinations: &[Destination],
) -> Result<Vec<Vec<u8>>, AllocError>
    ensures { IfOk result (λ choices. map (λ own. own.items) choices.items
        ≡ replicate (ends_of 0 destinations.now) (replicate positions 0)) }
{
    let mut choices = Vec::new(alloc);
    for destination in destinations {
        push_choices(
            alloc,
            positions,
            usize::from(destination.ends),
            &mut choices,
        )?;
    }
    Ok(choices)
}

/// Appends for each of `ends` ends a choice of 0 for each position.
fn push_choices(
    alloc: Global,
    positions: usize,
    ends: usize,
    choices: &mut Vec<Vec<u8>>,
) -> Result<(), AllocError>
    ensures { OnOk result (map (λ own. own.items) choices.new.items
        ≡ map (λ own. own.items) choices.old.items ++ replicate ends (replicate positions 0)) }
{
    for _ in 0..ends {
        choices.push(vec![in alloc; 0; positions]?)?;
    }
    Ok(())
}

/// Returns the position of each destination.
pub(crate) fn positions_of(
    alloc: Global,
    destinations: &[Destination],
) -> Result<Vec<usize>, AllocError>
    ensures { IfOk result (λ positions. positions.items ≡ map (λ d. d.position) destinations.now) }
{
    destinations
        .iter()
        .map(|destination| destination.position)
        .collect(alloc)
}
