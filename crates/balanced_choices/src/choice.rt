//! The choices for one end.
ghost use Rattle.std.specs.Prelude.{◌≡◌, ◌<◌, ◌≤◌, ◌+◌, ◌*◌, ◌^◌, length};
ghost use Rattle.spread_labels.specs.Orders.{numbers_from};
ghost use Rattle.balanced_choices.specs.declared.ways.Change.TheVariants.{Add};
ghost use Rattle.balanced_choices.specs.EdgesTaken.{way_by, without_by};
ghost use Rattle.balanced_choices.specs.Ways.{lightest, with_changes};
ghost use Rattle.balanced_choices.specs.BalancedChoices.{choices_in, choose_each, first_choice};
ghost use Rattle.balanced_choices.specs.BalancedChoices.{first_choices, in_turn, near_first, with_choice};

use crate::edges_taken::edge_taken;
use crate::level_digit::{digits_from, weight_among};
use crate::loads::PORTS;
use crate::target_ways::TargetWays;
use crate::ways::{Change, change_way, lightest};
use port_graph::Edge;
use std::marker::Model;

/// The choices for one end while they are made, and the loads of channels.
#[derive(Drop)]
pub(crate) struct Choosing<'a> {
    pub(crate) ways: &'a TargetWays<'a>,
    pub(crate) choices: Vec<u8>,
    /// The edge that each position takes by its choice.
    pub(crate) taken: Vec<Option<Edge>>,
    pub(crate) loads: Vec<usize>,
}

impl<'a> Model for Choosing<'a> {
    ghost use Rattle.balanced_choices.specs.Choosing.{AtEnd, IsChoosing};

    ghost Value = { AtEnd };

    ghost view = { λ a.
        record { ways = a.ways.now; chosen = record { choices = a.choices.items; loads = a.loads.items } } };

    ghost invariant = { λ a. IsChoosing a.ways.now.edges a.choices.items a.taken.items a.loads.items };
}

impl<'a> Choosing<'a> {
    /// Makes the choices of `round` for the end with the number `number`: first choices in round 0, and else new ones.
    pub(crate) fn choose(&mut self, round: usize, number: usize)
        requires { number + length self.old.ways.edges < 2 ^ 64 }
        ensures ways { self.new.ways ≡ self.old.ways }
        ensures chosen { choices_in round self.old.ways.edges self.old.ways.sent self.old.ways.digits
            (near_first self.old.ways.edges) number self.old.chosen ≡ self.new.chosen }
    {
        if round == 0 {
            self.choose_in_turn(number);
        } else {
            let ways = self.ways;
            remove_packets(&self.taken, ways.sent, &mut self.loads);
            self.choose_lightest();
        }
    }

    /// Makes the first choices for the end with the number `number`, at each position in turn.
    fn choose_in_turn(&mut self, number: usize)
        requires { number + length self.old.ways.edges < 2 ^ 64 }
        ensures ways { self.new.ways ≡ self.old.ways }
        ensures chosen { first_choices self.old.ways.edges self.old.ways.sent self.old.ways.digits
            (near_first self.old.ways.edges) number self.old.chosen ≡ self.new.chosen }
    {
        let ways = self.ways;
        for position in &ways.order {
            let choice = first_choice(ways, number, *position);
            self.take(*position, choice);
        }
    }

    /// Makes new choices, at each position in turn: the first candidate whose way has the least peak load.
    fn choose_lightest(&mut self)
        ensures ways { self.new.ways ≡ self.old.ways }
        ensures chosen { choose_each (λ now p. lightest self.old.ways.edges now.choices now.loads p) self.old.ways.edges
            self.old.ways.sent self.old.chosen (near_first self.old.ways.edges) ≡ self.new.chosen }
    {
        let ways = self.ways;
        for position in &ways.order {
            let choice = lightest(&ways.ways, &self.taken, &self.loads, *position);
            self.take(*position, choice);
        }
    }

    /// Lets `position` take the candidate with the number `choice`, and adds its packets to the loads on their way.
    fn take(&mut self, position: usize, choice: u8)
        requires { position < length self.old.ways.edges }
        ensures ways { self.new.ways ≡ self.old.ways }
        ensures chosen { with_choice self.old.ways.edges self.old.ways.sent self.old.chosen position choice
            ≡ self.new.chosen }
    {
        let ways = self.ways;
        self.choices[position] = choice;
        self.taken[position] = edge_taken(&ways.ways, &self.choices, position);
        let added = ways.sent[position];
        add_packets(&self.taken, &mut self.loads, position, added);
    }
}

/// Returns the number of the first choice of `position` towards the end with the number `number`, or 0 if it has none.
fn first_choice(ways: &TargetWays, number: usize, position: usize) -> u8
    requires position { position < length ways.now.edges }
    requires number { number + length ways.now.edges < 2 ^ 64 }
    ensures { result ≡ first_choice ways.now.edges ways.now.digits number position }
{
    let edges = ways.ways.at(position);
    let count = edges.len().min(PORTS);
    let weight = weight_among(ways.digits, edges, position);
    let digits = digits_from(weight, number);
    in_turn(count, digits + position)
}

/// Returns `number` modulo `count`, or 0 if `count` is 0.
fn in_turn(count: usize, number: usize) -> u8
    requires { count ≤ 256 }
    ensures { result ≡ in_turn count number }
{
    if count == 0 {
        0
    } else {
        (number % count) as u8
    }
}

/// Adds `added` packets to the loads on the way from `position`. `taken` has the edge that is taken at each position.
fn add_packets(taken: &[Option<Edge>], loads: &mut [usize], position: usize, added: usize)
    requires { length loads.old ≡ 256 * length taken.now }
    ensures { loads.new ≡ with_changes (Add added) loads.old (way_by taken.now position) }
{
    if added > 0 {
        change_way(taken, loads, position, Change::Add(added));
    }
}

/// Subtracts the packets `sent` of each position from the loads on their way, along the edges `taken` at each.
fn remove_packets(taken: &[Option<Edge>], sent: &[usize], loads: &mut [usize])
    requires sent { length sent.now ≡ length taken.now }
    requires loads { length loads.old ≡ 256 * length taken.now }
    ensures { loads.new ≡ without_by sent.now taken.now loads.old (numbers_from 0 (length taken.now)) }
{
    for position in 0..taken.len() {
        let removed = sent[position];
        if removed > 0 {
            change_way(taken, loads, position, Change::Remove(removed));
        }
    }
}
