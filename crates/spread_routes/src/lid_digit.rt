//! How switches choose among edges, by digits of the numbers of LIDs.
ghost use Rattle.std.specs.Prelude.{◌≡◌, ◌<◌, All, IfOk, length, map, nat_lt, slice_index_or, if◌then◌else◌};
ghost use Rattle.std.specs.List.{list_any};
ghost use Rattle.port_graph.specs.Heads.{LeadToVertices};
ghost use Rattle.spread_labels.specs.TargetSet.{EachTarget, has};
ghost use Rattle.spread_labels.specs.MarkSets.{picked};
ghost use Rattle.spread_routes.specs.Rule.{by_index};
ghost use Rattle.spread_routes.specs.Spread.{level_digit, lid_digit_at, weight_if};
ghost use Rattle.spread_routes.specs.Exits.{no_lid_digit};
ghost use Rattle.balanced_choices.specs.RoundRobin.{IsTurn};

use balanced_choices::{LevelDigit, RoundRobin};
use port_graph::{Adjacency, Edge};
use spread_labels::{TargetSet, digit_weights};
use std::alloc::{AllocError, Global};
use subnet_view::SwitchGraph;

/// How a switch chooses among its edges by a digit of the LID's number.
#[derive(Clone, Copy, Debug, PartialEq, Eq)]
pub(crate) struct LidDigit {
    /// The level of the switch: its distance from the nearest leaf switch, or 0 if no leaf switch can be reached.
    pub(crate) level: usize,
    /// The digit weight of this level.
    pub(crate) digit_weight: usize,
    /// The switch's GUID modulo 31.
    pub(crate) offset: u8,
}

impl LidDigit {
    /// Returns the turn of the number 0 among `count` ports. `is_higher` says whether one of the ports leads to a
    /// higher switch. If none does, the digit of a number is the number itself.
    pub(crate) fn turn(&self, is_higher: bool, count: usize) -> RoundRobin
        requires weight { 0 < self.now.digit_weight }
        requires count { 0 < count }
        ensures turn { IsTurn result }
        ensures count { result.count ≡ count }
        ensures offset { result.offset ≡ self.now.offset }
        ensures weight { result.weight ≡ (if is_higher then self.now.digit_weight else 1) }
    {
        RoundRobin::at(
            self.weight_if(is_higher),
            usize::from(self.offset),
            count,
            0,
        )
    }

    /// Returns the weight of the digit that choices go by: the digit weight if `is_higher`, and otherwise 1.
    pub(crate) fn weight_if(&self, is_higher: bool) -> usize
        ensures { result ≡ weight_if self.now is_higher }
    {
        if is_higher { self.digit_weight } else { 1 }
    }
}

/// Returns the level and the digit weight of each LID digit.
pub(crate) fn level_digits(
    alloc: Global,
    lid_digits: &[LidDigit],
) -> Result<Vec<LevelDigit>, AllocError>
    ensures { IfOk result (λ digits. digits.items ≡ map level_digit lid_digits.now) }
{
    lid_digits
        .iter()
        .map(|lid_digit| LevelDigit {
            level: lid_digit.level,
            weight: lid_digit.digit_weight,
        })
        .collect(alloc)
}

/// Returns the LID digit of the switch at each position of `order`, by the `levels` of the switches.
pub(crate) fn lid_digits(
    alloc: Global,
    graph: &SwitchGraph,
    edges: &Adjacency,
    levels: &[usize],
    order: &[usize],
) -> Result<Vec<LidDigit>, AllocError>
    requires edges { edges.now ≡ by_index graph.now }
    requires lead { LeadToVertices edges.now }
    requires levels { length levels.now ≡ length graph.now }
    requires order { All (λ i. i < length graph.now) order.now }
    ensures { IfOk result (λ lid_digits.
        lid_digits.items ≡ map (lid_digit_at graph.now levels.now) order.now) }
{
    let digit_weights = digit_weights(alloc, edges, levels)?;
    let guids = graph.switches();
    let mut lid_digits = Vec::with_capacity(alloc, order.len())?;
    for index in order {
        lid_digits.push(LidDigit {
            level: levels[*index],
            digit_weight: digit_weights[*index],
            offset: (guids[*index].number() % 31) as u8,
        })?;
    }
    Ok(lid_digits)
}

/// Returns the targets towards which any of `edges`, by its set in `sets`, leads above the level of `lid_digit`.
pub(crate) fn higher_targets(
    lid_digits: &[LidDigit],
    lid_digit: &LidDigit,
    edges: &[Edge],
    sets: &[TargetSet],
) -> TargetSet
    requires lead { All (λ edge. edge.to < length lid_digits.now) edges.now }
    requires all { length sets.now ≡ length edges.now }
    ensures { EachTarget (λ k. has result k
        ≡ list_any (λ edge. nat_lt lid_digit.now.level (slice_index_or lid_digits.now edge.to no_lid_digit).level)
        (picked k sets.now edges.now)) }
{
    let mut higher = TargetSet::none();
    for (i, edge) in edges.iter().enumerate() {
        if lid_digit.level < level_at(lid_digits, edge.to) {
            higher = higher.or(sets[i]);
        }
    }
    higher
}

/// Returns the level of the switch at `position`.
fn level_at(lid_digits: &[LidDigit], position: usize) -> usize
    requires { position < length lid_digits.now }
    ensures { result ≡ (slice_index_or lid_digits.now position no_lid_digit).level }
{
    lid_digits[position].level
}
