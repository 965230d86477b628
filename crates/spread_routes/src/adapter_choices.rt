//! Choices of candidates that balance the loads of channels.
ghost use Rattle.std.specs.Prelude.{◌≡◌, ◌<◌, ◌≤◌, ◌-◌, ◌^◌, ℕ, All, IfOk, IsTrue, is_some, length, map, min};
ghost use Rattle.std.specs.Prelude.{slice_index};
ghost use Rattle.std.specs.Option.{option_map};
ghost use Rattle.port_graph.specs.Heads.{LeadToVertices};
ghost use Rattle.spread_labels.specs.Orders.{numbers_from};
ghost use Rattle.balanced_choices.specs.BalancedChoices.{in_turn};
ghost use Rattle.spread_routes.specs.AdapterChoices.{adapter_choices, adapter_of, choice_towards, counted_if_uneven};
ghost use Rattle.spread_routes.specs.AdapterChoices.{destinations, first_at, first_number};

use crate::adapters::most_adapters;
use balanced_choices::{Destination, LevelDigit, are_even, balanced_choices, first_loads};
use port_graph::Adjacency;
use spread_labels::leaf_vertices;
use std::alloc::{AllocError, Global};
use std::marker::Model;

/// How routes towards adapters are chosen among candidates.
#[derive(Drop)]
pub(crate) struct AdapterChoices {
    /// The leaf number of each position.
    leaf_numbers: Vec<u16>,
    /// The number of adapters at each position.
    adapters: Vec<u16>,
    /// The greatest number of adapters at any position.
    most: u16,
    /// The index in `counted` of the first adapter at each position: the number of adapters at earlier positions, but
    /// at most 2^64 - 1.
    firsts: Vec<usize>,
    /// For each adapter, the number of the candidate that each position takes towards the adapter. `None` if the loads
    /// under first choices are even.
    counted: Option<Vec<Vec<u8>>>,
}

impl Model for AdapterChoices {
    ghost use Rattle.std.specs.Prelude.{◌≡◌, ◌-◌, ◌^◌, length, map, min};
    ghost use Rattle.std.specs.Option.{option_map};
    ghost use Rattle.spread_labels.specs.Level.{greatest};
    ghost use Rattle.spread_labels.specs.Orders.{numbers_from};
    ghost use Rattle.spread_routes.specs.AdapterChoices.{AdapterChoices as AdapterChoicesValue, first_at};

    ghost Value = { AdapterChoicesValue };

    ghost view = { λ a. record {
      leaf_numbers = a.leaf_numbers.items;
      adapters = a.adapters.items;
      counted = option_map (λ choices. map (λ own. own.items) choices.items) a.counted;
    } };

    ghost invariant = { λ a. (a.firsts.items
        ≡ map (λ q. min (first_at a.adapters.items q) (2 ^ 64 - 1)) (numbers_from 0 (length a.adapters.items)))
        × (a.most ≡ greatest 0 a.adapters.items) };
}

impl AdapterChoices {
    /// Balances the loads of `edges`, a graph by positions, where each adapter sends one packet to each adapter. Takes
    /// as long as `first_loads` and, if these loads are not even, as long as `balanced_choices` as well.
    pub(crate) fn of(
        alloc: Global,
        edges: &Adjacency,
        digits: &[LevelDigit],
        leaf_numbers: Vec<u16>,
        adapters: Vec<u16>,
    ) -> Result<Self, AllocError>
        requires lead { LeadToVertices edges.now }
        requires digits { length digits.now ≡ length edges.now }
        requires leaf_numbers { length leaf_numbers.items ≡ length edges.now }
        requires adapters { length adapters.items ≡ length edges.now }
        ensures { IfOk result (λ found. found
            ≡ adapter_choices edges.now digits.now leaf_numbers.items adapters.items) }
    {
        let sent = sent(alloc, &adapters)?;
        let destinations = destinations(alloc, &leaf_numbers, &adapters)?;
        let counted = counted_if_uneven(alloc, edges, &sent, digits, &destinations)?;
        let firsts = firsts(alloc, &adapters)?;
        let most = most_adapters(&adapters);
        Ok(AdapterChoices {
            leaf_numbers,
            adapters,
            most,
            firsts,
            counted,
        })
    }

    /// Returns whether the choices were made from counted loads, that is, by `balanced_choices`.
    pub(crate) fn are_counted(&self) -> bool
        ensures { result ≡ is_some self.now.counted }
    {
        self.counted.is_some()
    }

    /// Returns the number of the candidate for a LID with the number `number` at `own` towards the position `target`.
    pub(crate) fn towards(&self, number: usize, own: usize, target: usize) -> usize
        requires { IsTrue (is_some self.now.counted) }
        ensures { (weight : ℕ) → result ≡ choice_towards self.now weight number own target }
    {
        if self.count_at(target) == 0 {
            return 0;
        }
        match &self.counted {
            Some(counted) => match counted.get(self.adapter_of(number, target)) {
                Some(choices) => choice_at(choices, own),
                None => 0,
            },
            None => 0,
        }
    }

    /// Returns the number of the first adapter at `position`, by which first choices are made, or 0 past the last.
    pub(crate) fn first_number(&self, position: usize) -> usize
        ensures number { result ≡ first_number self.now.leaf_numbers self.now.adapters position }
        ensures small { result < 2 ^ 32 }
    {
        self.leaf_number_at(position) * usize::from(self.most)
    }

    /// Returns the index in `counted` of the adapter at `position` whose choices a LID with the number `number` takes.
    fn adapter_of(&self, number: usize, position: usize) -> usize
        requires { position < length self.now.adapters }
        ensures { result ≡ min (adapter_of self.now.adapters number position) (2 ^ 64 - 1) }
    {
        let turn = in_turn(self.count_at(position), number);
        self.firsts[position].saturating_add(turn)
    }

    /// Returns the number of adapters at `position`, or 0 if there is no such position.
    pub(crate) fn count_at(&self, position: usize) -> usize
        ensures count { result ≡ slice_index self.now.adapters position }
        ensures small { result < 2 ^ 16 }
    {
        match self.adapters.get(position) {
            Some(count) => usize::from(*count),
            None => 0,
        }
    }

    /// Returns the leaf number of `position`, or 0 if there is no such position.
    fn leaf_number_at(&self, position: usize) -> usize
        ensures number { result ≡ slice_index self.now.leaf_numbers position }
        ensures small { result < 2 ^ 16 }
    {
        match self.leaf_numbers.get(position) {
            Some(number) => usize::from(*number),
            None => 0,
        }
    }
}

/// Returns `number` modulo `count`, or 0 if `count` is 0.
pub(crate) fn in_turn(count: usize, number: usize) -> usize
    ensures turn { result ≡ in_turn count number }
    ensures within { result ≤ count }
{
    if count == 0 { 0 } else { number % count }
}

/// Returns the choice of `position`, or 0 if there is no such position.
fn choice_at(choices: &[u8], position: usize) -> usize
    ensures { result ≡ slice_index choices.now position }
{
    match choices.get(position) {
        Some(choice) => usize::from(*choice),
        None => 0,
    }
}

/// Returns the packets that each position sends to each adapter: one from each adapter at the position.
fn sent(alloc: Global, adapters: &[u16]) -> Result<Vec<usize>, AllocError>
    ensures { IfOk result (λ sent. sent.items ≡ adapters.now) }
{
    let mut sent = Vec::with_capacity(alloc, adapters.len())?;
    for count in adapters {
        sent.push(usize::from(*count))?;
    }
    Ok(sent)
}

/// Returns the positions that have adapters as destinations, with an end for each adapter.
fn destinations(
    alloc: Global,
    leaf_numbers: &[u16],
    adapters: &[u16],
) -> Result<Vec<Destination>, AllocError>
    requires { length leaf_numbers.now ≡ length adapters.now }
    ensures are { IfOk result (λ found. found.items ≡ destinations leaf_numbers.now adapters.now) }
    ensures positions { IfOk result (λ found. All (λ d. d.position < length adapters.now) found.items) }
{
    let most = most_adapters(adapters);
    let leaves = leaf_vertices(alloc, adapters)?;
    let mut found = Vec::with_capacity(alloc, leaves.len())?;
    for leaf in &leaves {
        found.push(Destination {
            position: *leaf,
            ends: adapters[*leaf],
            number: u32::from(leaf_numbers[*leaf]) * u32::from(most),
        })?;
    }
    Ok(found)
}

/// Returns balanced choices, or `None` if the loads under first choices are even.
fn counted_if_uneven(
    alloc: Global,
    edges: &Adjacency,
    sent: &[usize],
    digits: &[LevelDigit],
    destinations: &[Destination],
) -> Result<Option<Vec<Vec<u8>>>, AllocError>
    requires lead { LeadToVertices edges.now }
    requires sent { length sent.now ≡ length edges.now }
    requires digits { length digits.now ≡ length edges.now }
    requires destinations { All (λ d. d.position < length edges.now) destinations.now }
    ensures { IfOk result (λ counted. option_map (λ choices. map (λ own. own.items) choices.items) counted
        ≡ counted_if_uneven edges.now sent.now digits.now destinations.now) }
{
    let loads = first_loads(alloc, edges, sent, digits, destinations)?;
    if are_even(edges, &loads) {
        return Ok(None);
    }
    let choices = balanced_choices(alloc, edges, sent, digits, destinations)?;
    Ok(Some(choices))
}

/// Returns, for each position, the number of adapters at earlier positions, but at most 2^64 - 1.
fn firsts(alloc: Global, adapters: &[u16]) -> Result<Vec<usize>, AllocError>
    ensures { IfOk result (λ firsts. firsts.items
        ≡ map (λ q. min (first_at adapters.now q) (2 ^ 64 - 1)) (numbers_from 0 (length adapters.now))) }
{
    let mut firsts = Vec::with_capacity(alloc, adapters.len())?;
    let mut first: usize = 0;
    for count in adapters {
        firsts.push(first)?;
        first = first.saturating_add(usize::from(*count));
    }
    Ok(firsts)
}
