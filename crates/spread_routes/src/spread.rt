ghost use Rattle.std.specs.Prelude.{◌≡◌, ◌<◌, ◌+◌, All, IfOk, None, OnOk, Some};
ghost use Rattle.std.specs.Prelude.{drop, length, min};
ghost use Rattle.spread_routes.specs.AdapterChoices.{adapter_choices};
ghost use Rattle.spread_routes.specs.Rule.{by_positions, order_by_keys};
ghost use Rattle.spread_routes.specs.Spread.{digits_there, grading_of};
ghost use Rattle.spread_routes.specs.SwitchOrder.{is_balanced, order_value_of};
ghost use Rattle.spread_routes.specs.Exits.{AreExits, AreTowards};

use crate::SwitchOrder;
use crate::adapter_choices::AdapterChoices;
use crate::exits::Exits;
use crate::leaf_order::leaf_numbers;
use crate::lid_digit::{LidDigit, higher_targets, level_digits, lid_digits};
use crate::switch_adapters::SwitchAdapters;
use crate::switch_keys::{SwitchKeys, switch_keys};
use port_graph::Adjacency;
use spread_labels::{
    CandidateSets, TARGETS, VertexKey, by_positions, counts_at, grown_order, positions,
};
use std::alloc::{AllocError, Global};
use std::marker::Model;
use subnet_view::SwitchGraph;

/// The candidates of all switches towards some switches, which are the targets.
#[derive(Drop)]
pub struct Towards {
    /// The index of the first target.
    first: usize,
    /// The index after the last target.
    end: usize,
    sets: CandidateSets,
}

impl Model for Towards {
    ghost use Rattle.spread_routes.specs.Exits.{TowardsValue};

    ghost Value = { TowardsValue };

    ghost view = { λ a. record { first = a.first; end = a.end; sets = a.sets } };
}

impl Towards {
    /// Returns the index of the first target.
    pub fn first(&self) -> usize
        ensures { result ≡ self.now.first }
    {
        self.first
    }

    /// Returns the index after the last target.
    pub fn end(&self) -> usize
        ensures { result ≡ self.now.end }
    {
        self.end
    }
}

/// Routes of a graph that spread over its wires.
#[derive(Drop)]
pub struct Spread<'g> {
    graph: &'g SwitchGraph,
    /// The key of each switch, in ascending order of GUID.
    keys: Vec<VertexKey>,
    /// The level of each switch, in ascending order of GUID.
    levels: Vec<usize>,
    /// The position of each switch in the order, in ascending order of GUID.
    positions: Vec<usize>,
    /// The edges of the switch at each position. Each edge leads to a position.
    edges: Adjacency,
    /// The LID digit of the switch at each position.
    lid_digits: Vec<LidDigit>,
    /// The choices for adapters, or `None` if loads are not balanced.
    choices: Option<AdapterChoices>,
}

impl<'g> Model for Spread<'g> {
    ghost use Rattle.spread_routes.specs.Spread.{Grading};
    ghost use Rattle.spread_routes.specs.Exits.{IsByPositions};

    ghost Value = { Grading };

    ghost view = { λ a. record {
      graph = a.graph.now;
      keys = a.keys.items;
      levels = a.levels.items;
      choices = a.choices;
    } };

    ghost invariant = { λ a. IsByPositions
        (record { graph = a.graph.now; keys = a.keys.items; levels = a.levels.items; choices = a.choices })
        a.edges a.positions.items a.lid_digits.items };
}

impl<'g> Spread<'g> {
    /// Computes the routes. `order` says how the order of switches is grown and whether loads are balanced. Ignores
    /// GUIDs in `order` that are not switches of `given`. Does a breadth-first search from each leaf switch and each
    /// root, and two more searches for each component unless `order` names switches. For the order of the least trial
    /// load, does a search from each switch, and computes trial loads. If `order` asks for it, also balances loads.
    /// Returns an error if memory runs out.
    pub fn of(
        alloc: Global,
        given: &SwitchAdapters<'g>,
        order: &SwitchOrder,
    ) -> Result<Self, AllocError>
        ensures { IfOk result (λ spread. spread ≡ grading_of given.now.graph.now given.now.adapters.now (order_value_of order.now)) }
    {
        let (graph, adapters) = (given.graph, given.adapters);
        let SwitchKeys { keys, levels } = switch_keys(alloc, given, order)?;
        let vertices = grown_order(alloc, graph.adjacency(), &keys)?;
        let spread = Spread::by_keys(alloc, graph, keys, levels, &vertices)?;
        if order.is_balanced() {
            let leaf_numbers = leaf_numbers(alloc, given)?;
            let leaf_numbers = counts_at(alloc, &leaf_numbers, &vertices)?;
            let adapters = counts_at(alloc, adapters, &vertices)?;
            spread.balanced(alloc, leaf_numbers, adapters)
        } else {
            Ok(spread)
        }
    }

    /// Balances the loads of the routes.
    fn balanced(
        self,
        alloc: Global,
        leaf_numbers: Vec<u16>,
        adapters: Vec<u16>,
    ) -> Result<Self, AllocError>
        requires leaf_numbers { length leaf_numbers.items ≡ length (by_positions self.graph self.keys) }
        requires adapters { length adapters.items ≡ length (by_positions self.graph self.keys) }
        ensures { IfOk result (λ spread. spread ≡ record self.entry {
          choices = Some (adapter_choices (by_positions self.entry.graph self.entry.keys)
              (digits_there self.entry.graph self.entry.keys self.entry.levels) leaf_numbers.items adapters.items);
        }) }
    {
        let digits = level_digits(alloc, &self.lid_digits)?;
        let choices = AdapterChoices::of(alloc, &self.edges, &digits, leaf_numbers, adapters)?;
        Ok(Spread {
            choices: Some(choices),
            ..self
        })
    }

    /// Computes the routes by the `keys` and the `levels` of the switches. Does not balance loads.
    fn by_keys(
        alloc: Global,
        graph: &'g SwitchGraph,
        keys: Vec<VertexKey>,
        levels: Vec<usize>,
        vertices: &[usize],
    ) -> Result<Self, AllocError>
        requires keys { length keys.items ≡ length graph.now }
        requires levels { length levels.items ≡ length graph.now }
        requires vertices { vertices.now ≡ order_by_keys graph.now keys.items }
        ensures { IfOk result (λ spread. spread
            ≡ record { graph = graph.now; keys = keys.items; levels = levels.items; choices = None }) }
    {
        let edges = graph.adjacency();
        let positions = positions(alloc, vertices, edges.len())?;
        let lid_digits = lid_digits(alloc, graph, edges, &levels, vertices)?;
        let edges = by_positions(alloc, edges, vertices, &positions)?;
        Ok(Spread {
            graph,
            keys,
            levels,
            positions,
            edges,
            lid_digits,
            choices: None,
        })
    }

    /// Finds the candidates of all switches towards the 64 switches that start at index `first`, or towards the
    /// switch at that index and all later ones if these are fewer. There must be a switch at index `first`. Each
    /// round takes time linear in the number of switches and edges, for all these targets together. There is one more
    /// round than the greatest cost. Returns an error if memory runs out.
    pub fn towards(&self, alloc: Global, first: usize) -> Result<Towards, AllocError>
        requires { first < length self.now.graph }
        ensures are { IfOk result (λ towards. AreTowards self.now towards) }
        ensures first { IfOk result (λ towards. towards.first ≡ first) }
        ensures end { IfOk result (λ towards. towards.end ≡ min (first + 64) (length self.now.graph)) }
    {
        let end = first + TARGETS.min(self.positions.len() - first);
        let sets = CandidateSets::towards(alloc, &self.edges, &self.positions[first..end])?;
        Ok(Towards { first, end, sets })
    }

    /// Sets `exits` to the ports by which packets leave the switch at index `own` towards each target of `towards`.
    /// There must be a switch at index `own`. `towards` must be candidates of these routes. Takes time linear in the
    /// number of edges and candidates of the switch. Returns an error if memory runs out.
    pub fn exits_from<'s>(
        &'s self,
        own: usize,
        towards: &Towards,
        exits: &mut Exits<'s>,
    ) -> Result<(), AllocError>
        requires own { own < length self.now.graph }
        requires towards { AreTowards self.now towards.now }
        ensures { OnOk result (AreExits self.now towards.now own exits.new) }
    {
        let position = self.positions[own];
        let edges = self.edges.at(position);
        let sets = towards.sets.at(position);
        let lid_digit = self.lid_digits[position];
        let higher = higher_targets(&self.lid_digits, &lid_digit, edges, sets);
        let targets = behind(&self.positions, towards.first);
        exits.choose_by(self.choices.as_ref(), position, targets);
        exits.find(lid_digit, higher, edges, sets)
    }
}

/// Returns the part of `list` that starts at index `first`, or an empty list if `first` is past the end.
fn behind(list: &[usize], first: usize) -> &[usize]
    ensures { result.now ≡ drop first list.now }
{
    match list.get(first..) {
        Some(rest) => rest,
        None => &[],
    }
}
