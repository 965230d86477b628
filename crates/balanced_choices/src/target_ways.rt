//! The ways to one target.
ghost use Rattle.std.specs.Prelude.{◌≡◌, ◌<◌, IfOk, OnOk, length, map};
ghost use Rattle.port_graph.specs.Heads.{edges_at};
ghost use Rattle.spread_labels.specs.MarkSets.{AreRowsOf, picked, sets_at};
ghost use Rattle.spread_labels.specs.Orders.{numbers_from};

use crate::choice_order::near_first;
use crate::level_digit::LevelDigit;
use crate::traffic::Traffic;
use port_graph::{Adjacency, Edge};
use spread_labels::{CandidateSets, TargetSet};
use std::alloc::{AllocError, Global};
use std::marker::Model;

/// The candidates of each position towards one target, and what each position sends there.
#[derive(Drop)]
pub(crate) struct TargetWays<'a> {
    pub(crate) ways: Adjacency,
    /// All positions, in the order in which they choose.
    pub(crate) order: Vec<usize>,
    /// The number of packets that each position sends to each end.
    pub(crate) sent: &'a [usize],
    /// The level and the digit weight of each position.
    pub(crate) digits: &'a [LevelDigit],
}

impl<'a> Model for TargetWays<'a> {
    ghost use Rattle.balanced_choices.specs.Traffic.{AreTargetWays, Sending};

    ghost Value = { Sending };

    ghost view = { λ a. record { edges = a.ways; sent = a.sent.now; digits = a.digits.now } };

    ghost invariant = { λ a. AreTargetWays a.ways a.order.items a.sent.now a.digits.now };
}

impl<'a> TargetWays<'a> {
    /// Returns the ways to target `k`, as `sets` gives their candidates.
    pub(crate) fn of(
        alloc: Global,
        traffic: &Traffic<'a>,
        sets: &CandidateSets,
        k: usize,
    ) -> Result<Self, AllocError>
        requires target { k < 64 }
        requires rows { AreRowsOf traffic.now.edges sets.now }
        ensures edges { IfOk result (λ ways. ways.edges
            ≡ map (λ p. picked k (sets_at sets.now p) (edges_at traffic.now.edges p))
            (numbers_from 0 (length traffic.now.edges))) }
        ensures sent { IfOk result (λ ways. ways.sent ≡ traffic.now.sent) }
        ensures digits { IfOk result (λ ways. ways.digits ≡ traffic.now.digits) }
    {
        let ways = ways_towards(alloc, traffic.graph, sets, k)?;
        let order = near_first(alloc, &ways)?;
        Ok(TargetWays {
            ways,
            order,
            sent: traffic.sent,
            digits: traffic.digits,
        })
    }
}

/// Returns the candidates of each position towards target `k`, as `sets` gives them.
pub(crate) fn ways_towards(
    alloc: Global,
    graph: &Adjacency,
    sets: &CandidateSets,
    k: usize,
) -> Result<Adjacency, AllocError>
    requires target { k < 64 }
    requires rows { AreRowsOf graph.now sets.now }
    ensures { IfOk result (λ ways. ways
        ≡ map (λ p. picked k (sets_at sets.now p) (edges_at graph.now p)) (numbers_from 0 (length graph.now))) }
{
    let mut ways = Adjacency::new(alloc);
    let mut found = Vec::new(alloc);
    for position in 0..graph.len() {
        find_having(graph.at(position), sets.at(position), k, &mut found)?;
        ways.push_vertex(&found)?;
    }
    Ok(ways)
}

/// Sets `found` to those of `edges` whose sets in `sets` have `target`.
fn find_having(
    edges: &[Edge],
    sets: &[TargetSet],
    target: usize,
    found: &mut Vec<Edge>,
) -> Result<(), AllocError>
    requires target { target < 64 }
    requires all { length sets.now ≡ length edges.now }
    ensures { OnOk result (found.new.items ≡ picked target sets.now edges.now) }
{
    found.clear();
    for (j, edge) in edges.iter().enumerate() {
        if sets[j].has(target) {
            found.push(*edge)?;
        }
    }
    Ok(())
}
