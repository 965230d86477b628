//! Lists of the ports of candidates, by target.
ghost use Rattle.std.specs.Prelude.{◌≡◌, ◌<◌, ◌++◌, [], length, map, IfOk, OnOk, slice_index_or};
ghost use Rattle.spread_labels.specs.TargetSet.{EachTarget};
ghost use Rattle.spread_labels.specs.MarkSets.{picked};
ghost use Rattle.spread_labels.specs.CandidateLists.{added};

use crate::target_set::{TARGETS, TargetSet};
use port_graph::Edge;
use smp_bytes::PortNum;
use std::alloc::{AllocError, Global};
use std::marker::Model;

/// The ports of a vertex's candidates: a list of ports for each of 64 targets.
#[derive(Drop)]
pub struct CandidateLists {
    lists: Vec<Vec<PortNum>>,
}

impl Model for CandidateLists {
    ghost use Rattle.std.specs.Prelude.{◌≡◌, List, ℕ, length, map};

    ghost Value = { List (List ℕ) };

    ghost view = { λ a. map (λ list. list.items) a.lists.items };

    ghost invariant = { λ a. length a.lists.items ≡ 64 };
}

impl CandidateLists {
    /// Creates 64 empty lists. Returns an error if memory runs out.
    pub fn new(alloc: Global) -> Result<Self, AllocError>
        ensures { IfOk result (λ lists. EachTarget (λ k. slice_index_or lists k [] ≡ [])) }
    {
        let mut lists = Vec::with_capacity(alloc, TARGETS)?;
        for _ in 0..TARGETS {
            lists.push(Vec::new(alloc))?;
        }
        Ok(CandidateLists { lists })
    }

    /// Finds for each target the ports of the edges whose set in `sets` has the target, in the order of the edges.
    /// There must be a set for each edge. Replaces the ports that were found before. Takes time linear in the number
    /// of edges and of ports found. Returns an error if memory runs out.
    pub fn find(&mut self, edges: &[Edge], sets: &[TargetSet]) -> Result<(), AllocError>
        requires { length sets.now ≡ length edges.now }
        ensures { OnOk result (EachTarget (λ k. slice_index_or self.new k []
            ≡ map (λ edge. edge.port) (picked k sets.now edges.now))) }
    {
        find_all(&mut self.lists, edges, sets)
    }

    /// Returns the list of ports for `target`. `target` must be less than 64.
    pub fn at(&self, target: usize) -> &[PortNum]
        requires { target < 64 }
        ensures { result.now ≡ slice_index_or self.now target [] }
    {
        &self.lists[target]
    }
}

/// Sets the list of each target to the ports of the edges whose set in `sets` has the target.
fn find_all(
    lists: &mut [Vec<PortNum>],
    edges: &[Edge],
    sets: &[TargetSet],
) -> Result<(), AllocError>
    requires lists { length lists.old ≡ 64 }
    requires all { length sets.now ≡ length edges.now }
    ensures { OnOk result (EachTarget (λ k. slice_index_or (map (λ list. list.items) lists.new) k []
        ≡ map (λ edge. edge.port) (picked k sets.now edges.now))) }
{
    clear(lists);
    add_all(lists, edges, sets)
}

/// Empties all lists.
fn clear(lists: &mut [Vec<PortNum>])
    ensures { EachTarget (λ k. slice_index_or (map (λ list. list.items) lists.new) k [] ≡ []) }
{
    for list in lists.iter_mut() {
        list.clear();
    }
}

/// Appends to the list of each target the ports of the edges whose set in `sets` has the target.
fn add_all(lists: &mut [Vec<PortNum>], edges: &[Edge], sets: &[TargetSet]) -> Result<(), AllocError>
    requires lists { length lists.old ≡ 64 }
    requires all { length sets.now ≡ length edges.now }
    ensures { OnOk result (EachTarget (λ k. slice_index_or (map (λ list. list.items) lists.new) k []
        ≡ slice_index_or (map (λ list. list.items) lists.old) k []
        ++ map (λ edge. edge.port) (picked k sets.now edges.now))) }
{
    for (i, edge) in edges.iter().enumerate() {
        add(lists, edge.port, sets[i])?;
    }
    Ok(())
}

/// Appends `port` to the list of each target in `targets`.
fn add(lists: &mut [Vec<PortNum>], port: PortNum, targets: TargetSet) -> Result<(), AllocError>
    requires { length lists.old ≡ 64 }
    ensures { OnOk result (EachTarget (λ k. slice_index_or (map (λ list. list.items) lists.new) k []
        ≡ added targets port k (slice_index_or (map (λ list. list.items) lists.old) k []))) }
{
    let mut left = targets;
    'target: while let Some(target) = left.first() {
        lists[target].push(port)?;
        left = left.but(target);
    }
    Ok(())
}
