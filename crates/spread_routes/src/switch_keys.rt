//! The keys by which switches are ordered, and the order that grows by them.
ghost use Rattle.std.specs.Prelude.{◌≡◌, ◌<◌, All, IfOk, length, map};
ghost use Rattle.spread_labels.specs.Leaves.{leaf_vertices};
ghost use Rattle.spread_labels.specs.Level.{levels_of};
ghost use Rattle.spread_labels.specs.Orders.{at_position};
ghost use Rattle.spread_routes.specs.Rule.{by_index};
ghost use Rattle.spread_routes.specs.Spread.{keys_by, keys_from_roots, keys_least_loaded};
ghost use Rattle.spread_routes.specs.Spread.{switches_in_order};
ghost use Rattle.spread_routes.specs.SwitchOrder.{keys_as_named, order_value_of};

use crate::SwitchOrder;
use crate::index::indices;
use crate::switch_adapters::SwitchAdapters;
use crate::switch_order::keys_as_named;
use smp_bytes::Guid;
use spread_labels::{Grades, VertexKey, grade, grown_order, keys, leaf_vertices};
use std::alloc::{AllocError, Global};
use trial_loads::least_loaded_keys;

/// The keys by which switches are ordered, and the levels of the switches.
#[derive(Drop)]
pub(crate) struct SwitchKeys {
    /// The key of each switch, in ascending order of GUID.
    pub(crate) keys: Vec<VertexKey>,
    /// The level of each switch, in ascending order of GUID.
    pub(crate) levels: Vec<usize>,
}

/// Returns the switches of `given` in the order of the rule that spreads by `order`. Takes no longer than `Spread::of`.
/// Returns an error if memory runs out.
pub fn switches_in_order(
    alloc: Global,
    given: &SwitchAdapters,
    order: &SwitchOrder,
) -> Result<Vec<Guid>, AllocError>
    ensures { IfOk result (λ found.
        found.items ≡ switches_in_order given.now.graph.now given.now.adapters.now (order_value_of order.now)) }
{
    let graph = given.graph;
    let SwitchKeys { keys, levels: _ } = switch_keys(alloc, given, order)?;
    let vertices = grown_order(alloc, graph.adjacency(), &keys)?;
    switches_at(alloc, graph.switches(), &vertices)
}

/// Returns the GUIDs at `indices` of `guids`, in the order of `indices`.
fn switches_at(alloc: Global, guids: &[Guid], indices: &[usize]) -> Result<Vec<Guid>, AllocError>
    requires { All (λ i. i < length guids.now) indices.now }
    ensures { IfOk result (λ found. found.items ≡ map (at_position guids.now) indices.now) }
{
    let mut found = Vec::with_capacity(alloc, indices.len())?;
    for index in indices {
        found.push(guids[*index])?;
    }
    Ok(found)
}

/// Returns the levels of the switches, and the keys that grow the order of switches as `order` says.
pub(crate) fn switch_keys(
    alloc: Global,
    given: &SwitchAdapters,
    order: &SwitchOrder,
) -> Result<SwitchKeys, AllocError>
    ensures keys { IfOk result (λ found. found.keys.items ≡ keys_by given.now.graph.now given.now.adapters.now (order_value_of order.now)) }
    ensures levels { IfOk result (λ found. found.levels.items
        ≡ levels_of (by_index given.now.graph.now) (leaf_vertices given.now.adapters.now)) }
{
    match order {
        SwitchOrder::FromRoots { roots } => from_roots(alloc, given, roots),
        SwitchOrder::AsNamed { switches } | SwitchOrder::BalancedAs { switches } => {
            as_named(alloc, given, switches)
        }
        SwitchOrder::LeastLoaded => least_loaded(alloc, given),
    }
}

/// Returns the keys of the switches according to their distances from `roots`, and their levels.
fn from_roots(
    alloc: Global,
    given: &SwitchAdapters,
    roots: &[Guid],
) -> Result<SwitchKeys, AllocError>
    ensures keys { IfOk result (λ found. found.keys.items ≡ keys_from_roots given.now.graph.now given.now.adapters.now roots.now) }
    ensures levels { IfOk result (λ found. found.levels.items
        ≡ levels_of (by_index given.now.graph.now) (leaf_vertices given.now.adapters.now)) }
{
    let (graph, adapters) = (given.graph, given.adapters);
    let edges = graph.adjacency();
    let leaves = leaf_vertices(alloc, adapters)?;
    let roots = indices(alloc, graph, roots)?;
    let Grades {
        distance_classes,
        levels,
    } = grade(alloc, edges, &leaves, &roots)?;
    let keys = keys(alloc, edges, &distance_classes)?;
    Ok(SwitchKeys { keys, levels })
}

/// Returns the keys of the switches according to the list `switches`, and their levels.
fn as_named(
    alloc: Global,
    given: &SwitchAdapters,
    switches: &[Guid],
) -> Result<SwitchKeys, AllocError>
    ensures keys { IfOk result (λ found. found.keys.items ≡ keys_as_named given.now.graph.now switches.now) }
    ensures levels { IfOk result (λ found. found.levels.items
        ≡ levels_of (by_index given.now.graph.now) (leaf_vertices given.now.adapters.now)) }
{
    let (graph, adapters) = (given.graph, given.adapters);
    let edges = graph.adjacency();
    let leaves = leaf_vertices(alloc, adapters)?;
    let Grades {
        distance_classes: _,
        levels,
    } = grade(alloc, edges, &leaves, &[])?;
    let keys = keys_as_named(alloc, graph, switches)?;
    Ok(SwitchKeys { keys, levels })
}

/// Returns the keys of the switches that give the order of the least trial load, and their levels.
fn least_loaded(alloc: Global, given: &SwitchAdapters) -> Result<SwitchKeys, AllocError>
    ensures keys { IfOk result (λ found. found.keys.items ≡ keys_least_loaded given.now.graph.now given.now.adapters.now) }
    ensures levels { IfOk result (λ found. found.levels.items
        ≡ levels_of (by_index given.now.graph.now) (leaf_vertices given.now.adapters.now)) }
{
    let edges = given.graph.adjacency();
    let adapters = given.adapters;
    let leaves = leaf_vertices(alloc, adapters)?;
    let Grades {
        distance_classes: _,
        levels,
    } = grade(alloc, edges, &leaves, &[])?;
    let keys = least_loaded_keys(alloc, edges, adapters)?;
    Ok(SwitchKeys { keys, levels })
}
