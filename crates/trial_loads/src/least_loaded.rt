//! The order of the least trial load.
ghost use Rattle.std.specs.Prelude.{◌≡◌, ◌<◌, All, IfOk, if◌then◌else◌, length, map, nat_lt};
ghost use Rattle.port_graph.specs.Heads.{LeadToVertices};
ghost use Rattle.spread_labels.specs.LabelLaws.{IsSymmetric};
ghost use Rattle.trial_loads.specs.LeastLoaded.{keys_by_depth, keys_in, least_by};
ghost use Rattle.trial_loads.specs.LeastLoaded.{least_loaded_among, least_loaded_keys};
ghost use Rattle.trial_loads.specs.TrialLoads.{trial_load};

use crate::adapter_graph::AdapterGraph;
use crate::remoteness::keys_by_remoteness;
use crate::starts::starts;
use crate::trials::{trial_load, trial_loads};
use balanced_choices::are_even;
use depth_orders::{Direction, order_by_depth};
use port_graph::Adjacency;
use spread_labels::{VertexKey, greatest_of, position_of};
use std::alloc::{AllocError, Global};

/// Keys, and the trial load of the order that grows by these keys.
#[derive(Drop)]
struct Trial {
    keys: Vec<VertexKey>,
    load: usize,
}

/// Returns the keys of the order with the least trial load. The order that grows by remoteness is taken if its trial
/// loads are even. Otherwise orders by depth from up to eight starts, forwards and backwards, are tried too. If loads
/// are equal, the order tried first counts. For each edge there must be an edge back. `adapters` must have the number
/// of adapters at each vertex. Computes the trial loads of at most 17 orders, and finds the distances between all
/// vertices. Returns an error if memory runs out.
pub fn least_loaded_keys(
    alloc: Global,
    edges: &Adjacency,
    adapters: &[u16],
) -> Result<Vec<VertexKey>, AllocError>
    requires lead { LeadToVertices edges.now }
    requires symmetric { IsSymmetric edges.now }
    requires adapters { length adapters.now ≡ length edges.now }
    ensures { IfOk result (λ found. found.items ≡ least_loaded_keys edges.now adapters.now) }
{
    let graph = AdapterGraph {
        edges: &*edges,
        adapters: &*adapters,
    };
    let keys = keys_by_remoteness(alloc, &graph)?;
    least_loaded_among(alloc, &graph, &keys)
}

/// Returns `keys` if the trial loads of their order are even, and otherwise the keys of the order with the least trial
/// load among that of `keys` and those by depth from up to eight starts, forwards and backwards.
fn least_loaded_among(
    alloc: Global,
    graph: &AdapterGraph,
    keys: &[VertexKey],
) -> Result<Vec<VertexKey>, AllocError>
    requires keys { length keys.now ≡ length graph.now.edges.now }
    requires symmetric { IsSymmetric graph.now.edges.now }
    ensures { IfOk result (λ found. found.items
        ≡ least_loaded_among graph.now.edges.now graph.now.adapters.now keys.now) }
{
    let keys_tried = Vec::from_slice(alloc, keys)?;
    let loads = trial_loads(alloc, graph, keys)?;
    if are_even(graph.edges, &loads) {
        return Ok(keys_tried);
    }
    let starts = starts(alloc, graph.edges, keys)?;
    let first = Trial {
        keys: keys_tried,
        load: greatest_of(&loads),
    };
    let best = try_by_depth(alloc, graph, keys, &starts, Direction::Forwards, first)?;
    let best = try_by_depth(alloc, graph, keys, &starts, Direction::Backwards, best)?;
    Ok(best.keys)
}

/// Returns the trial of the least load among `first` and the orders by depth in `direction` from each of `starts`.
fn try_by_depth(
    alloc: Global,
    graph: &AdapterGraph,
    keys: &[VertexKey],
    starts: &[usize],
    direction: Direction,
    first: Trial,
) -> Result<Trial, AllocError>
    requires keys { length keys.now ≡ length graph.now.edges.now }
    requires symmetric { IsSymmetric graph.now.edges.now }
    requires starts { All (λ start. start < length graph.now.edges.now) starts.now }
    requires first { first.load ≡ trial_load graph.now.edges.now graph.now.adapters.now first.keys.items }
    ensures keys { IfOk result (λ best. best.keys.items
        ≡ least_by (trial_load graph.now.edges.now graph.now.adapters.now) first.keys.items (map (keys_by_depth graph.now.edges.now keys.now direction) starts.now)) }
    ensures load { IfOk result (λ best.
        best.load ≡ trial_load graph.now.edges.now graph.now.adapters.now best.keys.items) }
{
    let mut best = first;
    for start in starts {
        let tried = keys_by_depth(alloc, graph.edges, keys, direction, *start)?;
        let other = trial_of(alloc, graph, tried)?;
        best = lesser(best, other);
    }
    Ok(best)
}

/// Returns the trial of `keys`: the keys, with the trial load of the order that grows by them.
fn trial_of(alloc: Global, graph: &AdapterGraph, keys: Vec<VertexKey>) -> Result<Trial, AllocError>
    requires keys { length keys.items ≡ length graph.now.edges.now }
    requires symmetric { IsSymmetric graph.now.edges.now }
    ensures keys { IfOk result (λ found. found.keys.items ≡ keys.items) }
    ensures load { IfOk result (λ found.
        found.load ≡ trial_load graph.now.edges.now graph.now.adapters.now keys.items) }
{
    let load = trial_load(alloc, graph, &keys)?;
    Ok(Trial { keys, load })
}

/// Returns the trial with the lesser load, or `best` if the loads are equal.
fn lesser(best: Trial, other: Trial) -> Trial
    ensures { result ≡ if nat_lt other.load best.load then other else best }
{
    if other.load < best.load { other } else { best }
}

/// Returns the keys that give the order by depth from `root`, where `keys` and `direction` decide between equals.
fn keys_by_depth(
    alloc: Global,
    edges: &Adjacency,
    keys: &[VertexKey],
    direction: Direction,
    root: usize,
) -> Result<Vec<VertexKey>, AllocError>
    requires keys { length keys.now ≡ length edges.now }
    requires lead { LeadToVertices edges.now }
    requires root { root < length edges.now }
    ensures { IfOk result (λ found. found.items ≡ keys_by_depth edges.now keys.now direction root) }
{
    let vertices = order_by_depth(alloc, edges, keys, direction, root)?;
    keys_in(alloc, &vertices, edges.len())
}

/// Returns the position of each of `count` vertices in `vertices`, or the length of `vertices`, as its key.
fn keys_in(alloc: Global, vertices: &[usize], count: usize) -> Result<Vec<VertexKey>, AllocError>
    ensures { IfOk result (λ keys. keys.items ≡ keys_in vertices.now count) }
{
    let mut keys = Vec::with_capacity(alloc, count)?;
    for vertex in 0..count {
        keys.push(VertexKey {
            distance_class: 0,
            distance: position_of(vertices, vertex),
        })?;
    }
    Ok(keys)
}
