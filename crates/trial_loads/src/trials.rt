//! Trial loads.
ghost use Rattle.std.specs.Prelude.{◌≡◌, IfOk, length};
ghost use Rattle.spread_labels.specs.LabelLaws.{IsSymmetric};
ghost use Rattle.trial_loads.specs.TrialLoads.{loads_by, trial_load, trial_loads};

use crate::adapter_graph::AdapterGraph;
use crate::shared_loads::loads_by;
use spread_labels::{VertexKey, by_positions, counts_at, greatest_of, grown_order, positions};
use std::alloc::{AllocError, Global};

/// Returns the load of the busiest channel of the order that grows by `keys`. Takes as long as `trial_loads`.
pub(crate) fn trial_load(
    alloc: Global,
    graph: &AdapterGraph,
    keys: &[VertexKey],
) -> Result<usize, AllocError>
    requires keys { length keys.now ≡ length graph.now.edges.now }
    requires symmetric { IsSymmetric graph.now.edges.now }
    ensures { IfOk result (λ load. load ≡ trial_load graph.now.edges.now graph.now.adapters.now keys.now) }
{
    let loads = trial_loads(alloc, graph, keys)?;
    Ok(greatest_of(&loads))
}

/// Returns the number of packets that each channel carries in the order that grows by `keys`. Grows the order once, and
/// finds the candidates towards 64 vertices with adapters at a time. For each of these vertices, takes time linear in
/// the number of vertices and edges to share packets.
pub(crate) fn trial_loads(
    alloc: Global,
    graph: &AdapterGraph,
    keys: &[VertexKey],
) -> Result<Vec<usize>, AllocError>
    requires keys { length keys.now ≡ length graph.now.edges.now }
    requires symmetric { IsSymmetric graph.now.edges.now }
    ensures { IfOk result (λ loads. loads.items ≡ trial_loads graph.now.edges.now graph.now.adapters.now keys.now) }
{
    let edges = graph.edges;
    let vertices = grown_order(alloc, edges, keys)?;
    let positions = positions(alloc, &vertices, edges.len())?;
    let graph_by_position = by_positions(alloc, edges, &vertices, &positions)?;
    let adapters = counts_at(alloc, graph.adapters, &vertices)?;
    let positioned = AdapterGraph {
        edges: &graph_by_position,
        adapters: &adapters,
    };
    loads_by(alloc, &positioned)
}
