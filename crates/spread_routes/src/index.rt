//! The indices of the switches of a graph.
ghost use Rattle.std.specs.Prelude.{◌≡◌, ◌<◌, length, All, IfOk};
ghost use Rattle.subnet_view.specs.GraphLaws.{IsGraph};
ghost use Rattle.spread_routes.specs.Spread.{indices_of};

use smp_bytes::Guid;
use std::alloc::{AllocError, Global};
use subnet_view::SwitchGraph;

/// Returns the indices of those of `guids` that are switches of `graph`, in the order of `guids`. Does a binary search
/// among the switches for each GUID.
pub(crate) fn indices(
    alloc: Global,
    graph: &SwitchGraph,
    guids: &[Guid],
) -> Result<Vec<usize>, AllocError>
    requires { IsGraph graph.now }
    ensures indices { IfOk result (λ found. found.items ≡ indices_of graph.now guids.now) }
    ensures within { IfOk result (λ found. All (λ i. i < length graph.now) found.items) }
{
    let mut found = Vec::new(alloc);
    for guid in guids {
        if let Some(index) = graph.index_of(*guid) {
            found.push(index)?;
        }
    }
    Ok(found)
}
