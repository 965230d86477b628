//! The roots of components.
ghost use Rattle.std.specs.Prelude.{◌≡◌, IfOk, length, map};
ghost use Rattle.subnet_view.specs.Components.{root_of};
ghost use Rattle.subnet_view.specs.Graph.{guids_of};
ghost use Rattle.subnet_view.specs.RootSearch.{FillsIn};

use crate::switch_graph::SwitchGraph;
use smp_bytes::Guid;
use std::alloc::{AllocError, Global};

/// Returns the root of each switch, in ascending order of GUID. Does a breadth-first search for each component.
pub(crate) fn roots(alloc: Global, graph: &SwitchGraph) -> Result<Vec<Option<Guid>>, AllocError>
    ensures { IfOk result (λ roots. roots.items ≡ map (root_of graph.now) (guids_of graph.now)) }
{
    let mut roots = vec![in alloc; None; graph.len()]?;
    for index in 0..graph.len() {
        if roots[index].is_none() {
            let distances = graph.distances(alloc, index)?;
            let root = graph.switches()[index];
            fill(&mut roots, &distances, root);
        }
    }
    Ok(roots)
}

/// Sets `root` as the root of each switch that has no root yet and has a distance.
fn fill(roots: &mut [Option<Guid>], distances: &[Option<usize>], root: Guid)
    requires { length roots.old ≡ length distances.now }
    ensures { FillsIn roots.old distances.now root roots.new }
{
    for (i, slot) in roots.iter_mut().enumerate() {
        if slot.is_none() && distances[i].is_some() {
            *slot = Some(root);
        }
    }
}
