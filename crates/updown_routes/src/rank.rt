ghost use Rattle.std.specs.Prelude.{◌≡◌, IfOk, OnOk, length, map};
ghost use Rattle.subnet_view.specs.Graph.{guids_of};
ghost use Rattle.subnet_view.specs.GraphLaws.{IsGraph};
ghost use Rattle.updown_routes.specs.Order.{FillsIn};
ghost use Rattle.updown_routes.specs.Ranks.{rank_of};

use std::alloc::{AllocError, Global};
use subnet_view::SwitchGraph;

/// Returns the rank of each switch, in ascending order of GUID. Does a breadth-first search for each component.
pub(crate) fn ranks(alloc: Global, graph: &SwitchGraph) -> Result<Vec<Option<usize>>, AllocError>
    ensures ranks { IfOk result (λ ranks. ranks.items ≡ map (rank_of graph.now) (guids_of graph.now)) }
    ensures is_graph { OnOk result (IsGraph graph.now) }
{
    let mut ranks = vec![in alloc; None; graph.len()]?;
    for root in 0..graph.len() {
        if ranks[root].is_none() {
            let distances = graph.distances(alloc, root)?;
            fill(&mut ranks, &distances);
        }
    }
    Ok(ranks)
}

/// Sets each missing rank of `ranks` to the distance at its index in `distances`, if there is one.
fn fill(ranks: &mut [Option<usize>], distances: &[Option<usize>])
    requires { length ranks.old ≡ length distances.now }
    ensures { FillsIn ranks.old distances.now ranks.new }
{
    for (i, rank) in ranks.iter_mut().enumerate() {
        *rank = rank.or(distances[i]);
    }
}
