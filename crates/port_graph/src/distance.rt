ghost use Rattle.std.specs.Prelude.{◌≡◌, ◌<◌, length, All, IfOk, OnOk};
ghost use Rattle.port_graph.specs.Heads.{LeadToVertices, AreDistances};
ghost use Rattle.port_graph.specs.Searches.{Search, reach_all};

use crate::adjacency::Adjacency;
use crate::edge::Edge;
use std::alloc::{AllocError, Global};
use std::collections::VecDeque;

/// Returns for each vertex the length of a shortest walk from `from`, or `None` if no walk leads from `from` to the
/// vertex. `from` must be a vertex, and all edges must lead to vertices. Searches breadth first, in time linear in
/// the number of vertices and edges. Returns an error if memory runs out.
pub fn distances(
    alloc: Global,
    edges: &Adjacency,
    from: usize,
) -> Result<Vec<Option<usize>>, AllocError>
    requires vertex { from < length edges.now }
    requires lead { LeadToVertices edges.now }
    ensures { IfOk result (λ distances. AreDistances edges.now from distances.items) }
{
    let mut distances = vec![in alloc; None; edges.len()]?;
    distances[from] = Some(0);
    let mut queue = VecDeque::with_capacity(alloc, edges.len())?;
    queue.push_back((from, 0))?;
    while let Some((vertex, distance)) = queue.pop_front() {
        reach_all(edges.at(vertex), distance + 1, &mut distances, &mut queue)?;
    }
    Ok(distances)
}

/// Gives `distance` to each vertex that `edges` lead to and that has none yet, and appends it to `queue`.
fn reach_all(
    edges: &[Edge],
    distance: usize,
    distances: &mut [Option<usize>],
    queue: &mut VecDeque<(usize, usize)>,
) -> Result<(), AllocError>
    requires { All (λ edge. edge.to < length distances.old) edges.now }
    ensures { let before : Search = (distances.old, queue.old.items) in
        OnOk result (reach_all distance before edges.now ≡ (distances.new, queue.new.items)) }
{
    for edge in edges {
        if distances[edge.to].is_none() {
            distances[edge.to] = Some(distance);
            queue.push_back((edge.to, distance))?;
        }
    }
    Ok(())
}
