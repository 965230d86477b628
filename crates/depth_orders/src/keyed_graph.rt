ghost use Rattle.std.specs.Prelude.{◌≡◌, length};
ghost use Rattle.port_graph.specs.Heads.{LeadToVertices};

use crate::direction::Direction;
use port_graph::Adjacency;
use spread_labels::VertexKey;

/// A graph with a key for each vertex, and which of two keys is preferred.
#[derive(Clone, Copy)]
pub(crate) struct KeyedGraph<'a> {
    pub(crate) edges: &'a Adjacency,
    pub(crate) keys: &'a [VertexKey],
    pub(crate) direction: Direction,
    ghost lead: { LeadToVertices edges.now },
    ghost have_keys: { length keys.now ≡ length edges.now },
}
