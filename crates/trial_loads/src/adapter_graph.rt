ghost use Rattle.std.specs.Prelude.{◌≡◌, length};
ghost use Rattle.port_graph.specs.Heads.{LeadToVertices};

use port_graph::Adjacency;

/// A graph with the number of adapters at each vertex.
#[derive(Clone, Copy)]
pub(crate) struct AdapterGraph<'a> {
    pub(crate) edges: &'a Adjacency,
    /// The number of adapters at each vertex.
    pub(crate) adapters: &'a [u16],
    ghost lead: { LeadToVertices edges.now },
    ghost have_adapters: { length adapters.now ≡ length edges.now },
}
