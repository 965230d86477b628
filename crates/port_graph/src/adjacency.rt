ghost use Rattle.std.specs.Prelude.{◌≡◌, [], ◌∷◌, ◌++◌, length, OnOk, OnErr, slice_index_or};

use crate::edge::Edge;
use std::alloc::{AllocError, Global};
use std::marker::Model;

/// The edges of each vertex, all in one list. Vertices are numbered from 0.
#[derive(Drop)]
pub struct Adjacency {
    /// The part of `edges` that belongs to each vertex.
    spans: Vec<Span>,
    edges: Vec<Edge>,
}

/// A part of a list: from `start` up to, but not including, `end`.
#[derive(Clone, Copy)]
struct Span {
    start: usize,
    end: usize,
}

impl Model for Adjacency {
    ghost use Rattle.std.specs.Prelude.{List};
    ghost use Rattle.port_graph.specs.declared.edge.Edge.{Edge as GraphEdge};
    ghost use Rattle.port_graph.specs.Spans.{cut, AreWithin};

    ghost Value = { List (List GraphEdge) };

    ghost view = { λ a. cut a.edges.items a.spans.items };

    ghost invariant = { λ a. AreWithin a.edges.items a.spans.items };
}

impl Adjacency {
    /// Creates an adjacency without vertices.
    pub fn new(alloc: Global) -> Self
        ensures { result ≡ [] }
    {
        Adjacency {
            spans: Vec::new(alloc),
            edges: Vec::new(alloc),
        }
    }

    /// Returns the number of vertices.
    pub fn len(&self) -> usize
        ensures { result ≡ length self.now }
    {
        self.spans.len()
    }

    /// Adds a vertex with `edges`, in the order given. If memory runs out, returns an error, and nothing changes.
    pub fn push_vertex(&mut self, edges: &[Edge]) -> Result<(), AllocError>
        ensures added { OnOk result (self.new ≡ self.old ++ edges.now ∷ []) }
        ensures unchanged { OnErr result (self.new ≡ self.old) }
    {
        let start = self.edges.len();
        self.edges.extend_from_slice(edges)?;
        let end = self.edges.len();
        self.spans.push(Span { start, end })?;
        Ok(())
    }

    /// Returns the edges of `vertex` in the order in which they were given, or no edges if `vertex` is not a vertex
    /// of the graph. Takes constant time.
    pub fn at(&self, vertex: usize) -> &[Edge]
        ensures { result.now ≡ slice_index_or self.now vertex [] }
    {
        match self.spans.get(vertex) {
            Some(span) => &self.edges[span.start..span.end],
            None => &[],
        }
    }
}
