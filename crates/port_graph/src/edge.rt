use smp_bytes::PortNum;

/// An edge of a graph, seen from the vertex that it leaves.
#[derive(Clone, Copy, Debug, PartialEq, Eq)]
pub struct Edge {
    /// The port by which the edge leaves.
    pub port: PortNum,
    /// The vertex to which the edge leads.
    pub to: usize,
}
