ghost use Rattle.std.specs.Prelude.{◌≡◌, ◌<◌, length, All, IfOk};
ghost use Rattle.port_graph.specs.NextPorts.{AreSlopes, AreNextPorts, port_by, port_nearer};

use crate::adjacency::Adjacency;
use crate::cost::costs;
use crate::distance::distances;
use crate::edge::Edge;
use smp_bytes::PortNum;
use std::alloc::{AllocError, Global};

/// Returns the next port of each vertex towards `target`, or `None` for `target` and each vertex without a route. Takes
/// time linear in the number of vertices and edges. Returns an error if memory runs out.
pub(crate) fn next_ports(
    alloc: Global,
    ups: &Adjacency,
    downs: &Adjacency,
    target: usize,
) -> Result<Vec<Option<PortNum>>, AllocError>
    requires slopes { AreSlopes ups.now downs.now }
    requires target { target < length ups.now }
    ensures { IfOk result (λ ports. AreNextPorts ups.now downs.now target ports.items) }
{
    let distances = distances(alloc, ups, target)?;
    let costs = costs(alloc, ups, &distances)?;
    let mut ports = Vec::with_capacity(alloc, ups.len())?;
    for vertex in 0..ups.len() {
        ports.push(next_port(ups, downs, &distances, &costs, vertex))?;
    }
    Ok(ports)
}

/// Returns the next port of `vertex` by the down distances `distances` and the `costs` of all vertices, or `None`.
fn next_port(
    ups: &Adjacency,
    downs: &Adjacency,
    distances: &[Option<usize>],
    costs: &[Option<usize>],
    vertex: usize,
) -> Option<PortNum>
    requires slopes { AreSlopes ups.now downs.now }
    requires vertex { vertex < length ups.now }
    requires distances { length distances.now ≡ length ups.now }
    requires costs { length costs.now ≡ length ups.now }
    ensures { result ≡ port_by ups.now downs.now distances.now costs.now vertex }
{
    let distance = distances[vertex];
    if distance.is_some() {
        port_nearer(downs.at(vertex), distances, distance)
    } else {
        port_nearer(ups.at(vertex), costs, costs[vertex])
    }
}

/// Returns the port of the first edge to a vertex whose number is one less than `number`, or `None` if there is none.
fn port_nearer(edges: &[Edge], numbers: &[Option<usize>], number: Option<usize>) -> Option<PortNum>
    requires { All (λ edge. edge.to < length numbers.now) edges.now }
    ensures { result ≡ port_nearer edges.now numbers.now number }
{
    let nearer = number?.checked_sub(1)?;
    let edge = edges.iter().find(|edge| numbers[edge.to] == Some(nearer))?;
    Some(edge.port)
}
