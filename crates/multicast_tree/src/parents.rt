//! The port of each switch to its parent in the tree of an order.
ghost use Rattle.std.specs.Prelude.{◌≡◌, ◌<◌, IfOk, length, slice_index};
ghost use Rattle.subnet_view.specs.SwitchGraph.{LeadBelow};
ghost use Rattle.multicast_tree.specs.Tree.{first_before, parent_ports};

use port_graph::Edge;
use smp_bytes::PortNum;
use std::alloc::{AllocError, Global};
use subnet_view::SwitchGraph;

/// Returns the port of each switch of `graph` to its parent, in ascending order of GUID. `positions` must have the
/// position of each switch. Takes time linear in the number of edges. Returns an error if memory runs out.
pub(crate) fn parent_ports(
    alloc: Global,
    graph: &SwitchGraph,
    positions: &[usize],
) -> Result<Vec<Option<PortNum>>, AllocError>
    requires { length positions.now ≡ length graph.now }
    ensures { IfOk result (λ ports.
        ports.items ≡ parent_ports graph.now positions.now) }
{
    let mut ports = Vec::new(alloc);
    for index in 0..graph.len() {
        ports.push(parent_port(graph.edges(index), positions, index))?;
    }
    Ok(ports)
}

/// Returns the port of the switch at `index` to its parent, given its `edges` and the `positions` of all switches.
fn parent_port(edges: &[Edge], positions: &[usize], index: usize) -> Option<PortNum>
    requires within { index < length positions.now }
    requires to_switches { LeadBelow (length positions.now) edges.now }
    ensures { result ≡ first_before (slice_index positions.now) (slice_index positions.now index) edges.now }
{
    let mut bound = positions[index];
    let mut port = None;
    for edge in edges {
        let position = positions[edge.to];
        if position < bound {
            bound = position;
            port = Some(edge.port);
        }
    }
    port
}
