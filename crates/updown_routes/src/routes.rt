ghost use Rattle.std.specs.Prelude.{◌≡◌, ◌<◌, All, IfOk, length, map};
ghost use Rattle.port_graph.specs.NextPorts.{AreSlopes};
ghost use Rattle.port_graph.specs.Slopes.{next_port};
ghost use Rattle.updown_routes.specs.Ports.{next_port_at, port_rows};
ghost use Rattle.updown_routes.specs.Ranks.{slopes_of};

use crate::graph::Graph;
use crate::positions::{order, positions};
use crate::up_down_edges::UpDownEdges;
use port_graph::next_ports_between;
use smp_bytes::{Guid, PortNum};
use std::alloc::{AllocError, Global};
use std::marker::Model;
use subnet_view::Refused;

/// The next port of each switch of a graph towards each other switch.
#[derive(Drop)]
pub struct Routes<'g> {
    graph: &'g Graph<'g>,
    /// For each target, in ascending order of GUID, the next port of each switch, in ascending order of GUID. The port
    /// is `None` for the target itself, and for each switch of another component.
    towards: Vec<Vec<Option<PortNum>>>,
}

impl<'g> Model for Routes<'g> {
    ghost use Rattle.std.specs.Prelude.{List, map};
    ghost use Rattle.subnet_view.specs.SwitchEdges.{SwitchEdges};
    ghost use Rattle.updown_routes.specs.Ports.{IsRouted};

    ghost Value = { List SwitchEdges };

    ghost view = { λ a. a.graph.now };

    ghost invariant = { λ a. IsRouted a.graph.now (map (λ ports. ports.items) a.towards.items) };
}

impl<'g> Routes<'g> {
    /// Computes the routes of `graph`. For each target, takes at most time linear in the number of switches and wires.
    /// Returns an error if memory runs out.
    pub fn of(alloc: Global, graph: &'g Graph<'g>) -> Result<Self, Refused>
        ensures { IfOk result (λ routes. routes ≡ graph.now) }
    {
        let order = order(alloc, graph.ranks())?;
        let positions = positions(alloc, &order)?;
        let slopes = UpDownEdges::of(alloc, graph, &order, &positions)?;
        let towards = towards(alloc, &slopes, &positions)?;
        Ok(Routes { graph, towards })
    }

    /// Returns the port by which a packet leaves `switch` for `target`. The port leads down if a walk down leads to
    /// `target`, and otherwise up. Returns `None` if `switch` is `target`, if the two are in different components, or
    /// if one of the two is not in the graph. Does two binary searches among the switches.
    pub fn next_port(&self, switch: Guid, target: Guid) -> Option<PortNum>
        ensures { result ≡ next_port (slopes_of self.now) switch target }
    {
        let switch = self.graph.index_of(switch)?;
        let target = self.graph.index_of(target)?;
        self.next_port_at(switch, target)
    }

    /// Returns the next port of the switch at index `switch` towards the switch at index `target`. Returns `None` if
    /// there is no next port, or if there is no switch at one of the indices. Takes constant time.
    pub fn next_port_at(&self, switch: usize, target: usize) -> Option<PortNum>
        ensures { result ≡ next_port_at self.now switch target }
    {
        let ports = self.towards.get(target)?;
        ports.get(switch).copied().flatten()
    }
}

/// Returns a row for each of `positions` as a target: the next port of each of `positions` towards it, if there is one.
fn towards(
    alloc: Global,
    slopes: &UpDownEdges,
    positions: &[usize],
) -> Result<Vec<Vec<Option<PortNum>>>, AllocError>
    requires slopes { AreSlopes slopes.now.ups slopes.now.downs }
    requires positions { All (λ p. p < length slopes.now.ups) positions.now }
    ensures { IfOk result (λ towards. map (λ ports. ports.items) towards.items
        ≡ port_rows slopes.now.ups slopes.now.downs positions.now) }
{
    next_ports_between(alloc, &slopes.ups, &slopes.downs, positions)
}
