ghost use Rattle.std.specs.Prelude.{◌≡◌, ◌&&◌, is_some, if◌then◌else◌};
ghost use Rattle.fact_store.specs.View.{cells_of};
ghost use Rattle.smp_bytes.specs.Ports.{is_within};
ghost use Rattle.subnet_view.specs.Reading.{is_switch_in};
ghost use Rattle.subnet_view.specs.WireEnds.{count_of, is_end_read, end_read, KeepsPort, PassesNone, ReadsAll};

use crate::cell_cursor::CellCursor;
use crate::reading::peer_said;
use fact_store::{Key, Sighting, Store};
use smp_bytes::{Guid, NodeType, PortNum};

/// A reader of what is known of ports. It looks up ports in ascending order.
#[derive(Drop)]
pub(crate) struct PortReader<'s> {
    nodes: CellCursor<'s>,
    guids: CellCursor<'s>,
    ports: CellCursor<'s>,
    caps: CellCursor<'s>,
}

impl<'s> PortReader<'s> {
    /// Creates a reader of all cells of `store`.
    pub(crate) fn new(store: &'s Store) -> Self
        ensures { ReadsAll (cells_of store.now) result }
    {
        PortReader {
            nodes: CellCursor::new(store),
            guids: CellCursor::new(store),
            ports: CellCursor::new(store),
            caps: CellCursor::new(store),
        }
    }

    /// Returns the port in the key of `sighting` and the far end of its link. Returns `None` if the link is not known,
    /// or if the port cannot have a wire. Passes what is known of earlier ports.
    pub(crate) fn wire_end(
        &mut self,
        sighting: &Sighting,
    ) -> Option<((Guid, PortNum), (Guid, PortNum))>
        ensures end { result ≡ end_read self.old sighting.now }
        ensures later { PassesNone sighting.now.0 self.old self.new }
    {
        match sighting.key() {
            Key::Link(node, port) => {
                if self.is_wire_end(node, port) {
                    Some(((node, port), peer_said(sighting)?))
                } else {
                    None
                }
            }
            _ => None,
        }
    }

    /// Returns whether `port` of `node` can have a wire. Passes what is known of earlier ports.
    fn is_wire_end(&mut self, node: Guid, port: PortNum) -> bool
        ensures end { result ≡ is_end_read self.old node port }
        ensures later { KeepsPort node port self.old self.new }
    {
        let is_up = self.ports.is_up(node, port);
        let known = self.nodes.node(node);
        let has_room = self.caps.cap(node).is_some();
        let has_guid = self.guids.port_guid(node, port).is_some();
        is_up && is_port_of(port, known) && if is_switch(known) { has_room } else { has_guid }
    }
}

/// Returns whether `port` is from 1 to the number of ports in `node`, which is what is known of the port's node.
fn is_port_of(port: PortNum, node: Option<(NodeType, u8)>) -> bool
    ensures { result ≡ is_within port (count_of node) }
{
    match node {
        Some((_, ports)) => port.is_within(ports),
        None => false,
    }
}

/// Returns whether `node`, which is what is known of a node, says that the node is a switch.
fn is_switch(node: Option<(NodeType, u8)>) -> bool
    ensures { result ≡ is_switch_in node }
{
    matches!(node, Some((NodeType::Switch, _)))
}
