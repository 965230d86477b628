ghost use Rattle.std.specs.Prelude.{◌≡◌, IfOk};
ghost use Rattle.fact_store.specs.View.{cells_of};
ghost use Rattle.subnet_view.specs.WireEnds.{end_link, is_pair, wire_ends};
ghost use Rattle.subnet_view.specs.Wires.{across, attached};

use crate::port_reader::PortReader;
use crate::reading::is_switch;
use fact_store::{Refused, Store};
use smp_bytes::{Guid, PortNum};
use std::alloc::{AllocError, Global};
use std::marker::Model;

/// The wires of a view, found in one walk through the cells of the view.
#[derive(Drop)]
pub struct Wires<'s> {
    store: &'s Store,
    /// The ports that can have a wire and whose links are known, each with the far end, in ascending order of GUID and
    /// port.
    ends: Vec<((Guid, PortNum), (Guid, PortNum))>,
}

impl<'s> Model for Wires<'s> {
    ghost use Rattle.std.specs.Prelude.{◌≡◌};
    ghost use Rattle.fact_store.specs.Coded.{facts_code};
    ghost use Rattle.fact_store.specs.View.{Facts, cells_of};
    ghost use Rattle.subnet_view.specs.WireEnds.{wire_ends};

    ghost Value = { Facts };

    ghost coded = { facts_code };

    ghost view = { λ a. a.store.now };

    ghost invariant = { λ a. a.ends.items ≡ wire_ends (cells_of a.store.now) };
}

impl<'s> Wires<'s> {
    /// Finds the wires of the view in `store`. Walks the cells. Returns an error if memory runs out.
    pub fn of(alloc: Global, store: &'s Store) -> Result<Self, Refused>
        ensures { IfOk result (λ wires. wires ≡ store.now) }
    {
        let ends = wire_ends(alloc, store)?;
        Ok(Wires { store, ends })
    }

    /// Returns the store that the wires were found in.
    pub fn store(&self) -> &'s Store
        ensures { result.now ≡ self.now }
    {
        self.store
    }

    /// Returns the node and the port at the other end of the wire in `port` of `node`, as `wire` does. Does at most two
    /// binary searches among the ports that can have a wire.
    pub fn across(&self, node: Guid, port: PortNum) -> Option<(Guid, PortNum)>
        ensures { result ≡ across (cells_of self.now) node port }
    {
        let (far_node, far_port) = self.end_link(node, port)?;
        let back = self.end_link(far_node, far_port);
        if is_pair((node, port), (far_node, far_port), back) {
            Some((far_node, far_port))
        } else {
            None
        }
    }

    /// Returns the switch, and the port of it, that the wire in `port` of `node` leads to, as `attached` does. Does at
    /// most two binary searches among the cells, and two among the ports that can have a wire.
    pub fn attached(&self, node: Guid, port: PortNum) -> Option<(Guid, PortNum)>
        ensures { result ≡ attached (cells_of self.now) node port }
    {
        if is_switch(self.store, node) {
            return None;
        }
        let (far_node, far_port) = self.across(node, port)?;
        if is_switch(self.store, far_node) {
            Some((far_node, far_port))
        } else {
            None
        }
    }

    /// Returns the far end of the known link at `port` of `node`, if the port can have a wire. Does a binary search.
    fn end_link(&self, node: Guid, port: PortNum) -> Option<(Guid, PortNum)>
        ensures { result ≡ end_link (cells_of self.now) node port }
    {
        let end_index = self
            .ends
            .binary_search_by_key(&(node, port), |end| end.0)
            .ok()?;
        Some(self.ends[end_index].1)
    }
}

/// Returns whether `near` and `far` are different ports and `back`, the far end of the link at `far`, is `near`.
fn is_pair(near: (Guid, PortNum), far: (Guid, PortNum), back: Option<(Guid, PortNum)>) -> bool
    ensures { result ≡ is_pair near far back }
{
    near != far && back == Some(near)
}

/// Returns the ports that can have a wire and whose links are known, each with its far end, in ascending order.
fn wire_ends(
    alloc: Global,
    store: &Store,
) -> Result<Vec<((Guid, PortNum), (Guid, PortNum))>, AllocError>
    ensures { IfOk result (λ ends. ends.items ≡ wire_ends (cells_of store.now)) }
{
    let mut ends = Vec::new(alloc);
    let mut reader = PortReader::new(store);
    for sighting in store.cells() {
        if let Some(end) = reader.wire_end(&sighting) {
            ends.push(end)?;
        }
    }
    Ok(ends)
}
