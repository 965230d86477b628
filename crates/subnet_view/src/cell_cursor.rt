ghost use Rattle.std.specs.Prelude.{◌≡◌};
ghost use Rattle.fact_store.specs.View.{cells_of};
ghost use Rattle.subnet_view.specs.CellCursor.{IsFrom, KeepsFrom};
ghost use Rattle.reply_facts.specs.Known.{known_in, node_of, port_guid_of, cap_of};
ghost use Rattle.subnet_view.specs.Reading.{is_up};
ghost use Rattle.reply_facts.specs.declared.key.Key.TheVariants.{Node, PortGuid, Port, Cap};

use fact_store::{Cells, Key, Sighting, Store, Value};
use smp_bytes::{Guid, NodeType, PortNum};
use std::marker::Model;

/// A cursor over cells in the order of keys. It looks up keys in ascending order.
#[derive(Drop)]
pub(crate) struct CellCursor<'s> {
    /// The first cell that has not been passed.
    next: Option<Sighting>,
    /// The cells after `next`.
    later: Cells<'s>,
}

impl<'s> Model for CellCursor<'s> {
    ghost use Rattle.std.specs.List.{cons_option};
    ghost use Rattle.fact_store.specs.Iter.{cells_left};
    ghost use Rattle.subnet_view.specs.CellCursor.{AreLeft};
    ghost use Rattle.subnet_view.specs.Reading.{Cells as ViewCells};

    ghost Value = { ViewCells };

    ghost view = { λ a. cons_option a.next (cells_left a.later) };

    ghost invariant = { λ a. AreLeft a.next (cells_left a.later) };
}

impl<'s> CellCursor<'s> {
    /// Creates a cursor before all cells of `store`.
    pub(crate) fn new(store: &'s Store) -> Self
        ensures { result ≡ cells_of store.now }
    {
        let mut later = store.cells();
        let next = later.next();
        CellCursor { next, later }
    }

    /// Returns the type of `node` and its number of ports, or `None` if they are not known.
    pub(crate) fn node(&mut self, node: Guid) -> Option<(NodeType, u8)>
        ensures value { result ≡ node_of self.old node }
        ensures later { KeepsFrom (Node node) self.old self.new }
    {
        match self.known(Key::Node(node))? {
            Value::Kind(kind, ports) => Some((kind, ports)),
            _ => None,
        }
    }

    /// Returns the GUID of `port` of `node`, or `None` if it is not known.
    pub(crate) fn port_guid(&mut self, node: Guid, port: PortNum) -> Option<Guid>
        ensures value { result ≡ port_guid_of self.old node port }
        ensures later { KeepsFrom (PortGuid node port) self.old self.new }
    {
        match self.known(Key::PortGuid(node, port))? {
            Value::Guid(guid) => Some(guid),
            _ => None,
        }
    }

    /// Returns how many LIDs the table of the switch `node` has room for, or `None` if this is not known.
    pub(crate) fn cap(&mut self, node: Guid) -> Option<u16>
        ensures value { result ≡ cap_of self.old node }
        ensures later { KeepsFrom (Cap node) self.old self.new }
    {
        match self.known(Key::Cap(node))? {
            Value::Count(count) => Some(count),
            _ => None,
        }
    }

    /// Returns whether `port` of `node` is known to be up. Passes the cells of keys before `Key::Port(node, port)`.
    pub(crate) fn is_up(&mut self, node: Guid, port: PortNum) -> bool
        ensures value { result ≡ is_up self.old node port }
        ensures later { KeepsFrom (Port node port) self.old self.new }
    {
        matches!(self.known(Key::Port(node, port)), Some(Value::Up(true)))
    }

    /// Returns the value of `key`, or `None` if the value is not known. Passes the cells of keys before `key`.
    fn known(&mut self, key: Key) -> Option<Value>
        ensures value { result ≡ known_in self.old key }
        ensures later { KeepsFrom key self.old self.new }
    {
        self.pass(key);
        let sighting = self.next?;
        if sighting.key() == key {
            sighting.value()
        } else {
            None
        }
    }

    /// Passes the cells of the keys before `key`.
    fn pass(&mut self, key: Key)
        ensures later { KeepsFrom key self.old self.new }
        ensures reached { IsFrom key self.new }
    {
        while let Some(sighting) = self.next {
            if sighting.key() >= key {
                break;
            }
            self.next = self.later.next();
        }
    }
}
