ghost use Rattle.std.specs.Prelude.{◌≡◌};
ghost use Rattle.reply_facts.specs.Known.{known_in, node_of, port_guid_of, link_of, up_of, claim_of, cap_of};
ghost use Rattle.fact_store.specs.View.{cells_of};

use crate::store::Store;
use fact_join::Cell;
use reply_facts::{Key, Value};
use smp_bytes::{Guid, Lid, NodeType, PortNum};

// Each reader does one binary search.
impl Store {
    /// Returns the value of `key`, or `None` if `key` has no cell or a disputed one.
    pub fn known(&self, key: Key) -> Option<Value>
        ensures { result ≡ known_in (cells_of self.now) key }
    {
        match self.get(key)? {
            Cell::Known(_, value) => Some(value),
            Cell::Disputed(_) => None,
        }
    }

    /// Returns the type of `node` and its number of ports, or `None` if they are not known.
    pub fn node(&self, node: Guid) -> Option<(NodeType, u8)>
        ensures { result ≡ node_of (cells_of self.now) node }
    {
        match self.known(Key::Node(node))? {
            Value::Kind(kind, ports) => Some((kind, ports)),
            _ => None,
        }
    }

    /// Returns the GUID of `port` of `node`, or `None` if it is not known.
    pub fn port_guid(&self, node: Guid, port: PortNum) -> Option<Guid>
        ensures { result ≡ port_guid_of (cells_of self.now) node port }
    {
        match self.known(Key::PortGuid(node, port))? {
            Value::Guid(guid) => Some(guid),
            _ => None,
        }
    }

    /// Returns the node and the port at the other end of the link of `port` of `node`, or `None` if they are not known.
    pub fn link(&self, node: Guid, port: PortNum) -> Option<(Guid, PortNum)>
        ensures { result ≡ link_of (cells_of self.now) node port }
    {
        match self.known(Key::Link(node, port))? {
            Value::Peer(guid, port) => Some((guid, port)),
            _ => None,
        }
    }

    /// Returns whether `port` of `node` is up, or `None` if that is not known.
    pub fn is_up(&self, node: Guid, port: PortNum) -> Option<bool>
        ensures { result ≡ up_of (cells_of self.now) node port }
    {
        match self.known(Key::Port(node, port))? {
            Value::Up(up) => Some(up),
            _ => None,
        }
    }

    /// Returns the LID that `port` of `node` claims, or `None` if it is not known.
    pub fn claim(&self, node: Guid, port: PortNum) -> Option<Lid>
        ensures { result ≡ claim_of (cells_of self.now) node port }
    {
        match self.known(Key::Claim(node, port))? {
            Value::Lid(lid) => Some(lid),
            _ => None,
        }
    }

    /// Returns the number of LIDs that the linear forwarding table of the switch `node` has room for, or `None` if it
    /// is not known.
    pub fn cap(&self, node: Guid) -> Option<u16>
        ensures { result ≡ cap_of (cells_of self.now) node }
    {
        match self.known(Key::Cap(node))? {
            Value::Count(count) => Some(count),
            _ => None,
        }
    }
}
