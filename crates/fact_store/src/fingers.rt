ghost use Rattle.std.specs.Prelude.{◌≡◌, ◌<◌, Some};
ghost use Rattle.fact_store.specs.Fingers.{after_put, by_guid, by_kind, hash_of};

use page_list::Slot;
use reply_facts::Key;
use smp_bytes::Guid;

/// The number of hash values of GUIDs.
const GUIDS: usize = 256;

/// The slots where cells were put last, by the kind of their keys. The search for the next key of a kind begins at the
/// slot of that kind. A report has the two ends of a link one after the other, so a link is looked for at the last slot
/// but one. The neighbors of a switch report it in turn, so nodes, port GUIDs and links also have a last slot for each
/// hash of a GUID.
#[derive(Clone, Copy)]
pub(crate) struct Fingers {
    node: Slot,
    port_guid: Slot,
    /// The last slot but one, and the last slot.
    links: [Slot; 2],
    port: Slot,
    claim: Slot,
    cap: Slot,
    /// The slot where a node was put last, by the hash of its GUID.
    nodes: [Slot; GUIDS],
    /// The slot where a port GUID was put last, by the hash of its node's GUID.
    port_guids: [Slot; GUIDS],
    /// The slot where a link was put last, by the hash of its node's GUID.
    link_ends: [Slot; GUIDS],
}

impl Fingers {
    /// Creates fingers that all point to the first slot.
    pub(crate) fn new() -> Self {
        let first = Slot::first();
        Fingers {
            node: first,
            port_guid: first,
            links: [first, first],
            port: first,
            claim: first,
            cap: first,
            nodes: [first; GUIDS],
            port_guids: [first; GUIDS],
            link_ends: [first; GUIDS],
        }
    }

    /// Returns the slot where the search for `key` begins: the last slot of its kind, or the last but one for a link.
    pub(crate) fn by_kind(&self, key: &Key) -> Slot
        ensures { Some result ≡ by_kind self.now key.now }
    {
        match key {
            Key::Node(_) => self.node,
            Key::PortGuid(..) => self.port_guid,
            Key::Link(..) => self.links[0],
            Key::Port(..) => self.port,
            Key::Claim(..) => self.claim,
            Key::Cap(_) => self.cap,
        }
    }

    /// Returns the last slot of the kind of `key` for the hash of its GUID, or `None` if its kind has none by GUID.
    pub(crate) fn by_guid(&self, key: &Key) -> Option<Slot>
        ensures { result ≡ by_guid self.now key.now }
    {
        match key {
            Key::Node(node) => Some(self.nodes[hash(*node)]),
            Key::PortGuid(node, _) => Some(self.port_guids[hash(*node)]),
            Key::Link(node, _) => Some(self.link_ends[hash(*node)]),
            Key::Port(..) | Key::Claim(..) | Key::Cap(_) => None,
        }
    }

    /// Notes that the cell of `key` was put at `slot`.
    pub(crate) fn put(&mut self, key: &Key, slot: Slot)
        ensures { self.new ≡ after_put self.old key.now slot }
    {
        match key {
            Key::Node(node) => {
                self.node = slot;
                self.nodes[hash(*node)] = slot;
            }
            Key::PortGuid(node, _) => {
                self.port_guid = slot;
                self.port_guids[hash(*node)] = slot;
            }
            Key::Link(node, _) => {
                self.links = [self.links[1], slot];
                self.link_ends[hash(*node)] = slot;
            }
            Key::Port(..) => self.port = slot,
            Key::Claim(..) => self.claim = slot,
            Key::Cap(_) => self.cap = slot,
        }
    }
}

/// Returns a hash of `guid`, less than 256: bits 32 to 39 of its product with a fixed number.
fn hash(guid: Guid) -> usize
    ensures is { result ≡ hash_of guid }
    ensures small { result < 256 }
{
    let mixed = guid.number().wrapping_mul(0x9E37_79B9_7F4A_7C15) >> 32;
    mixed as usize % GUIDS
}
