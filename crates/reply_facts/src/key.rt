ghost use Rattle.std.specs.Prelude.{◌≡◌};

use smp_bytes::{Guid, PortNum};
use std::cmp::Ordering;

/// The subject of a fact. Keys are ordered by kind, as listed here, then by GUID, and then by port.
#[derive(Clone, Copy, Debug)]
pub enum Key {
    /// A node, by its GUID.
    Node(Guid),
    /// The GUID of a port of a node.
    PortGuid(Guid, PortNum),
    /// The other end of the cable in a port of a node.
    Link(Guid, PortNum),
    /// Whether a port of a node is up.
    Port(Guid, PortNum),
    /// The LID that a port of a node claims.
    Claim(Guid, PortNum),
    /// The number of LIDs for which a switch's linear forwarding table has room.
    Cap(Guid),
}

impl Key {
    ghost use Rattle.reply_facts.specs.Key.{key_guid, key_kind, key_numbers, key_port, kind_word};

    /// Returns the numbers by which keys are ordered: the kind, the GUID, and the port or 0.
    pub(crate) fn sort_key(&self) -> [u64; 3]
        ensures { result ≡ key_numbers self.now }
    {
        [
            u64::from(self.kind()),
            self.guid().number(),
            u64::from(self.port().number()),
        ]
    }

    /// Returns the number of the key's kind, from 1 to 6, in the order of the kinds.
    pub fn kind(&self) -> u8
        ensures { result ≡ key_kind self.now }
    {
        match *self {
            Key::Node(_) => 1,
            Key::PortGuid(..) => 2,
            Key::Link(..) => 3,
            Key::Port(..) => 4,
            Key::Claim(..) => 5,
            Key::Cap(_) => 6,
        }
    }

    /// Returns the word for the key's kind: `node`, `portguid`, `link`, `port`, `claim` or `cap`.
    pub fn word(&self) -> &'static str
        ensures { result.now ≡ kind_word self.now }
    {
        match *self {
            Key::Node(_) => "node",
            Key::PortGuid(..) => "portguid",
            Key::Link(..) => "link",
            Key::Port(..) => "port",
            Key::Claim(..) => "claim",
            Key::Cap(_) => "cap",
        }
    }

    /// Returns the GUID of the node that the key is about.
    pub fn guid(&self) -> Guid
        ensures { result ≡ key_guid self.now }
    {
        match *self {
            Key::Node(node)
            | Key::PortGuid(node, _)
            | Key::Link(node, _)
            | Key::Port(node, _)
            | Key::Claim(node, _)
            | Key::Cap(node) => node,
        }
    }

    /// Returns the port that the key is about, or 0 if the key has no port.
    pub fn port(&self) -> PortNum
        ensures { result ≡ key_port self.now }
    {
        match *self {
            Key::Node(_) | Key::Cap(_) => PortNum::new(0),
            Key::PortGuid(_, port)
            | Key::Link(_, port)
            | Key::Port(_, port)
            | Key::Claim(_, port) => port,
        }
    }
}

impl PartialEq for Key {
    ghost use Rattle.std.specs.Cmp.{eq_by_cmp_equiv, on_total, partial_equiv_from_equiv};
    ghost use Rattle.std.specs.Cmp.Lexicographic.{nat_list_cmp_total};
    ghost use Rattle.std.specs.Ordering.{eq_by_cmp};
    ghost use Rattle.reply_facts.specs.Key.{key_cmp, key_numbers};

    ghost eq = { eq_by_cmp key_cmp };

    ghost laws = { partial_equiv_from_equiv (eq_by_cmp_equiv (on_total key_numbers nat_list_cmp_total)) };

    fn eq(&self, other: &Self) -> bool {
        self.cmp(other) == Ordering::Equal
    }
}

impl Eq for Key {
    ghost use Rattle.std.specs.Cmp.{eq_by_cmp_equiv, on_total};
    ghost use Rattle.std.specs.Cmp.Lexicographic.{nat_list_cmp_total};
    ghost use Rattle.reply_facts.specs.Key.{key_numbers};

    ghost laws = { eq_by_cmp_equiv (on_total key_numbers nat_list_cmp_total) };
}

impl PartialOrd for Key {
    ghost use Rattle.std.specs.Cmp.{on_total, partial_order_from_total};
    ghost use Rattle.std.specs.Cmp.Lexicographic.{nat_list_cmp_total};
    ghost use Rattle.std.specs.Ordering.{as_partial_cmp};
    ghost use Rattle.reply_facts.specs.Key.{key_cmp, key_numbers};

    ghost partial_cmp = { as_partial_cmp key_cmp };

    ghost laws = { partial_order_from_total (on_total key_numbers nat_list_cmp_total) };

    fn partial_cmp(&self, other: &Self) -> Option<Ordering> {
        Some(self.cmp(other))
    }
}

impl Ord for Key {
    ghost use Rattle.std.specs.Prelude.{refl};
    ghost use Rattle.std.specs.Cmp.{on_total};
    ghost use Rattle.std.specs.Cmp.Lexicographic.{nat_list_cmp_total};
    ghost use Rattle.reply_facts.specs.Key.{key_cmp, key_numbers};

    ghost cmp = { key_cmp };

    ghost total = { on_total key_numbers nat_list_cmp_total };

    ghost matches_partial_cmp = { λ a b. refl };

    ghost matches_eq = { λ a b. refl };

    fn cmp(&self, other: &Self) -> Ordering {
        self.sort_key().cmp(&other.sort_key())
    }
}
