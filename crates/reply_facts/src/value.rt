use fact_join::Exact;
use smp_bytes::{Guid, Lid, NodeType, PortNum};

/// The value of a fact. The fact's key says what the value is about.
#[derive(Clone, Copy, Debug)]
pub enum Value {
    /// For a node: its type and its number of ports.
    Kind(NodeType, u8),
    /// For a port: its GUID.
    Guid(Guid),
    /// For a link: the node and the port at its other end.
    Peer(Guid, PortNum),
    /// For a port: whether it is up.
    Up(bool),
    /// For a port: the LID that it claims.
    Lid(Lid),
    /// For a switch: the number of LIDs that its linear forwarding table has room for.
    Count(u16),
}

impl PartialEq for Value {
    ghost use Rattle.std.specs.Cmp.{partial_equiv_from_equiv};
    ghost use Rattle.reply_facts.specs.Value.{is_same_value};
    ghost use Rattle.reply_facts.specs.Values.{same_value_equiv};

    ghost eq = { is_same_value };

    ghost laws = { partial_equiv_from_equiv same_value_equiv };

    fn eq(&self, other: &Self) -> bool {
        match (self, other) {
            (Value::Kind(a, m), Value::Kind(b, n)) => a == b && m == n,
            (Value::Guid(a), Value::Guid(b)) => a == b,
            (Value::Peer(a, m), Value::Peer(b, n)) => a == b && m == n,
            (Value::Up(a), Value::Up(b)) => a == b,
            (Value::Lid(a), Value::Lid(b)) => a == b,
            (Value::Count(a), Value::Count(b)) => a == b,
            _ => false,
        }
    }
}

impl Eq for Value {
    ghost use Rattle.reply_facts.specs.Values.{same_value_equiv};

    ghost laws = { same_value_equiv };
}

impl Exact for Value {
    ghost use Rattle.reply_facts.specs.Values.{same_value_exact};

    ghost exact = { same_value_exact };
}
