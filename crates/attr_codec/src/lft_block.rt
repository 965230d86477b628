ghost use Rattle.std.specs.Prelude.{◌≡◌, ◌<◌, slice_index, slice_set};

use crate::attribute::Attribute;
use smp_bytes::{AttributeId, PortNum};
use std::marker::Model;

/// A block of a linear forwarding table (subnet management, LinearForwardingTable): an entry for each of 64 LIDs. The
/// LID of entry `i` in block `b` is `64 * b + i`. An entry is a port number, or 255 if packets for the LID are dropped.
/// Contracts see the list of ports. Tables, agents and steps keep the entries as packets carry them, `[u8; 64]`, since
/// blocks are read and written whole.
#[derive(Clone, Copy, Debug, PartialEq, Eq)]
pub struct LftBlock {
    ports: [u8; 64],
}

impl Model for LftBlock {
    ghost use Rattle.std.specs.Prelude.{ℕ, List};

    ghost Value = { List ℕ };

    ghost view = { λ a. a.ports };

    ghost inverse = { λ ports. record { ports = ports } };
}

impl LftBlock {
    /// Returns the port of entry `i`, which must be less than 64.
    pub fn port(&self, i: usize) -> PortNum
        requires { i < 64 }
        ensures { result ≡ slice_index self.now i }
    {
        PortNum::new(self.ports[i])
    }

    /// Sets the port of entry `i`, which must be less than 64.
    pub fn set_port(&mut self, i: usize, to: PortNum)
        requires { i < 64 }
        ensures { self.new ≡ slice_set self.old i to }
    {
        self.ports[i] = to.number();
    }
}

impl Attribute for LftBlock {
    ghost use Rattle.std.specs.Prelude.{refl};
    ghost use Rattle.smp_bytes.specs.Header.{linear_forwarding_table};

    const ID: u16 = AttributeId::LINEAR_FORWARDING_TABLE.0;

    ghost ID = { linear_forwarding_table };

    ghost is_value = { λ _. Unit {0} };

    ghost value_in = { λ bytes. bytes };

    ghost bytes_of = { λ ports. ports };

    fn decode(bytes: &[u8; 64]) -> Self {
        LftBlock { ports: *bytes }
    }

    fn encode(&self) -> [u8; 64] {
        self.ports
    }

    ghost reads_back = { λ _ _. refl };
}
