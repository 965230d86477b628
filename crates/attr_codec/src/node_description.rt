use crate::attribute::Attribute;
use smp_bytes::AttributeId;
use std::marker::Model;

/// The operator's name for a node: 64 bytes of text, padded with zeros (subnet management, NodeDescription). All 64
/// bytes are kept as they are. Contracts see the bytes.
#[derive(Clone, Copy, Debug, PartialEq, Eq)]
pub struct NodeDescription {
    bytes: [u8; 64],
}

impl Model for NodeDescription {
    ghost use Rattle.std.specs.Prelude.{ℕ, List};

    ghost Value = { List ℕ };

    ghost view = { λ a. a.bytes };

    ghost inverse = { λ bytes. record { bytes = bytes } };
}

impl Attribute for NodeDescription {
    ghost use Rattle.std.specs.Prelude.{refl};
    ghost use Rattle.smp_bytes.specs.Header.{node_description};

    const ID: u16 = AttributeId::NODE_DESCRIPTION.0;

    ghost ID = { node_description };

    ghost is_value = { λ _. Unit {0} };

    ghost value_in = { λ bytes. bytes };

    ghost bytes_of = { λ text. text };

    fn decode(bytes: &[u8; 64]) -> Self {
        NodeDescription { bytes: *bytes }
    }

    fn encode(&self) -> [u8; 64] {
        self.bytes
    }

    ghost reads_back = { λ _ _. refl };
}
