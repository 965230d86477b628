ghost use Rattle.std.specs.Prelude.{◌≡◌};
ghost use Rattle.attr_codec.specs.NodeTypeNumber.{number_of_type, type_of_number};

use smp_bytes::NodeType;
use std::marker::Model;

/// The type of a node as NodeInfo spells it: a number, possibly a reserved one.
#[derive(Clone, Copy, Debug, PartialEq, Eq)]
pub struct NodeTypeNumber(u8);

impl Model for NodeTypeNumber {
    ghost use Rattle.std.specs.Prelude.{ℕ};

    ghost Value = { ℕ };

    ghost view = { λ a. a.0 };

    ghost inverse = { λ n. record { 0 = n } };
}

impl NodeTypeNumber {
    /// Creates the number of a node type. The number may be reserved.
    pub fn new(number: u8) -> Self
        ensures { result ≡ number }
    {
        NodeTypeNumber(number)
    }

    /// Returns the node type as a number.
    pub fn number(self) -> u8
        ensures { result ≡ self }
    {
        self.0
    }

    /// Returns the type, or `None` if the number is reserved.
    pub fn node_type(self) -> Option<NodeType>
        ensures { result ≡ type_of_number self }
    {
        NODE_TYPES
            .into_iter()
            .find(|kind| self == NodeTypeNumber::from(*kind))
    }
}

/// All node types, in ascending order of number.
const NODE_TYPES: [NodeType; 3] = [NodeType::ChannelAdapter, NodeType::Switch, NodeType::Router];

impl From<NodeType> for NodeTypeNumber {
    ghost from_gives = { λ kind number. number ≡ number_of_type kind };

    fn from(kind: NodeType) -> Self {
        NodeTypeNumber(match kind {
            NodeType::ChannelAdapter => 1,
            NodeType::Switch => 2,
            NodeType::Router => 3,
        })
    }
}
