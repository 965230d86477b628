ghost use Rattle.std.specs.Prelude.{◌≡◌};

use std::marker::Model;

/// The number of a node among the nodes of a fabric, counted from 0. The number has no meaning in another fabric.
#[derive(Clone, Copy, Debug, PartialEq, Eq, PartialOrd, Ord)]
pub struct NodeId(usize);

impl Model for NodeId {
    ghost use Rattle.std.specs.Prelude.{ℕ};

    ghost Value = { ℕ };

    ghost view = { λ a. a.0 };

    ghost inverse = { λ n. record { 0 = n } };
}

impl NodeId {
    /// Creates the number of a node.
    pub const fn new(number: usize) -> Self
        ensures { result ≡ number }
    {
        NodeId(number)
    }

    /// Returns the number of the node.
    pub const fn number(self) -> usize
        ensures { result ≡ self }
    {
        self.0
    }
}
