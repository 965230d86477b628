ghost use Rattle.std.specs.Prelude.{◌≡◌};
ghost use Rattle.smp_bytes.specs.NodeType.{is_switch};
ghost use Rattle.smp_bytes.specs.Text.{type_word};

use std::fmt;

/// The type of a node (subnet management chapter, NodeInfo). A router counts as an adapter here.
#[derive(Clone, Copy, Debug, PartialEq, Eq, PartialOrd, Ord)]
pub enum NodeType {
    ChannelAdapter,
    Switch,
    Router,
}

impl NodeType {
    /// Returns whether the node is a switch.
    pub const fn is_switch(self) -> bool
        ensures { result ≡ is_switch self }
    {
        matches!(self, NodeType::Switch)
    }

    /// Returns the word for the type: `ca`, `switch` or `router`.
    pub fn word(self) -> &'static str
        ensures { result.now ≡ type_word self }
    {
        match self {
            NodeType::ChannelAdapter => "ca",
            NodeType::Switch => "switch",
            NodeType::Router => "router",
        }
    }
}

/// Writes the type's word.
impl fmt::Display for NodeType {
    ghost use Rattle.std.specs.Prelude.{Some};

    ghost output = { λ kind. Some (type_word kind) };

    fn fmt<W: fmt::Write>(&self, f: &mut fmt::Formatter<W>) -> fmt::Result {
        f.write_str(self.word())
    }
}
