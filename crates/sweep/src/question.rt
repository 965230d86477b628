//! What a sweep asks nodes for.
ghost use Rattle.std.specs.Prelude.{◌≡◌, ◌≤◌};
ghost use Rattle.sweep.specs.Sweep.{attribute_asked, managers_asked, modifier_asked};

use smp_bytes::{AttributeId, Guid, PortNum};

/// What a request asks a node for.
#[derive(Clone, Copy, Debug, PartialEq, Eq)]
pub enum Question {
    /// NodeInfo: what the node is.
    Node,
    /// SwitchInfo: how large the forwarding table is.
    Switch,
    /// PortInfo of a port of the node.
    Port(PortNum),
    /// SMInfo of the manager at the adapter with this GUID and at this port.
    Manager(Guid, PortNum),
}

impl Question {
    /// Returns the attribute that is asked for.
    pub(crate) fn attribute(self) -> AttributeId
        ensures { result.0 ≡ attribute_asked self }
    {
        match self {
            Question::Node => AttributeId::NODE_INFO,
            Question::Switch => AttributeId::SWITCH_INFO,
            Question::Port(_) => AttributeId::PORT_INFO,
            Question::Manager(..) => AttributeId::SM_INFO,
        }
    }

    /// Returns the attribute modifier: the number of the port for PortInfo, and otherwise 0.
    pub(crate) fn modifier(self) -> u32
        ensures { result ≡ modifier_asked self }
    {
        match self {
            Question::Node | Question::Switch | Question::Manager(..) => 0,
            Question::Port(port) => u32::from(port.number()),
        }
    }

    /// Returns 1 if the question is for the SMInfo of a manager, and otherwise 0.
    pub(crate) fn managers_asked(self) -> u64
        ensures count { result ≡ managers_asked self }
        ensures within { result ≤ 1 }
    {
        match self {
            Question::Node | Question::Switch | Question::Port(_) => 0,
            Question::Manager(..) => 1,
        }
    }
}
