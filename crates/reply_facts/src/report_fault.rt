ghost use Rattle.std.specs.Prelude.{◌≡◌};

use smp_bytes::SmpFault;
use thiserror::Error;

/// Why a report is rejected. If several faults apply, the first in this order is reported.
#[derive(Clone, Copy, Debug, PartialEq, Eq, Error)]
pub enum ReportFault {
    /// The generation is 0.
    #[error("Generation")]
    Generation,
    /// The bytes are not a packet.
    #[error("{0}")]
    Smp(SmpFault),
    /// The packet is not of the directed route class.
    #[error("Class")]
    Class,
    /// The packet is not an answer to a Get or a Set.
    #[error("Method")]
    Method,
    /// The packet is not at the end of its way back: its D bit is 0, or its HopPointer is not 0.
    #[error("Direction")]
    Direction,
    /// The agent rejected the request: the status is not 0.
    #[error("Status")]
    Status,
    /// The attribute is not NodeInfo, PortInfo or SwitchInfo, and no facts are read from other attributes.
    #[error("Attribute")]
    Attribute,
    /// The context does not fit the attribute, or does not fit the number of hops.
    #[error("Context")]
    Context,
    /// The attribute modifier of PortInfo is over 254, and thus names no port.
    #[error("Modifier")]
    Modifier,
    /// The number of the node type is reserved.
    #[error("NodeType")]
    NodeType,
    /// A port or the number of ports in NodeInfo is out of range, or the port in the context is.
    #[error("Port")]
    Port,
}

impl ReportFault {
    ghost use Rattle.reply_facts.specs.ReportFault.{report_fault_name};

    /// Returns the name that `{}` writes. For `Smp`, this is the name of the packet's fault.
    pub fn name(self) -> &'static str
        ensures { result.now ≡ report_fault_name self }
    {
        match self {
            ReportFault::Generation => "Generation",
            ReportFault::Smp(fault) => fault.name(),
            ReportFault::Class => "Class",
            ReportFault::Method => "Method",
            ReportFault::Direction => "Direction",
            ReportFault::Status => "Status",
            ReportFault::Attribute => "Attribute",
            ReportFault::Context => "Context",
            ReportFault::Modifier => "Modifier",
            ReportFault::NodeType => "NodeType",
            ReportFault::Port => "Port",
        }
    }
}
