ghost use Rattle.std.specs.Prelude.{◌≡◌};

use thiserror::Error;

/// Why 256 bytes are not a subnet management packet. If several faults apply, the first in this order is reported.
#[derive(Clone, Copy, Debug, PartialEq, Eq, Error)]
pub enum SmpFault {
    /// BaseVersion is not 1.
    #[error("BaseVersion")]
    BaseVersion,
    /// MgmtClass is neither 0x01 (LID routed) nor 0x81 (directed route).
    #[error("Class")]
    Class,
    /// ClassVersion is not 1.
    #[error("ClassVersion")]
    ClassVersion,
    /// HopCount of a directed packet is over 63.
    #[error("HopCount")]
    HopCount,
    /// HopPointer of a directed packet is over HopCount + 1.
    #[error("HopPointer")]
    HopPointer,
    /// DrSLID or DrDLID of a directed packet is not the permissive LID, 0xFFFF.
    #[error("DrLid")]
    DrLid,
}

impl SmpFault {
    ghost use Rattle.smp_bytes.specs.SmpFault.{smp_fault_name};

    /// Returns the name that `{}` writes.
    pub fn name(self) -> &'static str
        ensures { result.now ≡ smp_fault_name self }
    {
        match self {
            SmpFault::BaseVersion => "BaseVersion",
            SmpFault::Class => "Class",
            SmpFault::ClassVersion => "ClassVersion",
            SmpFault::HopCount => "HopCount",
            SmpFault::HopPointer => "HopPointer",
            SmpFault::DrLid => "DrLid",
        }
    }
}
