ghost use Rattle.std.specs.Prelude.{◌≡◌};

use fact_store::ReportFault;
use std::alloc::AllocError;
use thiserror::Error;

/// Why a sweep refuses a call. A refused call leaves the sweep as it was.
#[derive(Clone, Copy, Debug, PartialEq, Eq, Error)]
pub enum SweepFault {
    /// No outstanding request belongs to the reply, or has the TransactionID that timed out.
    #[error("NotOutstanding")]
    NotOutstanding,
    /// The bytes are not a packet, or facts or SMInfo cannot be read from the reply.
    #[error("{0}")]
    Bad(ReportFault),
    /// A request that follows from the reply would need a number above 4294967295.
    #[error("SequenceSpent")]
    SequenceSpent,
    /// Memory ran out.
    #[error("Memory")]
    Memory,
}

impl SweepFault {
    ghost use Rattle.sweep.specs.Fault.{sweep_fault_name};

    /// Returns the name that `{}` writes. If the fault is `Bad`, this is the name of the report's fault.
    pub fn name(self) -> &'static str
        ensures { result.now ≡ sweep_fault_name self }
    {
        match self {
            SweepFault::NotOutstanding => "NotOutstanding",
            SweepFault::Bad(fault) => fault.name(),
            SweepFault::SequenceSpent => "SequenceSpent",
            SweepFault::Memory => "Memory",
        }
    }
}

impl From<AllocError> for SweepFault {
    ghost use Rattle.std.specs.Prelude.{◌≡◌};
    ghost use Rattle.sweep.specs.declared.fault.SweepFault.TheVariants.{Memory};

    ghost from_gives = { λ _ fault. fault ≡ Memory };

    fn from(_: AllocError) -> Self {
        SweepFault::Memory
    }
}
