use fact_store::Refused;
use smp_bytes::Lid;
use std::alloc::AllocError;
use thiserror::Error;

/// Why there are no next tables.
#[derive(Clone, Copy, Debug, PartialEq, Eq, Error)]
pub enum StepFault {
    /// The plan gives this LID to an end port, and the held tables give it to another.
    #[error("lid {} moves", .0.number())]
    Moves(Lid),
    /// Memory for the tables was refused.
    #[error("out of memory")]
    Memory,
}

impl From<AllocError> for StepFault {
    ghost use Rattle.std.specs.Prelude.{◌≡◌};
    ghost use Rattle.next_tables.specs.declared.step_fault.StepFault.TheVariants.{Memory};

    ghost from_gives = { λ e fault. fault ≡ Memory };

    fn from(_: AllocError) -> Self {
        StepFault::Memory
    }
}

impl From<Refused> for StepFault {
    ghost use Rattle.std.specs.Prelude.{◌≡◌};
    ghost use Rattle.next_tables.specs.declared.step_fault.StepFault.TheVariants.{Memory};

    ghost from_gives = { λ e fault. fault ≡ Memory };

    fn from(_: Refused) -> Self {
        StepFault::Memory
    }
}
