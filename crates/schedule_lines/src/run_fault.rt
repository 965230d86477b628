use byte_io::WriteFault;
use std::alloc::{AllocError, AllocFailed};

/// Why a run ends before the end of its schedule.
#[derive(Clone, Copy, Debug, PartialEq, Eq)]
pub enum RunFault {
    /// A write to the output failed.
    Write,
    /// Memory ran out.
    Memory,
}

impl From<WriteFault> for RunFault {
    ghost use Rattle.std.specs.Prelude.{◌≡◌};
    ghost use Rattle.schedule_lines.specs.declared.run_fault.RunFault.TheVariants.{Write};

    ghost from_gives = { λ e fault. fault ≡ Write };

    fn from(_: WriteFault) -> Self {
        RunFault::Write
    }
}

impl From<AllocError> for RunFault {
    ghost use Rattle.std.specs.Prelude.{◌≡◌};
    ghost use Rattle.schedule_lines.specs.declared.run_fault.RunFault.TheVariants.{Memory};

    ghost from_gives = { λ e fault. fault ≡ Memory };

    fn from(_: AllocError) -> Self {
        RunFault::Memory
    }
}

impl<T: Drop> From<AllocFailed<T>> for RunFault {
    ghost use Rattle.std.specs.Prelude.{◌≡◌};
    ghost use Rattle.schedule_lines.specs.declared.run_fault.RunFault.TheVariants.{Memory};

    ghost from_gives = { λ e fault. fault ≡ Memory };

    fn from(_: AllocFailed<T>) -> Self {
        RunFault::Memory
    }
}
