ghost use Rattle.std.specs.Prelude.{◌≡◌};

use crate::fault::Fault;
use record_file::FileFault;

/// How a run of the program ends.
#[derive(Clone, Copy, Debug, PartialEq, Eq)]
pub enum ExitStatus {
    Done = 0,
    /// The run was completed, but what it checked does not pass.
    Failed = 1,
    Usage = 2,
    Refused = 3,
    InputOutput = 4,
    Memory = 5,
}

impl ExitStatus {
    ghost use Rattle.sm_cli.specs.ExitStatus.{code_of};

    /// Returns the exit status as a number for the process to exit with.
    pub fn code(self) -> u8
        ensures { result ≡ code_of self }
    {
        self as u8
    }
}

impl Fault {
    ghost use Rattle.sm_cli.specs.ExitStatus.{status_of};

    /// Returns the exit status with which the fault ends the program.
    pub fn status(&self) -> ExitStatus
        ensures { result ≡ status_of self.now }
    {
        match self {
            Fault::Open { .. } | Fault::Write => ExitStatus::InputOutput,
            Fault::File { fault, .. } => match fault {
                FileFault::Read => ExitStatus::InputOutput,
                FileFault::Memory => ExitStatus::Memory,
                _ => ExitStatus::Refused,
            },
            Fault::Text { fault, .. } if fault.is_of_text() => ExitStatus::Refused,
            Fault::Text { .. } => ExitStatus::Memory,
            Fault::NoRoom(_) => ExitStatus::Refused,
            Fault::Memory => ExitStatus::Memory,
        }
    }
}
