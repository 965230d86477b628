ghost use Rattle.std.specs.Prelude.{◌≡◌};

use std::alloc::{AllocError, AllocFailed};
use std::error::Error;
use std::fmt;

/// Why a text is not a schedule. The variants are in the order of a line's checks. Lines are counted from 1.
#[derive(Clone, Copy, Debug, PartialEq, Eq)]
pub enum ScheduleFault {
    /// The grammar has no such line, or a number in the line is out of its range.
    Syntax { line: usize },
    /// The line asks a manager that decides by itself for something, or is to pause or resume one that does not.
    Decides { line: usize },
    /// The name of a node or of a manager in the line is unknown, or the name of a new manager is taken. A manager is
    /// known after its own line.
    Name { line: usize },
    /// A new manager is at a switch, at a port that the adapter does not have, or at a port with a manager already.
    Seat { line: usize },
    /// Memory ran out.
    Memory,
}

impl ScheduleFault {
    ghost use Rattle.schedule_file.specs.ScheduleFault.{fault_word, fault_line};

    /// Returns the word that `{}` writes for the fault, without the line.
    pub fn word(self) -> &'static str
        ensures { result.now ≡ fault_word self }
    {
        match self {
            ScheduleFault::Syntax { .. } => "syntax",
            ScheduleFault::Decides { .. } => "decides",
            ScheduleFault::Name { .. } => "name",
            ScheduleFault::Seat { .. } => "seat",
            ScheduleFault::Memory => "out of memory",
        }
    }

    /// Returns the number of the faulty line, counted from 1, or `None` if the fault is `Memory`.
    pub fn line(self) -> Option<usize>
        ensures { result ≡ fault_line self }
    {
        match self {
            ScheduleFault::Syntax { line }
            | ScheduleFault::Decides { line }
            | ScheduleFault::Name { line }
            | ScheduleFault::Seat { line } => Some(line),
            ScheduleFault::Memory => None,
        }
    }
}

/// Writes the line and the word, as in `line 3: name`, or that memory ran out.
impl fmt::Display for ScheduleFault {
    ghost use Rattle.std.specs.Prelude.{Some};
    ghost use Rattle.schedule_file.specs.ScheduleFault.{fault_text};

    ghost output = { λ fault. Some (fault_text fault) };

    fn fmt<W: fmt::Write>(&self, f: &mut fmt::Formatter<W>) -> fmt::Result {
        let word = self.word();
        match self.line() {
            Some(line) => write!(f, "line {line}: {word}"),
            None => f.write_str(word),
        }
    }
}

impl Error for ScheduleFault {}

impl From<AllocError> for ScheduleFault {
    ghost use Rattle.std.specs.Prelude.{◌≡◌};
    ghost use Rattle.schedule_file.specs.declared.schedule_fault.ScheduleFault.TheVariants.{Memory};

    ghost from_gives = { λ e fault. fault ≡ Memory };

    fn from(_: AllocError) -> Self {
        ScheduleFault::Memory
    }
}

impl<T: Drop> From<AllocFailed<T>> for ScheduleFault {
    ghost use Rattle.std.specs.Prelude.{◌≡◌};
    ghost use Rattle.schedule_file.specs.declared.schedule_fault.ScheduleFault.TheVariants.{Memory};

    ghost from_gives = { λ e fault. fault ≡ Memory };

    fn from(_: AllocFailed<T>) -> Self {
        ScheduleFault::Memory
    }
}
