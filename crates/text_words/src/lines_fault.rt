//! Faults of texts that are read line by line.
ghost use Rattle.std.specs.Prelude.{◌≡◌, ℕ, List};

use std::alloc::{AllocError, AllocFailed};
use std::error::Error;
use std::fmt;

/// A fault of one line of a text.
pub trait LineError: Copy {
    // The word for the fault.
    ghost word: { Self → List ℕ };

    /// Returns the word for the fault, as it is printed.
    fn word(self) -> &'static str
        ensures { result.now ≡ word self };
}

/// The number of the first faulty line of a text, counted from 1, and the fault of this line.
#[derive(Clone, Copy, Debug, PartialEq, Eq)]
pub struct LineFault<E> {
    pub line: usize,
    pub wrong: E,
}

/// Why a text is rejected.
#[derive(Clone, Copy, Debug, PartialEq, Eq)]
pub enum LinesFault<E> {
    /// The first line with a fault, and the fault.
    Line(LineFault<E>),
    /// Memory ran out, and no line has a fault.
    Memory,
}

/// Writes the line and the word, as in `line 3: port`, or `out of memory`.
impl<E: LineError> fmt::Display for LinesFault<E> {
    ghost use Rattle.std.specs.Prelude.{Some};
    ghost use Rattle.text_words.specs.LinesFault.{fault_text};

    ghost output = { λ fault. Some (fault_text E.word fault) };

    fn fmt<W: fmt::Write>(&self, f: &mut fmt::Formatter<W>) -> fmt::Result {
        match self {
            LinesFault::Line(fault) => {
                let line = fault.line;
                let word = fault.wrong.word();
                write!(f, "line {line}: {word}")
            }
            LinesFault::Memory => f.write_str("out of memory"),
        }
    }
}

impl<E: LineError + fmt::Debug> Error for LinesFault<E> {}

impl<E: LineError> LinesFault<E> {
    ghost use Rattle.text_words.specs.LinesFault.{fault_line, fault_word};

    /// Returns the number of the faulty line, from 1, or `None` if memory ran out.
    pub fn line(self) -> Option<usize>
        ensures { result ≡ fault_line self }
    {
        match self {
            LinesFault::Line(fault) => Some(fault.line),
            LinesFault::Memory => None,
        }
    }

    /// Returns the word for the line's fault, or `out of memory`.
    pub fn word(self) -> &'static str
        ensures { result.now ≡ fault_word E.word self }
    {
        match self {
            LinesFault::Line(fault) => fault.wrong.word(),
            LinesFault::Memory => "out of memory",
        }
    }
}

impl<E> From<LineFault<E>> for LinesFault<E> {
    ghost use Rattle.std.specs.Prelude.{◌≡◌};
    ghost use Rattle.text_words.specs.declared.lines_fault.LinesFault.TheVariants.{Line};

    ghost from_gives = { λ e fault. fault ≡ Line e };

    fn from(fault: LineFault<E>) -> Self {
        LinesFault::Line(fault)
    }
}

impl<E> From<AllocError> for LinesFault<E> {
    ghost use Rattle.std.specs.Prelude.{◌≡◌};
    ghost use Rattle.text_words.specs.declared.lines_fault.LinesFault.TheVariants.{Memory};

    ghost from_gives = { λ e fault. fault ≡ Memory };

    fn from(_: AllocError) -> Self {
        LinesFault::Memory
    }
}

impl<E, T: Drop> From<AllocFailed<T>> for LinesFault<E> {
    ghost use Rattle.std.specs.Prelude.{◌≡◌};
    ghost use Rattle.text_words.specs.declared.lines_fault.LinesFault.TheVariants.{Memory};

    ghost from_gives = { λ e fault. fault ≡ Memory };

    fn from(_: AllocFailed<T>) -> Self {
        LinesFault::Memory
    }
}
