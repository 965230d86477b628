use text_words::{LineError, LineFault, LinesFault};

/// A fault of a line of a text of roots.
#[derive(Clone, Copy, Debug, PartialEq, Eq)]
pub enum RootsTextError {
    /// The line has more than one word, or has a word that is not hex digits, with or without `0x`.
    Syntax,
    /// The GUID is 0, or has more than 16 digits.
    Guid,
    /// The GUID is also on an earlier line.
    Repeated,
}

impl LineError for RootsTextError {
    ghost use Rattle.roots_file.specs.RootsTextFault.{wrong_word};

    ghost word = { wrong_word };

    fn word(self) -> &'static str {
        match self {
            RootsTextError::Syntax => "syntax",
            RootsTextError::Guid => "guid",
            RootsTextError::Repeated => "repeated",
        }
    }
}

/// The number of the first faulty line of a text of roots, counted from 1, and the fault of this line.
pub type RootsLineFault = LineFault<RootsTextError>;

/// Why a text of roots is refused: the fault of its first faulty line, or a lack of memory.
pub type RootsTextFault = LinesFault<RootsTextError>;
