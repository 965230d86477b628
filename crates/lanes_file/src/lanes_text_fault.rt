use text_words::{LineError, LineFault, LinesFault};

/// What is wrong with a line of a text of lanes.
#[derive(Clone, Copy, Debug, PartialEq, Eq)]
pub enum LanesTextError {
    /// The grammar has no such line.
    Syntax,
    /// A port is above 254.
    Port,
    /// The number of the block is above 767.
    Block,
    /// A lane is above 15.
    Lane,
    /// A service level is above 15. In a block, `ff` is not a fault.
    Level,
    /// The line is a second `lanes` or `level` line. Or it is a `sl2vl` or `levels` line whose GUID and next two
    /// numbers do not come after those of the last line of the same kind.
    Repeated,
}

impl LineError for LanesTextError {
    ghost use Rattle.lanes_file.specs.LanesTextFault.{wrong_word};

    ghost word = { wrong_word };

    fn word(self) -> &'static str {
        match self {
            LanesTextError::Syntax => "syntax",
            LanesTextError::Port => "port",
            LanesTextError::Block => "block",
            LanesTextError::Lane => "lane",
            LanesTextError::Level => "level",
            LanesTextError::Repeated => "repeated",
        }
    }
}

/// The number of the first faulty line of a text of lanes, counted from 1, and the fault of this line.
pub type LanesLineFault = LineFault<LanesTextError>;

/// Why a text of lanes is refused: the fault of its first faulty line, or a lack of memory.
pub type LanesTextFault = LinesFault<LanesTextError>;
