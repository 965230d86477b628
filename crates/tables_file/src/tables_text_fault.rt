use text_words::{LineError, LineFault, LinesFault};

/// What is wrong with a line of a text of tables.
#[derive(Clone, Copy, Debug, PartialEq, Eq)]
pub enum TablesTextError {
    /// The grammar has no such line, or the line is a block and there is no switch above it.
    Syntax,
    /// The LID is not from 1 to 49,151, or is less than that of the previous `lid` line; or the last LID of the end
    /// port, or the top of a switch, is above 49,151.
    Lid,
    /// The port is above 254; or the LID is that of the previous `lid` line, and the end port does not come after the
    /// end port of that line.
    Port,
    /// The LMC is above 7.
    Lmc,
    /// The GUID of the switch is not greater than that of the previous switch.
    Switch,
    /// The number of the block is above 767, or is not greater than that of the previous block of the same switch.
    Block,
}

impl LineError for TablesTextError {
    ghost use Rattle.tables_file.specs.TablesTextFault.{wrong_word};

    ghost word = { wrong_word };

    fn word(self) -> &'static str {
        match self {
            TablesTextError::Syntax => "syntax",
            TablesTextError::Lid => "lid",
            TablesTextError::Port => "port",
            TablesTextError::Lmc => "lmc",
            TablesTextError::Switch => "switch",
            TablesTextError::Block => "block",
        }
    }
}

/// The number of the first faulty line of a text, counted from 1, and what is wrong with the line.
pub type TablesLineFault = LineFault<TablesTextError>;

/// Why a text of tables could not be read.
pub type TablesTextFault = LinesFault<TablesTextError>;
