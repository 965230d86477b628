//! What is wrong with tables that do not pass.
ghost use Rattle.std.specs.Prelude.{◌≡◌};

/// What is wrong with tables that do not pass. The flaws stand in the order of the lines that show them.
#[derive(Clone, Copy, Debug, PartialEq, Eq)]
pub(crate) enum Flaw {
    /// A packet does not arrive.
    Missed,
    /// A usable switch has no tables, and there is an end port.
    Tableless,
    /// A node that the facts name is unusable.
    Unusable,
    /// An end port holds no LID.
    Lidless,
    /// The load of a channel is above the bound.
    Overloaded,
    /// A packet between adapter ports has no service level.
    Unleveled,
    /// A packet is dropped for want of a lane.
    LaneDrop,
    /// Packets can wait in a credit loop.
    CreditLoop,
}

impl Flaw {
    ghost use Rattle.audit_run.specs.VerdictText.{flaw_word};

    /// Returns the word with which the line that shows the flaw begins.
    pub fn word(self) -> &'static str
        ensures { result.now ≡ flaw_word self }
    {
        match self {
            Flaw::Missed => "pairs",
            Flaw::Tableless => "tableless",
            Flaw::Unusable => "unusable",
            Flaw::Lidless => "lidless",
            Flaw::Overloaded => "load",
            Flaw::Unleveled => "no-level",
            Flaw::LaneDrop => "dropped",
            Flaw::CreditLoop => "credit loop",
        }
    }
}
