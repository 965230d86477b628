ghost use Rattle.std.specs.Prelude.{◌≡◌};
ghost use Rattle.sm_policy.specs.Policy.{nothing_written};

/// What is known of the plan that a manager wrote last.
#[derive(Clone, Copy, Debug, PartialEq, Eq)]
pub struct Written {
    /// Whether it is known to stand.
    pub stands: bool,
    /// How often it was written once more.
    pub repeats: u32,
    /// How many ports it left in Initialize or Armed.
    pub inactive: u32,
    /// How many end ports it left that name another master.
    pub foreign: u32,
}

impl Written {
    /// Returns that nothing is known to stand.
    pub(crate) fn nothing() -> Self
        ensures { result ≡ nothing_written }
    {
        Written {
            stands: false,
            repeats: 0,
            inactive: 0,
            foreign: 0,
        }
    }
}
