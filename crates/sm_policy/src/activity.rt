ghost use Rattle.std.specs.Prelude.{◌≡◌};
ghost use Rattle.sm_policy.specs.Policy.{is_sweeping};

/// What a manager is about.
#[derive(Clone, Copy, Debug, PartialEq, Eq)]
pub enum Activity {
    /// Nothing runs but perhaps a poll.
    Rests,
    /// A sweep runs.
    Sweeps,
    /// A writing runs.
    Writes,
    /// A HANDOVER is out.
    Hands,
}

impl Activity {
    /// Returns whether a sweep runs.
    pub fn is_sweeping(self) -> bool
        ensures { result ≡ is_sweeping self }
    {
        match self {
            Activity::Sweeps => true,
            Activity::Rests | Activity::Writes | Activity::Hands => false,
        }
    }
}
