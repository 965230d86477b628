/// What a master has done about another master that it sees.
#[derive(Clone, Copy, Debug, PartialEq, Eq)]
pub struct Meeting {
    /// When it was first seen. `None` if no other master was seen.
    pub since: Option<u64>,
    /// For how many sweeps in a row it was waited for, since it is the lesser one and is to hand over by itself.
    pub looks: u32,
    /// How often it was offered the subnet.
    pub handovers: u32,
}

impl Meeting {
    ghost use Rattle.std.specs.Prelude.{◌≡◌};
    ghost use Rattle.sm_policy.specs.Policy.{later_by, ignored_for, nobody_met};
    ghost use Rattle.sm_policy.specs.Swept.{is_past, meeting_at, offered};

    /// Returns the meeting with nobody.
    pub(crate) fn with_nobody() -> Self
        ensures { result ≡ nobody_met }
    {
        Meeting {
            since: None,
            looks: 0,
            handovers: 0,
        }
    }
}
