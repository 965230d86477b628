ghost use Rattle.std.specs.Prelude.{◌≡◌};
ghost use Rattle.sm_state.specs.State.{number_of_state, state_of_number, state_word};

use attr_codec::SmStateNumber;

/// The state of a subnet manager (subnet management, SMInfo: SMState).
#[derive(Clone, Copy, Debug, PartialEq, Eq)]
pub enum SmState {
    NotActive,
    Discovering,
    Standby,
    Master,
}

/// All states, in ascending order of number.
const STATES: [SmState; 4] = [
    SmState::NotActive,
    SmState::Discovering,
    SmState::Standby,
    SmState::Master,
];

impl SmState {
    /// Returns the state with the number `number`, or `None` if `number` is reserved (4 and above).
    pub fn from_number(number: SmStateNumber) -> Option<Self>
        ensures { result ≡ state_of_number number }
    {
        let number = number.number();
        STATES.iter().copied().find(|state| number == state.code())
    }

    /// Returns the number of the state, as SMInfo contains it.
    pub fn number(self) -> SmStateNumber
        ensures { result ≡ number_of_state self }
    {
        SmStateNumber::new(self.code()).unwrap()
    }

    /// Returns the number as a `u8` below 4.
    fn code(self) -> u8
        ensures { result ≡ number_of_state self }
    {
        match self {
            SmState::NotActive => 0,
            SmState::Discovering => 1,
            SmState::Standby => 2,
            SmState::Master => 3,
        }
    }

    /// Returns `not-active`, `discovering`, `standby` or `master`.
    pub fn word(self) -> &'static str
        ensures { result.now ≡ state_word self }
    {
        match self {
            SmState::NotActive => "not-active",
            SmState::Discovering => "discovering",
            SmState::Standby => "standby",
            SmState::Master => "master",
        }
    }
}
