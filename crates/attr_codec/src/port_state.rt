ghost use Rattle.std.specs.Prelude.{◌≡◌, ◌<◌};
ghost use Rattle.attr_codec.specs.PortInfo.{number_of_state, state_of_number};

/// The state of a port's link (subnet management, PortInfo: PortState). In a Set, `NoChange` keeps the state.
#[derive(Clone, Copy, Debug, PartialEq, Eq)]
pub enum PortState {
    NoChange,
    Down,
    Initialize,
    Armed,
    Active,
}

/// All port states, in ascending order of number.
const STATES: [PortState; 5] = [
    PortState::NoChange,
    PortState::Down,
    PortState::Initialize,
    PortState::Armed,
    PortState::Active,
];

impl PortState {
    /// Returns the state with the number `number`, or `None` if `number` is reserved, that is, at least 5.
    pub fn from_number(number: u8) -> Option<Self>
        ensures { result ≡ state_of_number number }
    {
        STATES
            .iter()
            .copied()
            .find(|state| number == state.number())
    }

    /// Returns the number of the state, 0 to 4.
    pub fn number(self) -> u8
        ensures exact { result ≡ number_of_state self }
        ensures fits { result < 5 }
    {
        match self {
            PortState::NoChange => 0,
            PortState::Down => 1,
            PortState::Initialize => 2,
            PortState::Armed => 3,
            PortState::Active => 4,
        }
    }
}
