ghost use Rattle.std.specs.Prelude.{◌≡◌};
ghost use Rattle.sm_state.specs.Control.{control_of_modifier, modifier_of_control};

/// A command of one subnet manager to another, sent as a Set(SMInfo) (subnet management, SMInfo: controls).
#[derive(Clone, Copy, Debug, PartialEq, Eq)]
pub enum Control {
    /// The receiver is to become master instead of the sender.
    Handover,
    /// The sender has become master instead of the receiver.
    Acknowledge,
    Disable,
    Standby,
    Discover,
}

/// All controls, in ascending order of modifier.
const CONTROLS: [Control; 5] = [
    Control::Handover,
    Control::Acknowledge,
    Control::Disable,
    Control::Standby,
    Control::Discover,
];

impl Control {
    /// Returns the control with the attribute modifier `modifier`, or `None` if `modifier` is 0, or 6 or above.
    pub fn from_modifier(modifier: u32) -> Option<Self>
        ensures { result ≡ control_of_modifier modifier }
    {
        CONTROLS
            .iter()
            .copied()
            .find(|control| modifier == control.modifier())
    }

    /// Returns the attribute modifier, 1 to 5.
    pub fn modifier(self) -> u32
        ensures { result ≡ modifier_of_control self }
    {
        match self {
            Control::Handover => 1,
            Control::Acknowledge => 2,
            Control::Disable => 3,
            Control::Standby => 4,
            Control::Discover => 5,
        }
    }
}
