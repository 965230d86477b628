ghost use Rattle.std.specs.Prelude.{◌≡◌};
ghost use Rattle.sm_state.specs.Control.{control_of_message};

use crate::control::Control;

/// What may change the state of a subnet manager: a control that it received, given by its attribute modifier, or an
/// event of its own.
#[derive(Clone, Copy, Debug, PartialEq, Eq)]
pub enum Event {
    Control(u32),
    /// A sweep is done, and saw a manager that outranks this one.
    Outranked,
    /// A sweep is done, and saw no manager that outranks this one.
    Unrivalled,
    /// Three or more polls in a row were not answered.
    PollsUnanswered,
    /// Another manager is to become master.
    HandoverWanted,
}

/// A control that a manager sends because of an event.
#[derive(Clone, Copy, Debug, PartialEq, Eq)]
pub enum Message {
    Handover,
    Acknowledge,
}

impl Message {
    /// Returns the message as a control.
    pub fn control(self) -> Control
        ensures { result ≡ control_of_message self }
    {
        match self {
            Message::Handover => Control::Handover,
            Message::Acknowledge => Control::Acknowledge,
        }
    }
}
