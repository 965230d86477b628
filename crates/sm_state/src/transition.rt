ghost use Rattle.std.specs.Prelude.{◌≡◌};
ghost use Rattle.sm_state.specs.Transitions.{status_of};

use crate::event::Message;
use crate::state::SmState;
use smp_bytes::Status;

/// What a manager does about an event.
#[derive(Clone, Copy, Debug, PartialEq, Eq)]
pub struct Transition {
    /// The state afterwards.
    pub state: SmState,
    /// The message to send to the other manager, or `None` if there is none.
    pub message: Option<Message>,
    /// Whether the event is a control that is refused.
    pub is_refused: bool,
}

impl Transition {
    /// Returns the status of the answer to a control: invalid field if the control is refused, and otherwise 0.
    pub fn status(self) -> Status
        ensures { result.0 ≡ status_of self }
    {
        if self.is_refused {
            Status::INVALID_FIELD
        } else {
            Status::DONE
        }
    }
}
