ghost use Rattle.std.specs.Prelude.{◌≡◌};
ghost use Rattle.sm_state.specs.Transitions.{acknowledged_late, after_control, refused, stepped, to};

use crate::conduct::Conduct;
use crate::control::Control;
use crate::event::{Event, Message};
use crate::state::SmState;
use crate::transition::Transition;

/// Returns the move to `state` that sends `message`, or nothing if `message` is `None`. The move is not refused.
fn goes_to(state: SmState, message: Option<Message>) -> Transition
    ensures { result ≡ to state message }
{
    Transition {
        state,
        message,
        is_refused: false,
    }
}

/// Returns the refusal of a control for which the table of states has no move from `state`.
fn refuses(state: SmState) -> Transition
    ensures { result ≡ refused state }
{
    Transition {
        state,
        message: None,
        is_refused: true,
    }
}

/// Returns what a manager in `state` does about `event` (subnet management, SMInfo states). If the table has no move
/// for `event` from `state`, nothing changes. A control without a move is refused.
pub fn step(conduct: Conduct, state: SmState, event: Event) -> Transition
    ensures { result ≡ stepped conduct state event }
{
    match (state, event) {
        (_, Event::Control(modifier)) => {
            after_control(conduct, state, Control::from_modifier(modifier))
        }
        (SmState::Discovering, Event::Outranked) => goes_to(SmState::Standby, None),
        (SmState::Discovering, Event::Unrivalled) => goes_to(SmState::Master, None),
        (SmState::Standby, Event::PollsUnanswered) => goes_to(SmState::Discovering, None),
        (SmState::Master, Event::HandoverWanted) => {
            goes_to(SmState::Master, Some(Message::Handover))
        }
        (_, _) => goes_to(state, None),
    }
}

/// Returns what a manager in `state` does about `control`, which is `None` if the modifier is reserved.
fn after_control(conduct: Conduct, state: SmState, control: Option<Control>) -> Transition
    ensures { result ≡ after_control conduct state control }
{
    match (state, control) {
        (SmState::Standby | SmState::Master, Some(Control::Handover)) => {
            goes_to(SmState::Master, Some(Message::Acknowledge))
        }
        (SmState::Master, Some(Control::Acknowledge)) => goes_to(SmState::Standby, None),
        (SmState::Standby, Some(Control::Acknowledge)) => acknowledged_late(conduct),
        (SmState::Standby, Some(Control::Disable)) => goes_to(SmState::NotActive, None),
        (SmState::NotActive, Some(Control::Standby)) => goes_to(SmState::Standby, None),
        (SmState::Standby | SmState::Master, Some(Control::Discover)) => {
            goes_to(SmState::Discovering, None)
        }
        (_, _) => refuses(state),
    }
}

/// Returns what a standby does about ACKNOWLEDGE. Under the live conduct it is not refused, since the answer to this
/// manager's HANDOVER may already have made it a standby.
fn acknowledged_late(conduct: Conduct) -> Transition
    ensures { result ≡ acknowledged_late conduct }
{
    if conduct.is_live() {
        goes_to(SmState::Standby, None)
    } else {
        refuses(SmState::Standby)
    }
}
