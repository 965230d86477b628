ghost use Rattle.std.specs.Prelude.{◌≡◌};
ghost use Rattle.sm_state.specs.Standing.{active_once_more, after_request_heard, info_of, info_with, is_acknowledge};
ghost use Rattle.sm_state.specs.Standing.{is_in, moved_by, moved_to, new_standing};
ghost use Rattle.sm_state.specs.Standing.{poll_answered, poll_lost};

use crate::{Conduct, Control, Event, SmState, step};
use attr_codec::{Priority, SmInfo};
use smp_bytes::Guid;

/// A subnet manager as seen among the managers of its subnet: its identity, its state and its counts.
#[derive(Clone, Copy, Debug)]
pub struct Standing {
    /// The GUID of the port at which the manager sits.
    pub guid: Guid,
    pub priority: Priority,
    /// How the manager deals with other managers.
    pub conduct: Conduct,
    pub state: SmState,
    /// The number of sweeps that the manager began. Under the live conduct, requests for SMInfo that it answered
    /// count too. Saturates.
    pub act_count: u32,
    /// The number of polls that were lost in a row since the manager entered its state. Saturates.
    pub polls_lost: u32,
}

impl Standing {
    pub fn new(guid: Guid, priority: Priority, conduct: Conduct) -> Self
        ensures { result ≡ new_standing guid priority conduct }
    {
        Standing {
            guid,
            priority,
            conduct,
            state: SmState::Discovering,
            act_count: 0,
            polls_lost: 0,
        }
    }

    /// Returns the SMInfo that the manager answers with.
    pub fn info(&self) -> SmInfo
        ensures { result ≡ info_of self.now }
    {
        SmInfo {
            guid: self.guid,
            sm_key: self.conduct.sm_key(),
            act_count: self.act_count,
            priority: self.priority,
            state: self.state.number(),
        }
    }

    /// Returns the SMInfo that the manager sends with `control`. Under the live conduct, the SMInfo with ACKNOWLEDGE
    /// reports Standby, as OpenSM expects.
    pub fn info_with(&self, control: Control) -> SmInfo
        ensures { result ≡ info_with control self.now }
    {
        let info = self.info();
        if self.conduct.is_live() && is_acknowledge(control) {
            SmInfo {
                state: SmState::Standby.number(),
                ..info
            }
        } else {
            info
        }
    }

    pub fn is_in(&self, state: SmState) -> bool
        ensures { result ≡ is_in state self.now }
    {
        self.state.number() == state.number()
    }

    /// Adds one to the activity count, for a sweep that begins or a request that is answered. Saturates.
    pub fn count_activity(&mut self)
        ensures { self.new ≡ active_once_more self.old }
    {
        self.act_count = self.act_count.saturating_add(1);
    }

    /// If the conduct is live, counts an answered request for SMInfo as activity. Otherwise does nothing.
    pub fn count_request(&mut self)
        ensures { self.new ≡ after_request_heard self.old }
    {
        if self.conduct.is_live() {
            self.count_activity();
        }
    }

    /// Enters `state`, and resets the count of lost polls. Does nothing if the manager is in `state` already.
    pub fn move_to(&mut self, state: SmState)
        ensures { self.new ≡ moved_to state self.old }
    {
        if !self.is_in(state) {
            self.state = state;
            self.polls_lost = 0;
        }
    }

    /// Moves the manager to the state that the table of states gives for `event`.
    pub fn move_by(&mut self, event: Event)
        ensures { self.new ≡ moved_by event self.old }
    {
        self.move_to(step(self.conduct, self.state, event).state);
    }

    /// Resets the count of lost polls, since a poll was answered.
    pub fn hear_poll(&mut self)
        ensures { self.new ≡ poll_answered self.old }
    {
        self.polls_lost = 0;
    }

    /// Counts a poll that timed out. If three or more polls in a row were lost, a standby moves to Discovering.
    pub fn lose_poll(&mut self)
        ensures { self.new ≡ poll_lost self.old }
    {
        self.polls_lost = self.polls_lost.saturating_add(1);
        if self.polls_lost >= 3 {
            self.move_by(Event::PollsUnanswered);
        }
    }
}

/// Returns whether `control` is ACKNOWLEDGE.
fn is_acknowledge(control: Control) -> bool
    ensures { result ≡ is_acknowledge control }
{
    control.modifier() == Control::Acknowledge.modifier()
}
