//! What a manager does while no request is out and nothing runs.
ghost use Rattle.std.specs.Prelude.{◌≡◌};
ghost use Rattle.sm_policy.specs.Policy.{is_master};
ghost use Rattle.sm_policy.specs.Resting.{call_due, due_in, earlier, handed, handing, is_due};
ghost use Rattle.sm_policy.specs.Resting.{poll_due, rest_due, rested, sweep_due, sweeping};

use crate::act::Act;
use crate::activity::Activity;
use crate::policy::{Policy, SHORTEST, later_by};
use crate::rival::Rival;
use sm_state::SmState;

/// From one announcement of a standby to a lesser master to the next.
const ANNOUNCED_EVERY: u64 = 10_000;

impl Policy {
    /// Returns what a manager that rests does at the time `now`: it polls, or else announces itself, or else sweeps,
    /// if that is due. Returns `Wait` if nothing is.
    pub fn rest(&mut self, now: u64) -> Act
        ensures policy { self.new ≡ (rested now self.old).policy }
        ensures act { result ≡ (rested now self.old).act }
    {
        if is_due(now, self.poll_due()) {
            self.next_poll = later_by(u64::from(self.timing.poll), now);
            Act::Poll
        } else if is_due(now, self.call_due()) {
            self.next_call = later_by(ANNOUNCED_EVERY, now);
            Act::Announce
        } else if is_due(now, self.sweep_due()) {
            self.begin_sweep(now);
            Act::Sweep
        } else {
            Act::Wait
        }
    }

    /// Notes that a sweep begins at the time `now`.
    fn begin_sweep(&mut self, now: u64)
        ensures { self.new ≡ sweeping now self.old }
    {
        self.activity = Activity::Sweeps;
        self.is_wanted = false;
        self.is_stale = false;
        self.begun = now;
        self.earliest = later_by(SHORTEST, now);
    }

    /// Returns when a standby polls the master next, or `None` if it is no standby or knows no master.
    fn poll_due(&self) -> Option<u64>
        ensures { result ≡ poll_due self.now }
    {
        match (self.state, self.master) {
            (SmState::Standby, Some(_)) => Some(self.next_poll),
            (_, _) => None,
        }
    }

    /// Returns when a standby announces itself to a lesser master next, or `None` if it knows none.
    fn call_due(&self) -> Option<u64>
        ensures { result ≡ call_due self.now }
    {
        match (self.state, self.master) {
            (SmState::Standby, Some(Rival::Lesser)) => Some(self.next_call),
            (_, _) => None,
        }
    }

    /// Returns when the next sweep begins, or `None` if none is due.
    fn sweep_due(&self) -> Option<u64>
        ensures { result ≡ sweep_due self.now }
    {
        match (self.state, self.master) {
            (SmState::NotActive, _) => None,
            (SmState::Discovering, _) | (SmState::Standby, None) => Some(self.earliest),
            (SmState::Standby, Some(_)) => {
                if self.is_wanted {
                    Some(self.earliest)
                } else {
                    None
                }
            }
            (SmState::Master, _) => {
                if self.is_wanted {
                    Some(self.earliest)
                } else {
                    Some(self.earliest.max(self.next_sweep))
                }
            }
        }
    }

    /// Returns when a manager that rests has something to do next, or `None` if it waits for others alone.
    pub fn rest_due(&self) -> Option<u64>
        ensures { result ≡ rest_due self.now }
    {
        earlier(self.poll_due(), earlier(self.call_due(), self.sweep_due()))
    }

    /// Returns when there is something to do next while no request is out, at the time `now`. Returns `None` if the
    /// manager waits for others alone.
    pub fn due(&self, now: u64) -> Option<u64>
        ensures { result ≡ due_in self.now.activity now self.now }
    {
        match self.activity {
            Activity::Rests => self.rest_due(),
            Activity::Sweeps | Activity::Writes | Activity::Hands => Some(now),
        }
    }

    /// Notes that a handover was asked for. It goes on if `is_out`, which says that its request was queued.
    pub fn hand(&mut self, is_out: bool)
        ensures { self.new ≡ handing is_out self.old }
    {
        self.activity = if is_out {
            Activity::Hands
        } else {
            Activity::Rests
        };
    }

    /// Notes that the request of a handover is no longer out. The manager rests: it is standby if the other one has
    /// taken over.
    pub fn end_handover(&mut self)
        ensures { self.new ≡ handed self.old }
    {
        self.activity = Activity::Rests;
    }
}

/// Returns whether `state` is Master.
pub fn is_master(state: SmState) -> bool
    ensures { result ≡ is_master state }
{
    match state {
        SmState::Master => true,
        SmState::NotActive | SmState::Discovering | SmState::Standby => false,
    }
}

/// Returns the earlier of two times, or `None` if there is neither.
fn earlier(one: Option<u64>, other: Option<u64>) -> Option<u64>
    ensures { result ≡ earlier one other }
{
    match (one, other) {
        (None, other) => other,
        (Some(one), None) => Some(one),
        (Some(one), Some(other)) => Some(one.min(other)),
    }
}

/// Returns whether the time `due` has come at `now`. Returns `false` if `due` is `None`.
fn is_due(now: u64, due: Option<u64>) -> bool
    ensures { result ≡ is_due now due }
{
    match due {
        None => false,
        Some(time) => time <= now,
    }
}
