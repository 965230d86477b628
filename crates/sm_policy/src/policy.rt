//! What a manager remembers to decide by, and what news change.
ghost use Rattle.std.specs.Prelude.{◌≡◌};
ghost use Rattle.sm_policy.specs.Policy.{backoff, forgotten, in_state, later_by, longest_in, moved, new_policy};
ghost use Rattle.sm_policy.specs.Policy.{polled, resumed, sweeps_first, taken_over, waited_longer, wanting};

use crate::activity::Activity;
use crate::meeting::Meeting;
use crate::rival::Rival;
use crate::timing::Timing;
use crate::written::Written;
use sm_state::SmState;

/// The least time from the beginning of one sweep to that of the next.
pub(crate) const SHORTEST: u64 = 1000;
/// The longest wait after failures in a row.
const LONGEST: u64 = 10_000;
/// The longest wait after failures in a row of a manager that is not master, since nobody may be.
const LONGEST_ASIDE: u64 = 2000;
/// For how many sweeps in a row a manager waits for nodes that do not answer, and for another manager.
pub(crate) const PATIENCE: u32 = 3;

/// What a manager remembers to decide by.
#[derive(Clone, Copy, Debug)]
pub struct Policy {
    pub timing: Timing,
    /// The manager's state, as the policy was last told.
    pub state: SmState,
    pub activity: Activity,
    /// Whether a sweep is asked for.
    pub is_wanted: bool,
    /// Whether the sweep that runs does not count, since the manager stood still meanwhile.
    pub is_stale: bool,
    /// When the last sweep began.
    pub begun: u64,
    /// Before which time no sweep begins.
    pub earliest: u64,
    /// When a master sweeps, if nothing asks for a sweep before.
    pub next_sweep: u64,
    /// When a standby polls next.
    pub next_poll: u64,
    /// When a standby announces itself to a lesser master next.
    pub next_call: u64,
    /// The number of failures in a row, which is also how long is waited after the next one.
    pub faults: u32,
    /// The number of sweeps in a row that lacked answers.
    pub gaps: u32,
    /// The number of sweeps in a row as standby that saw no master.
    pub masterless: u32,
    /// The master that a standby polls. `None` if it knows none.
    pub master: Option<Rival>,
    pub meeting: Meeting,
    pub written: Written,
    /// When ports that name another master were first taken back.
    pub taken_since: u64,
    /// How often they were taken back since then.
    pub takings: u32,
}

/// Returns the time `wait` milliseconds after `time`, but at most 2^64 - 1.
pub fn later_by(wait: u64, time: u64) -> u64
    ensures { result ≡ later_by wait time }
{
    time.saturating_add(wait)
}

impl Policy {
    /// Returns the policy of a manager that has just begun: it is discovering, and sweeps at once.
    pub fn new(timing: Timing) -> Self
        ensures { result ≡ new_policy timing }
    {
        Policy {
            timing,
            state: SmState::Discovering,
            activity: Activity::Rests,
            is_wanted: true,
            is_stale: false,
            begun: 0,
            earliest: 0,
            next_sweep: 0,
            next_poll: 0,
            next_call: 0,
            faults: 0,
            gaps: 0,
            masterless: 0,
            master: None,
            meeting: Meeting::with_nobody(),
            written: Written::nothing(),
            taken_since: 0,
            takings: 0,
        }
    }

    /// Asks for a sweep as soon as one may begin: a trap told of a change, or the operator asks. What failed before
    /// may succeed now, so only the shortest time is waited.
    pub fn want(&mut self)
        ensures { self.new ≡ wanting self.old }
    {
        self.is_wanted = true;
        self.faults = 0;
        self.earliest = later_by(SHORTEST, self.begun);
    }

    /// Forgets what was written: another manager may have changed it.
    pub(crate) fn forget(&mut self)
        ensures { self.new ≡ forgotten self.old }
    {
        self.written = Written::nothing();
    }

    /// Notes that a HANDOVER came while this manager was master already: its sender was a master too, and wrote.
    pub fn take_over(&mut self)
        ensures { self.new ≡ taken_over self.old }
    {
        self.forget();
        self.want();
    }

    /// Notes that the manager stood still: another one may be master now, and may have written. A sweep that runs does
    /// not count, since what it read may be old.
    pub fn resume(&mut self)
        ensures { self.new ≡ resumed self.old }
    {
        self.is_stale = self.activity.is_sweeping();
        self.forget();
        self.want();
    }

    /// Notes that the manager came into `state` at the time `now`.
    pub fn move_to(&mut self, now: u64, state: SmState)
        ensures { self.new ≡ moved now state self.old }
    {
        self.enter(now, state);
        if sweeps_first(state, self.activity) {
            self.want();
        }
    }

    /// Notes that the manager came into `state` at the time `now`, without asking for a sweep.
    fn enter(&mut self, now: u64, state: SmState)
        ensures { self.new ≡ in_state now state self.old }
    {
        self.state = state;
        self.forget();
        self.meeting.looks = 0;
        self.master = None;
        self.next_poll = now;
        self.next_call = now;
    }

    /// Notes the answer to a poll, which says whether its sender is master.
    pub fn hear_poll(&mut self, is_master: bool)
        ensures { self.new ≡ polled is_master self.old }
    {
        if !is_master {
            self.master = None;
        }
    }

    /// Notes a failure at the time `now`, and asks for a sweep after a wait that grows with the failures in a row.
    pub(crate) fn wait_longer(&mut self, now: u64)
        ensures { self.new ≡ waited_longer now self.old }
    {
        let wait = backoff(self.faults).min(longest_in(self.state));
        self.is_wanted = true;
        self.faults = self.faults.saturating_add(1);
        self.earliest = later_by(wait, now);
    }
}

/// Returns whether a manager that comes into `state` sweeps at once: it discovers, or it is master and no sweep runs.
fn sweeps_first(state: SmState, activity: Activity) -> bool
    ensures { result ≡ sweeps_first state activity }
{
    match state {
        SmState::Discovering => true,
        SmState::Master => !activity.is_sweeping(),
        SmState::NotActive | SmState::Standby => false,
    }
}

/// Returns the wait after `faults` failures in a row before this one.
fn backoff(faults: u32) -> u64
    ensures { result ≡ backoff faults }
{
    match faults {
        0 => 1000,
        1 => 2000,
        2 => 4000,
        3 => 8000,
        _ => LONGEST,
    }
}

/// Returns the longest wait in `state`.
fn longest_in(state: SmState) -> u64
    ensures { result ≡ longest_in state }
{
    match state {
        SmState::Master => LONGEST,
        SmState::NotActive | SmState::Discovering | SmState::Standby => LONGEST_ASIDE,
    }
}
