//! What a manager does when its sweep is over.
ghost use Rattle.std.specs.Prelude.{◌≡◌};
ghost use Rattle.sm_policy.specs.Policy.{forgotten, wanting};
ghost use Rattle.sm_policy.specs.Swept.{counts, dealt, ended, goes_on, is_past, judging, leaves_it};
ghost use Rattle.sm_policy.specs.Swept.{masterless_by, may_plan, meeting_at, met};
ghost use Rattle.sm_policy.specs.Swept.{offered, reigned, stood_by, swept, swept_in};

use crate::act::Act;
use crate::activity::Activity;
use crate::meeting::Meeting;
use crate::policy::{PATIENCE, Policy, later_by};
use crate::resting::is_master;
use crate::rival::Rival;
use sm_state::SmState;

/// For how long another master that does not give way is then ignored.
const IGNORED_FOR: u64 = 60_000;

impl Policy {
    /// Returns what is done at the time `now` after a sweep. `is_whole` says whether the sweep has every answer, and
    /// `rival` which master it saw, the greatest of those that the manager hears.
    ///
    /// Returns `Wait` if the manager stood still while the sweep ran. A standby polls `rival` from then on, and
    /// discovers anew if several sweeps in a row saw no master. A master deals with `rival` before it writes anything;
    /// if there is none, it judges its plan if the sweep has every answer.
    pub fn sweep_ended(&mut self, now: u64, is_whole: bool, rival: Option<Rival>) -> Act
        ensures policy { self.new ≡ (swept now is_whole rival self.old).policy }
        ensures act { result ≡ (swept now is_whole rival self.old).act }
    {
        if self.is_stale {
            self.activity = Activity::Rests;
            self.is_stale = false;
            return Act::Wait;
        }
        self.end_sweep(now, is_whole, rival);
        match self.state {
            SmState::Standby => self.stand_by(rival),
            SmState::Master => self.reign(now, rival),
            SmState::NotActive | SmState::Discovering => Act::Wait,
        }
    }

    /// Notes that a sweep is over at the time `now`, whether it has every answer, and which master it saw.
    fn end_sweep(&mut self, now: u64, is_whole: bool, rival: Option<Rival>)
        ensures { self.new ≡ ended now is_whole rival self.old }
    {
        if is_whole {
            self.gaps = 0;
            self.faults = if is_master(self.state) {
                self.faults
            } else {
                0
            };
        } else {
            if !leaves_it(self.state, rival) && !self.goes_on() {
                self.wait_longer(now);
            }
            self.gaps = self.gaps.saturating_add(1);
        }
        self.activity = Activity::Rests;
        self.next_sweep = later_by(u64::from(self.timing.every), now);
    }

    /// Returns whether a master goes on without answers: several sweeps in a row lacked some, and it is not strict.
    fn goes_on(&self) -> bool
        ensures { result ≡ goes_on self.now }
    {
        is_master(self.state) && !self.timing.is_strict && self.gaps >= PATIENCE
    }

    /// Returns what a standby does after a sweep that saw the master `rival`.
    fn stand_by(&mut self, rival: Option<Rival>) -> Act
        ensures policy { self.new ≡ (stood_by rival self.old).policy }
        ensures act { result ≡ (stood_by rival self.old).act }
    {
        if rival.is_some() {
            self.master = rival;
            self.masterless = 0;
            return Act::Wait;
        }
        let count = if self.counts() {
            self.masterless.saturating_add(1)
        } else {
            self.masterless
        };
        self.master = None;
        if count > PATIENCE {
            self.masterless = 0;
            Act::Rediscover
        } else {
            self.masterless = count;
            Act::Wait
        }
    }

    /// Returns whether a standby's sweep without a master counts: it has every answer, or several in a row had not.
    fn counts(&self) -> bool
        ensures { result ≡ counts self.now }
    {
        self.gaps == 0 || self.gaps >= PATIENCE
    }

    /// Returns what a master does at the time `now` after a sweep that saw the other master `rival`.
    fn reign(&mut self, now: u64, rival: Option<Rival>) -> Act
        ensures policy { self.new ≡ (reigned now rival self.old).policy }
        ensures act { result ≡ (reigned now rival self.old).act }
    {
        match rival {
            None => {
                self.meeting.looks = 0;
                self.judges()
            }
            Some(rival) => {
                self.meeting = self.meeting.at(now);
                self.meet(rival)
            }
        }
    }

    /// Returns what a master does that met the master `rival`: it ignores one that does not give way.
    fn meet(&mut self, rival: Rival) -> Act
        ensures policy { self.new ≡ (met rival self.old).policy }
        ensures act { result ≡ (met rival self.old).act }
    {
        if self.meeting.handovers >= PATIENCE {
            return self.judges();
        }
        self.forget();
        self.want();
        self.deal_with(rival)
    }

    /// Returns how a master deals with the master `rival`: it offers a greater one the subnet. It announces itself, so
    /// that a lesser one sweeps and hands over; if that does not help, it offers the subnet to that one, which has to
    /// look at the subnet then.
    fn deal_with(&mut self, rival: Rival) -> Act
        ensures policy { self.new ≡ (dealt rival self.old).policy }
        ensures act { result ≡ (dealt rival self.old).act }
    {
        match rival {
            Rival::Greater => {
                self.meeting.handovers = self.meeting.handovers.saturating_add(1);
                Act::HandOver
            }
            Rival::Lesser => {
                if self.meeting.looks < PATIENCE {
                    self.meeting.looks = self.meeting.looks.saturating_add(1);
                    Act::Announce
                } else {
                    self.meeting.handovers = self.meeting.handovers.saturating_add(1);
                    Act::Yield
                }
            }
        }
    }

    /// Returns `Judge` if a plan may be made of what is known, and otherwise `HandOver`.
    fn judges(&self) -> Act
        ensures { result ≡ (judging self.now).act }
    {
        if self.may_plan() {
            Act::Judge
        } else {
            Act::HandOver
        }
    }

    /// Returns whether a plan may be made: the last sweep has every answer, or several had not and it is not strict.
    fn may_plan(&self) -> bool
        ensures { result ≡ may_plan self.now }
    {
        self.gaps == 0 || (!self.timing.is_strict && self.gaps > PATIENCE)
    }
}

/// Returns whether a manager in `state` leaves what lacks answers to the master `rival`: it is standby and saw one.
fn leaves_it(state: SmState, rival: Option<Rival>) -> bool
    ensures { result ≡ leaves_it state rival }
{
    match (state, rival) {
        (SmState::Standby, Some(_)) => true,
        (_, _) => false,
    }
}

impl Meeting {
    /// Returns the meeting with another master that is seen at `now`. A meeting that is long ago begins anew.
    pub(crate) fn at(self, now: u64) -> Self
        ensures { result ≡ meeting_at now self }
    {
        if self.is_past(now) {
            Meeting {
                since: Some(now),
                looks: 0,
                handovers: 0,
            }
        } else {
            self
        }
    }

    /// Returns whether the meeting is long ago at `now`, or never began.
    fn is_past(self, now: u64) -> bool
        ensures { result ≡ is_past now self.since }
    {
        match self.since {
            None => true,
            Some(since) => now > later_by(IGNORED_FOR, since),
        }
    }
}
