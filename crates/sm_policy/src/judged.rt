//! What a master does about its plan.
ghost use Rattle.std.specs.Prelude.{◌≡◌};
ghost use Rattle.sm_policy.specs.Judged.{anew, cause_of, failed, judged, may_bring_up};
ghost use Rattle.sm_policy.specs.Judged.{may_take, once_more, recent_takings, settled};
ghost use Rattle.sm_policy.specs.Judged.{stood, taking, writing, wrote};

use crate::act::Act;
use crate::activity::Activity;
use crate::comparison::Comparison;
use crate::policy::{PATIENCE, Policy, later_by};
use crate::ports::Ports;
use crate::write_cause::WriteCause;

/// Within which time ports that name another master are taken back a few times only.
const TAKEN_BACK_WITHIN: u64 = 600_000;

impl Policy {
    /// Returns what is done at the time `now` about the plan. `comparison` says how it compares to what was written
    /// last, and `ports` what the sweep read of ports. Returns `Wait` if there is no plan, `Settle` if nothing is left
    /// to write, and otherwise `Write`.
    pub fn judge(&mut self, now: u64, comparison: Comparison, ports: Ports) -> Act
        ensures policy { self.new ≡ (judged now comparison ports self.old).policy }
        ensures act { result ≡ (judged now comparison ports self.old).act }
    {
        match comparison {
            Comparison::NoPlan => {
                self.wait_longer(now);
                Act::Wait
            }
            Comparison::Differs => self.write_anew(),
            Comparison::Same => {
                if self.written.stands {
                    self.look_after(now, ports)
                } else {
                    self.write_anew()
                }
            }
        }
    }

    /// Returns why the plan is written, if `judge` says so of `comparison` and `ports`.
    pub fn cause(&self, comparison: Comparison, ports: Ports) -> WriteCause
        ensures { result ≡ cause_of comparison ports self.now }
    {
        match comparison {
            Comparison::NoPlan | Comparison::Differs => WriteCause::New,
            Comparison::Same => {
                if self.written.stands {
                    WriteCause::For(ports)
                } else {
                    WriteCause::Again
                }
            }
        }
    }

    /// Returns `Write`, for another plan than the one that was written last.
    fn write_anew(&mut self) -> Act
        ensures policy { self.new ≡ (anew self.old).policy }
        ensures act { result ≡ (anew self.old).act }
    {
        self.written.repeats = 0;
        Act::Write
    }

    /// Returns what is done at `now` about a plan that stands: another writing if that may bring up or take back ports.
    fn look_after(&mut self, now: u64, ports: Ports) -> Act
        ensures policy { self.new ≡ (stood now ports self.old).policy }
        ensures act { result ≡ (stood now ports self.old).act }
    {
        if self.may_bring_up(ports) || self.may_take(now, ports) {
            self.write_once_more(now, ports);
            Act::Write
        } else {
            self.settle(ports);
            Act::Settle
        }
    }

    /// Returns whether a writing of the same plan may bring up a port: more are not Active than the last one left.
    fn may_bring_up(&self, ports: Ports) -> bool
        ensures { result ≡ may_bring_up ports self.now }
    {
        ports.inactive > self.written.inactive && self.written.repeats < PATIENCE
    }

    /// Returns whether ports are to be taken back at the time `now` that name another master. That one may take them
    /// too, so this is not done without end.
    fn may_take(&self, now: u64, ports: Ports) -> bool
        ensures { result ≡ may_take now ports self.now }
    {
        ports.foreign > 0 && self.recent_takings(now) < PATIENCE
    }

    /// Returns how often ports were taken back until the time `now`, or 0 if that is long ago.
    fn recent_takings(&self, now: u64) -> u32
        ensures { result ≡ recent_takings now self.now }
    {
        if now > later_by(TAKEN_BACK_WITHIN, self.taken_since) {
            0
        } else {
            self.takings
        }
    }

    /// Notes, at the time `now`, that the plan that stands is written once more.
    fn write_once_more(&mut self, now: u64, ports: Ports)
        ensures { self.new ≡ once_more now ports self.old }
    {
        if ports.foreign > 0 {
            self.take_back(now);
        }
        self.written.repeats = self.written.repeats.saturating_add(1);
    }

    /// Notes, at the time `now`, that ports are taken back that name another master.
    fn take_back(&mut self, now: u64)
        ensures { self.new ≡ taking now self.old }
    {
        let recent = self.recent_takings(now);
        if recent == 0 {
            self.taken_since = now;
        }
        self.takings = recent.saturating_add(1);
    }

    /// Notes that nothing is left to write, but for what `ports` tells of.
    fn settle(&mut self, ports: Ports)
        ensures { self.new ≡ settled ports self.old }
    {
        self.faults = 0;
        self.written.repeats = 0;
        self.written.inactive = ports.inactive;
        self.written.foreign = ports.foreign;
    }

    /// Notes, at the time `now`, that a writing was asked for. It runs if `has_begun`; otherwise the manager refused
    /// it.
    pub fn write(&mut self, now: u64, has_begun: bool)
        ensures { self.new ≡ writing now has_begun self.old }
    {
        if has_begun {
            self.activity = Activity::Writes;
            self.written.stands = true;
        } else {
            self.fail(now);
        }
    }

    /// Notes, at the time `now`, that a sweep was refused or a writing failed: nothing is known to stand.
    pub fn fail(&mut self, now: u64)
        ensures { self.new ≡ failed now self.old }
    {
        self.activity = Activity::Rests;
        self.forget();
        self.wait_longer(now);
    }

    /// Returns what is done at the time `now` after a writing. `is_written` says whether all of it was answered as it
    /// must be.
    pub fn write_ended(&mut self, now: u64, is_written: bool) -> Act
        ensures policy { self.new ≡ (wrote now is_written self.old).policy }
        ensures act { result ≡ (wrote now is_written self.old).act }
    {
        if is_written {
            self.activity = Activity::Rests;
            self.is_wanted = true;
            Act::HandOver
        } else {
            self.fail(now);
            Act::Wait
        }
    }
}
