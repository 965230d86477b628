//! How a manager takes its next step, and carries out what its policy decides.
ghost use Rattle.std.specs.Prelude.{◌≡◌, OnOk};
ghost use Rattle.sm_manager.specs.Manager.{begin_fault};
ghost use Rattle.acting_manager.specs.Acting.{value_of};
ghost use Rattle.acting_manager.specs.Acts.{acted, acted_in, done_by, handing_on, handing_over, is_whole, is_whole_by};
ghost use Rattle.acting_manager.specs.Acts.{left_in, noted_as, noted_if, polling, rediscovering, rival_of, rival_seen};
ghost use Rattle.acting_manager.specs.Acts.{sweep_over, sweeping_on, swept_with, writing_over, yielding, floor_raised};

use crate::acting_manager::ActingManager;
use crate::asks;
use crate::note::Note;
use crate::reads::Reads;
use attr_codec::SmInfo;
use sm_manager::{Manager, Progress};
use sm_policy::{Act, Activity, Rival};
use sm_state::{SeenManager, SmState, greatest_in, wins};
use smp_bytes::Generation;
use std::alloc::AllocError;

impl ActingManager {
    /// Takes the manager's next step. It is called only if no request is out or waits to be sent.
    pub(crate) fn act(&mut self) -> Result<(), AllocError>
        ensures { OnOk result (value_of self.new ≡ acted (value_of self.old)) }
    {
        if self.is_leaving {
            self.act_leaving()
        } else {
            self.act_by_activity()
        }
    }

    /// Takes the next step of a manager that leaves: a handover after a sweep, and after that rest.
    fn act_leaving(&mut self) -> Result<(), AllocError>
        ensures { OnOk result (value_of self.new
            ≡ left_in (value_of self.old).policy.activity (value_of self.old)) }
    {
        match self.policy.activity {
            Activity::Hands => {
                self.policy.end_handover();
                Ok(())
            }
            Activity::Sweeps => self.yield_up(),
            Activity::Rests | Activity::Writes => Ok(()),
        }
    }

    /// Takes the next step of a manager that stays, by its activity.
    fn act_by_activity(&mut self) -> Result<(), AllocError>
        ensures { OnOk result (value_of self.new
            ≡ acted_in (value_of self.old).policy.activity (value_of self.old)) }
    {
        match self.policy.activity {
            Activity::Rests => {
                let act = self.policy.rest(self.time);
                self.perform(act)
            }
            Activity::Sweeps => self.end_sweep(),
            Activity::Writes => self.end_writing(),
            Activity::Hands => {
                self.policy.end_handover();
                Ok(())
            }
        }
    }

    /// Tells the policy that the sweep is over, and does what it decides.
    fn end_sweep(&mut self) -> Result<(), AllocError>
        ensures { OnOk result (value_of self.new ≡ sweep_over (value_of self.old)) }
    {
        let is_whole = is_whole(&self.manager);
        let rival = rival_seen(&self.manager);
        self.note(Note::Swept(is_whole))?;
        let act = self.policy.sweep_ended(self.time, is_whole, rival);
        self.perform(act)
    }

    /// Tells the policy that the writing is over, and does what it decides.
    fn end_writing(&mut self) -> Result<(), AllocError>
        ensures { OnOk result (value_of self.new ≡ writing_over (value_of self.old)) }
    {
        let is_written = self.manager.written();
        self.note(Note::Wrote(is_written))?;
        let act = self.policy.write_ended(self.time, is_written);
        self.perform(act)
    }

    /// Carries out `act`. `Wait`, `Write` and `Settle` change nothing here.
    fn perform(&mut self, act: Act) -> Result<(), AllocError>
        ensures { OnOk result (value_of self.new ≡ done_by act (value_of self.old)) }
    {
        match act {
            Act::Poll => self.poll(),
            Act::Announce => self.note(Note::Did(Act::Announce)),
            Act::Sweep => self.sweep(),
            Act::Rediscover => self.rediscover(),
            Act::HandOver => self.hand_over(),
            Act::Yield => self.yield_up(),
            Act::Judge => self.judge(),
            Act::Wait | Act::Write | Act::Settle => Ok(()),
        }
    }

    /// Polls the master. If the manager refuses to, notes that no master is known.
    fn poll(&mut self) -> Result<(), AllocError>
        ensures { OnOk result (value_of self.new ≡ polling (value_of self.old)) }
    {
        if !asks::poll(&mut self.manager)? {
            self.policy.hear_poll(false);
        }
        Ok(())
    }

    /// Begins a sweep at a new generation, above all earlier ones.
    fn sweep(&mut self) -> Result<(), AllocError>
        ensures { OnOk result (value_of self.new ≡ sweeping_on (value_of self.old)) }
    {
        self.raise_floor();
        self.begin_sweep()
    }

    /// Makes a new generation, one above the newest, and raises the floor of the manager's facts to it.
    fn raise_floor(&mut self)
        ensures { value_of self.new ≡ floor_raised (value_of self.old) }
    {
        self.newest = self.newest.saturating_add(1);
        self.manager
            .raise_floor(Generation::new(self.newest).unwrap());
    }

    /// Begins a sweep, and drops what the last one read. If the manager refuses to sweep, notes a failure.
    fn begin_sweep(&mut self) -> Result<(), AllocError>
        ensures { OnOk result (value_of self.new ≡ swept_with
            (begin_fault (value_of self.old).manager) (value_of self.old)) }
    {
        let has_begun = asks::begin_sweep(&mut self.manager)?;
        self.reads = Reads::nothing();
        if !has_begun {
            self.policy.fail(self.time);
        }
        self.note_as(has_begun, Act::Sweep)
    }

    /// Has the manager leave Standby for Discovering.
    fn rediscover(&mut self) -> Result<(), AllocError>
        ensures { OnOk result (value_of self.new ≡ rediscovering (value_of self.old)) }
    {
        asks::rediscover(&mut self.manager)?;
        self.note(Note::Did(Act::Rediscover))
    }

    /// Hands over to the manager's successor, if there is one.
    pub(crate) fn hand_over(&mut self) -> Result<(), AllocError>
        ensures { OnOk result (value_of self.new ≡ handing_over (value_of self.old)) }
    {
        let is_out = asks::hand_over(&mut self.manager)?;
        self.policy.hand(is_out);
        self.note_if(is_out, Act::HandOver)
    }

    /// Hands over to the manager's heir, if there is one.
    pub(crate) fn yield_up(&mut self) -> Result<(), AllocError>
        ensures { OnOk result (value_of self.new ≡ yielding (value_of self.old)) }
    {
        let is_out = asks::yield_up(&mut self.manager)?;
        self.policy.hand(is_out);
        self.note_if(is_out, Act::Yield)
    }

    /// Notes that `act` was done if `is_done` is true, and otherwise that the manager refused it.
    pub(crate) fn note_as(&mut self, is_done: bool, act: Act) -> Result<(), AllocError>
        ensures { OnOk result (value_of self.new ≡ noted_as is_done act (value_of self.old)) }
    {
        self.note(if is_done {
            Note::Did(act)
        } else {
            Note::Refused(act)
        })
    }

    /// Notes that `act` was done if `is_done` is true.
    fn note_if(&mut self, is_done: bool, act: Act) -> Result<(), AllocError>
        ensures { OnOk result (value_of self.new ≡ noted_if is_done act (value_of self.old)) }
    {
        if is_done {
            self.note(Note::Did(act))
        } else {
            Ok(())
        }
    }
}

/// Returns whether the last sweep of `manager` has every answer except those of other managers.
pub(crate) fn is_whole(manager: &Manager) -> bool
    ensures { result ≡ is_whole manager.now }
{
    is_whole_by(manager.progress(), manager.silent_managers())
}

/// Returns whether a sweep is over, found no port too far away, and has all answers but those of `silent` managers.
fn is_whole_by(progress: Progress, silent: Option<u64>) -> bool
    ensures { result ≡ is_whole_by progress silent }
{
    match (progress, silent) {
        (
            Progress::Done {
                unanswered,
                too_far,
            },
            Some(silent),
        ) => unanswered == silent && too_far == 0,
        (_, _) => false,
    }
}

/// Returns whether the greatest master that the last sweep saw is greater or lesser than `manager`, if it saw one.
fn rival_seen(manager: &Manager) -> Option<Rival>
    ensures { result ≡ rival_seen manager.now }
{
    let own = manager.info();
    rival_of(
        &own,
        greatest_in(SmState::Master, &own, manager.seen_managers()),
    )
}

/// Returns whether `other` is greater or lesser than the manager whose SMInfo is `own`, or `None` if `other` is `None`.
fn rival_of(own: &SmInfo, other: Option<SeenManager>) -> Option<Rival>
    ensures { result ≡ rival_of own.now other }
{
    let other = other?;
    if wins(&other.info, own) {
        Some(Rival::Greater)
    } else {
        Some(Rival::Lesser)
    }
}
