//! What a manager is told, and when it is to be told the time next.
ghost use Rattle.std.specs.Prelude.{◌≡◌, ◌∷◌, [], None, OnOk};
ghost use Rattle.sm_manager.specs.Packets.{HasSender};
ghost use Rattle.acting_manager.specs.Acting.{value_of};
ghost use Rattle.acting_manager.specs.Working.{Told, acted_if_idle, after_told, is_resting, leaving};
ghost use Rattle.acting_manager.specs.Working.{not_before, paused_until, stood_still, told_time, wake_in};
ghost use Rattle.acting_manager.specs.Working.{wake_of, worked, yielding_at_once};

use crate::acting_manager::ActingManager;
use crate::note::Note;
use sm_manager::Outgoing;
use sm_policy::{Activity, later_by};
use smp_bytes::Lid;
use std::alloc::AllocError;

/// How much later than it asked for a manager may be told the time, before it counts as standing still meanwhile.
const PAUSE: u64 = 2000;

impl ActingManager {
    /// Tells the manager the time. A time that is less than the last one counts as the last one.
    ///
    /// # Errors
    ///
    /// Returns an error if memory runs out. The manager is then of no use any more.
    pub fn handle_time(&mut self, time: u64) -> Result<(), AllocError>
        ensures { OnOk result (value_of self.new ≡ after_told time Told.Time (value_of self.old)) }
    {
        self.tell_time(time)?;
        self.work()
    }

    /// Tells the manager the time, and that the packet `bytes` came to its port from the LID `from`, which must not be
    /// `None` if the packet came by LIDs. Bytes that are not a packet do nothing.
    ///
    /// # Errors
    ///
    /// Returns an error if memory runs out. The manager is then of no use any more.
    pub fn handle_packet(
        &mut self,
        time: u64,
        bytes: &[u8; 256],
        from: Option<Lid>,
    ) -> Result<(), AllocError>
        requires { HasSender bytes.now from }
        ensures { OnOk result (value_of self.new
            ≡ after_told time (Told.Packet bytes.now from) (value_of self.old)) }
    {
        self.tell_time(time)?;
        self.hear(bytes, from)?;
        self.work()
    }

    /// Tells the manager the time, and asks for a sweep as soon as one may begin.
    ///
    /// # Errors
    ///
    /// Returns an error if memory runs out. The manager is then of no use any more.
    pub fn look(&mut self, time: u64) -> Result<(), AllocError>
        ensures { OnOk result (value_of self.new ≡ after_told time Told.Look (value_of self.old)) }
    {
        self.tell_time(time)?;
        self.policy.want();
        self.work()
    }

    /// Tells the manager the time, and that it is to hand over to the greatest other manager and to do nothing more,
    /// once its sweep is over if one runs. It has left once `wake` is `None`, but answers others still.
    ///
    /// # Errors
    ///
    /// Returns an error if memory runs out. The manager is then of no use any more.
    pub fn leave(&mut self, time: u64) -> Result<(), AllocError>
        ensures { OnOk result (value_of self.new ≡ after_told time Told.Leave (value_of self.old)) }
    {
        self.tell_time(time)?;
        self.begin_to_leave()?;
        self.work()
    }

    /// Returns when the manager is to be told the time next, which is not before the time that it was told last.
    /// Returns `None` if it waits for packets alone, or has left.
    pub fn wake(&self) -> Option<u64>
        ensures { result ≡ wake_of (value_of self.now) }
    {
        if self.is_leaving && is_resting(self.policy.activity) {
            None
        } else {
            not_before(self.time, self.wake_for_work())
        }
    }

    /// Returns when the manager is to be told the time next, as long as it does not leave.
    fn wake_for_work(&self) -> Option<u64>
        ensures { result ≡ wake_in (value_of self.now) }
    {
        if self.is_given_up() {
            Some(self.time)
        } else if self.window.is_idle() {
            self.policy.due(self.time)
        } else {
            self.window.next_deadline()
        }
    }

    /// Sets the time. If it is long after the one that was asked for, the manager stood still meanwhile.
    fn tell_time(&mut self, time: u64) -> Result<(), AllocError>
        ensures { OnOk result (value_of self.new ≡ told_time time (value_of self.old)) }
    {
        let now = time.max(self.time);
        if stood_still(self.time, now, self.wake()) {
            self.pause_until(now)
        } else {
            self.time = now;
            Ok(())
        }
    }

    /// Notes that the manager stood still until `time`: what it writes is given up, and it sweeps.
    fn pause_until(&mut self, time: u64) -> Result<(), AllocError>
        ensures { OnOk result (value_of self.new ≡ paused_until time (value_of self.old)) }
    {
        self.time = time;
        self.policy.resume();
        self.is_void = true;
        self.note(Note::Paused)
    }

    /// Begins to leave, unless the manager leaves already: hands over once its sweep is over if one runs, which sees
    /// the heirs, and otherwise at once.
    fn begin_to_leave(&mut self) -> Result<(), AllocError>
        ensures { OnOk result (value_of self.new ≡ leaving (value_of self.old)) }
    {
        if self.is_leaving {
            return Ok(());
        }
        self.is_leaving = true;
        if self.policy.activity.is_sweeping() {
            Ok(())
        } else {
            self.yield_at_once()
        }
    }

    /// Drops all requests, and hands over to the heir.
    fn yield_at_once(&mut self) -> Result<(), AllocError>
        ensures { OnOk result (value_of self.new ≡ yielding_at_once (value_of self.old)) }
    {
        self.window.clear();
        self.yield_up()
    }

    /// Does what follows each thing that the manager is told.
    fn work(&mut self) -> Result<(), AllocError>
        ensures { OnOk result (value_of self.new ≡ worked (value_of self.old)) }
    {
        self.catch_up()?;
        self.stop()?;
        self.judge_late()?;
        self.catch_up()?;
        self.act_if_idle()?;
        self.send()
    }

    /// Does what is next, if no request is out or waits for its turn.
    fn act_if_idle(&mut self) -> Result<(), AllocError>
        ensures { OnOk result (value_of self.new ≡ acted_if_idle (value_of self.old)) }
    {
        if self.window.is_idle() {
            self.act()?;
            self.catch_up()?;
        }
        Ok(())
    }
}

/// Returns `time`, but not before `now`, or `None` if `time` is `None`.
fn not_before(now: u64, time: Option<u64>) -> Option<u64>
    ensures { result ≡ not_before now time }
{
    match time {
        None => None,
        Some(time) => Some(time.max(now)),
    }
}

/// Returns whether the manager stood still: it was told `now` last, is now told `time`, and asked for `wake`. A manager
/// that was told no time but 0 has just begun.
fn stood_still(now: u64, time: u64, wake: Option<u64>) -> bool
    ensures { result ≡ stood_still now time wake }
{
    match wake {
        None => false,
        Some(wake) => now != 0 && time > later_by(PAUSE, wake),
    }
}

/// Returns whether nothing runs.
fn is_resting(activity: Activity) -> bool
    ensures { result ≡ is_resting activity }
{
    match activity {
        Activity::Rests => true,
        Activity::Sweeps | Activity::Writes | Activity::Hands => false,
    }
}
