//! The command by which time passes.
ghost use Rattle.std.specs.Prelude.{◌≡◌, None};
ghost use Rattle.schedule_run.specs.Waiting.{after_turn, after_wait_line, after_waking, due_at, earlier, first_wake};
ghost use Rattle.schedule_run.specs.Waiting.{has_come, next_turn, next_wake, wake_at, within};
ghost use Rattle.schedule_run.specs.World.{Does, decider_value, value_of};

use crate::world::{Decider, World};
use byte_io::Sink;
use schedule_lines::RunFault;
use sm_policy::later_by;

/// What comes next while time passes.
#[derive(Clone, Copy, Debug, PartialEq, Eq)]
pub enum WaitTurn {
    /// The packet in flight with this serial number takes a step.
    Deliver(u64),
    /// It becomes this time, and the first decider that is to be told the time by then is told it.
    Wake(u64),
}

impl World<'_> {
    /// Lets `wait` milliseconds pass, but with at most `most` turns. Packets take no time: as long as one is in flight,
    /// it does not get later.
    pub(crate) fn wait<W: Sink>(
        &mut self,
        wait: u32,
        most: u32,
        sink: &mut W,
    ) -> Result<(), RunFault>
        ensures does { Does W.written W.has_failed self.old self.new result sink.old sink.new
            (after_wait_line (value_of self.old) wait most) }
    {
        let until = later_by(u64::from(wait), self.time);
        for _turn in 0..most {
            let Some(turn) = self.next_turn(until) else {
                self.time = until;
                return Ok(());
            };
            self.take_turn(turn, sink)?;
        }
        Ok(())
    }

    /// Returns the turn that comes next in a wait until `until`, or `None` if the wait is over.
    fn next_turn(&self, until: u64) -> Option<WaitTurn>
        ensures { result ≡ next_turn (value_of self.now) until }
    {
        match self.fabric.in_flight(0) {
            Some(first) => Some(WaitTurn::Deliver(first.serial)),
            None => Some(WaitTurn::Wake(self.next_wake(until)?)),
        }
    }

    /// Takes `turn`.
    #[tactic(auto, unfolding(crate::specs::Waiting::after_turn))]
    fn take_turn<W: Sink>(&mut self, turn: WaitTurn, sink: &mut W) -> Result<(), RunFault>
        ensures does { Does W.written W.has_failed self.old self.new result sink.old sink.new
            (after_turn (value_of self.old) turn) }
    {
        match turn {
            WaitTurn::Deliver(serial) => self.deliver(serial, sink),
            WaitTurn::Wake(time) => {
                self.time = time;
                self.wake_first(sink)
            }
        }
    }

    /// Tells the time to the first decider that is to be told it by now. Does nothing if there is none.
    fn wake_first<W: Sink>(&mut self, sink: &mut W) -> Result<(), RunFault>
        ensures does { Does W.written W.has_failed self.old self.new result sink.old sink.new
            (after_waking (value_of self.old)) }
    {
        match self.due_at() {
            None => Ok(()),
            Some(index) => self.tell_time(index, sink),
        }
    }

    /// Returns the index of the first decider that is to be told the time by now, or `None` if there is none.
    fn due_at(&self) -> Option<usize>
        ensures { result ≡ due_at (value_of self.now) }
    {
        for (index, decider) in self.deciders.iter().enumerate() {
            if decider.is_due(self.time) {
                return Some(index);
            }
        }
        None
    }

    /// Returns the next time, not after `until`, at which a decider is to be told the time, or `None` if there is none.
    fn next_wake(&self, until: u64) -> Option<u64>
        ensures { result ≡ next_wake (value_of self.now) until }
    {
        within(self.time, until, self.first_wake())
    }

    /// Returns the earliest time at which a decider is to be told the time, or `None` if there is none.
    fn first_wake(&self) -> Option<u64>
        ensures { result ≡ first_wake None (value_of self.now).deciders }
    {
        let mut first = None;
        for decider in &self.deciders {
            first = earlier(first, decider.wake_at());
        }
        first
    }
}

impl Decider<'_> {
    /// Returns whether the decider is to be told the time by `now`.
    fn is_due(&self, now: u64) -> bool
        ensures { result ≡ has_come now (wake_at (decider_value self.now)) }
    {
        has_come(now, self.wake_at())
    }

    /// Returns when the decider is to be told the time next, or `None` if it is not awake, or waits for packets alone.
    fn wake_at(&self) -> Option<u64>
        ensures { result ≡ wake_at (decider_value self.now) }
    {
        if self.is_awake {
            self.acting.wake()
        } else {
            None
        }
    }
}

/// Returns the earlier of two times, each of which may be missing.
fn earlier(first: Option<u64>, other: Option<u64>) -> Option<u64>
    ensures { result ≡ earlier first other }
{
    match (first, other) {
        (None, _) => other,
        (Some(time), None) => Some(time),
        (Some(time), Some(other)) => Some(time.min(other)),
    }
}

/// Returns `time`, but not before `now`, or `None` if it is after `until` or missing.
fn within(now: u64, until: u64, time: Option<u64>) -> Option<u64>
    ensures { result ≡ within now until time }
{
    match time {
        Some(time) if time <= until => Some(time.max(now)),
        _ => None,
    }
}

/// Returns whether `time` has come, or `false` if it is missing.
fn has_come(now: u64, time: Option<u64>) -> bool
    ensures { result ≡ has_come now time }
{
    match time {
        None => false,
        Some(time) => time <= now,
    }
}
