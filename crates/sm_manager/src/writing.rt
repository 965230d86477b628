ghost use Rattle.std.specs.Prelude.{◌≡◌, ◌≤◌, ◌+◌, ◌^◌, ◌++◌, ◌||◌, ◌&&◌, false, not, drop, length, ◌<◌, None, Some};
ghost use Rattle.std.specs.List.{list_any};
ghost use Rattle.std.specs.VecDeque.{deque_capacity, deque_len};
ghost use Rattle.sm_manager.specs.Writing.{next_pending, next_phase, numbered, without_empty_phases, steps_out};
ghost use Rattle.sm_manager.specs.Writing.{is_written};

use crate::manager::Manager;
use crate::manager_requests::ManagerRequests;
use crate::outgoing::Outgoing;
use plan_steps::{Phase, Step, phases};
use std::collections::VecDeque;
use std::marker::Model;

/// A plan that is being written, or was written last.
#[derive(Drop)]
pub(crate) struct Writing {
    /// The phases that have not been sent, the next one first. The first phase, if there is one, has steps.
    later: VecDeque<Phase>,
    /// Whether some step that counts (`Phase::counts`) was not done.
    has_failed: bool,
}

impl Model for Writing {
    ghost use Rattle.sm_manager.specs.Manager.{Writing};

    ghost Value = { Writing };

    ghost view = { λ a. record { later = a.later.items; has_failed = a.has_failed } };
}

impl Writing {
    /// Creates a writing of `phases`, without the empty ones at their front. None of their steps is sent yet.
    pub(crate) fn new(phases: VecDeque<Phase>) -> Self
        ensures { result ≡ record { later = without_empty_phases phases.items; has_failed = false } }
    {
        let mut later = phases;
        pass(&mut later);
        Writing {
            later,
            has_failed: false,
        }
    }

    /// Returns the number of steps of the next phase, or 0 if no phase is left.
    pub(crate) fn next_count(&self) -> usize
        ensures { result ≡ length (next_phase self.now.later).steps }
    {
        match self.later.front() {
            Some(phase) => phase.steps.len(),
            None => 0,
        }
    }

    /// Notes whether a step was done. If `counts` and not `was_done`, the writing has failed.
    pub(crate) fn note(&mut self, counts: bool, was_done: bool)
        ensures later { self.new.later ≡ self.old.later }
        ensures failed { self.new.has_failed ≡ self.old.has_failed || (counts && not was_done) }
    {
        self.has_failed = self.has_failed || (counts && !was_done);
    }

    /// Removes the next phase, if any, from the writing, and makes its steps outstanding ones. Does not allocate.
    pub(crate) fn send_next(
        &mut self,
        requests: &mut ManagerRequests,
        outgoing: &mut VecDeque<Outgoing>,
    )
        requires numbers { requests.old.counter + length (next_phase self.old.later).steps ≤ 2 ^ 32 }
        requires room { length (next_phase self.old.later).steps ≤ requests.old.room }
        requires outgoing { deque_len outgoing.old + length (next_phase self.old.later).steps
            ≤ deque_capacity outgoing.old }
        ensures later { self.new.later ≡ without_empty_phases (drop 1 self.old.later) }
        ensures failed { self.new.has_failed ≡ self.old.has_failed }
        ensures counter { requests.new.counter
            ≡ requests.old.counter + length (next_phase self.old.later).steps }
        ensures pending { requests.new.pending
            ≡ requests.old.pending ++ next_pending requests.old.counter self.old.later }
        ensures outgoing { outgoing.new.items
            ≡ outgoing.old.items ++ steps_out requests.old.counter (next_phase self.old.later).steps }
    {
        if let Some(Phase { counts, steps }) = self.later.pop_front() {
            send_steps(counts, steps, requests, outgoing);
            pass(&mut self.later);
        }
    }

    /// Returns whether every phase that counts was sent, and no step that counts has failed so far.
    pub(crate) fn is_sent(&self) -> bool
        ensures { result ≡ not self.now.has_failed && not (list_any (λ p. p.counts) self.now.later) }
    {
        !self.has_failed && !self.any_counts()
    }

    /// Returns whether a phase that counts has not been sent.
    fn any_counts(&self) -> bool
        ensures { result ≡ list_any (λ p. p.counts) self.now.later }
    {
        self.later.iter().any(|phase| phase.counts)
    }
}

/// Removes the phases without steps from the front of `later`.
fn pass(later: &mut VecDeque<Phase>)
    ensures { later.new.items ≡ without_empty_phases later.old.items }
{
    while let Some(phase) = later.front() {
        if !phase.steps.is_empty() {
            return;
        }
        later.pop_front();
    }
}

/// Queues `steps`, then outstanding. If `counts`, the plan is written only if all are done. Does not allocate.
fn send_steps(
    counts: bool,
    steps: Vec<Step>,
    requests: &mut ManagerRequests,
    outgoing: &mut VecDeque<Outgoing>,
)
    requires numbers { requests.old.counter + length steps.items ≤ 2 ^ 32 }
    requires room { length steps.items ≤ requests.old.room }
    requires outgoing { deque_len outgoing.old + length steps.items ≤ deque_capacity outgoing.old }
    ensures counter { requests.new.counter ≡ requests.old.counter + length steps.items }
    ensures pending { requests.new.pending
        ≡ requests.old.pending ++ numbered counts requests.old.counter steps.items }
    ensures outgoing { outgoing.new.items
        ≡ outgoing.old.items ++ steps_out requests.old.counter steps.items }
{
    for step in steps {
        let packet = requests.send(counts, step);
        outgoing.push_back_reserved(Outgoing { packet, to: None });
    }
}

impl Manager {
    /// Returns whether a writing has begun, and each step of the last writing that sets a LID, a block or a top was
    /// answered with status 0.
    pub fn written(&self) -> bool
        ensures { result ≡ is_written self.now }
    {
        match &self.writing {
            Some(writing) => writing.is_sent() && self.requests.none_counts(),
            None => false,
        }
    }
}
