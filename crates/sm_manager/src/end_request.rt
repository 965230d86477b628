//! The end of requests outside sweeps.
ghost use Rattle.std.specs.Prelude.{◌≡◌, ◌<◌, OnOk, OnErr, length, slice_get, is_some};
ghost use Rattle.smp_bytes.specs.Judges.{JudgesButFor};
ghost use Rattle.sm_manager.specs.declared.pending.Pending.{Pending};
ghost use Rattle.sm_manager.specs.Fault.{is_memory};
ghost use Rattle.sm_manager.specs.Packets.{after_poll_end, after_request};
ghost use Rattle.sm_manager.specs.Election.{after_control_end, is_handover};
ghost use Rattle.sm_manager.specs.Packets.{pending_for, request_answered};
ghost use Rattle.sm_manager.specs.Election.{is_relieved};
ghost use Rattle.sm_manager.specs.Packets.{status_number};
ghost use Rattle.sm_manager.specs.Writing.{is_done_by};

use crate::fault::ManagerFault;
use crate::manager::Manager;
use crate::pending::{Pending, Purpose};
use sm_state::{Control, Event, Standing};
use smp_bytes::{Smp, Status};

impl Manager {
    /// Takes `smp` as the answer to a request outside sweeps, and ends that request. Fails with `Unasked` if there is
    /// none, and with `SequenceSpent` or `Memory` if the next phase of a writing is due and cannot be sent.
    pub(crate) fn take_answer(&mut self, smp: &Smp) -> Result<(), ManagerFault>
        ensures judged { JudgesButFor is_memory result
            (request_answered self.old smp.now (pending_for self.old smp.now)).fault }
        ensures ok { OnOk result (self.new
            ≡ (request_answered self.old smp.now (pending_for self.old smp.now)).manager) }
        ensures err { OnErr result (self.new ≡ self.old) }
    {
        match self.requests.index_for(smp) {
            Some(index) => self.end_request(index, Some(smp.status())),
            None => Err(ManagerFault::Unasked),
        }
    }

    /// Ends the outstanding request at `index`, with the status `answer` or, if it timed out, `None`. Fails with
    /// `SequenceSpent` or `Memory` if the next phase of a writing is due and cannot be sent.
    pub(crate) fn end_request(
        &mut self,
        index: usize,
        answer: Option<Status>,
    ) -> Result<(), ManagerFault>
        requires { index < length self.old.pending }
        ensures judged { (p : Pending) → slice_get self.old.pending index ≡ Some p
            → JudgesButFor is_memory result
            (after_request self.old p (status_number answer) p.purpose).fault }
        ensures ok { (p : Pending) → slice_get self.old.pending index ≡ Some p
            → OnOk result (self.new
            ≡ (after_request self.old p (status_number answer) p.purpose).manager) }
        ensures err { OnErr result (self.new ≡ self.old) }
    {
        match self.requests.purpose(index) {
            Purpose::Step { .. } => self.end_step(index, is_done_by(answer)),
            Purpose::Poll => {
                self.requests.end(index);
                end_poll(&mut self.standing, answer.is_some());
                Ok(())
            }
            Purpose::Control => {
                let ended = self.requests.end(index);
                let is_relieved = is_relieved(&self.standing, &ended, answer);
                end_control(&mut self.standing, is_relieved);
                Ok(())
            }
        }
    }
}

/// Returns whether a step that ends with `answer` is done: whether `answer` is status 0. `None` stands for a timeout.
fn is_done_by(answer: Option<Status>) -> bool
    ensures { result ≡ is_done_by (status_number answer) }
{
    match answer {
        Some(status) => status == Status::DONE,
        None => false,
    }
}

/// Resets the count of lost polls if the poll was answered, and otherwise counts the poll as lost.
fn end_poll(standing: &mut Standing, was_answered: bool)
    ensures { standing.new ≡ after_poll_end was_answered standing.old }
{
    if was_answered {
        standing.hear_poll();
    } else {
        standing.lose_poll();
    }
}

/// Returns whether `ended` moves the manager as ACKNOWLEDGE: a HANDOVER under the live conduct that status 0 answers.
fn is_relieved(standing: &Standing, ended: &Pending, answer: Option<Status>) -> bool
    ensures { result ≡ is_relieved standing.now ended.now (status_number answer) }
{
    standing.conduct.is_live() && is_handover(ended) && is_done_by(answer)
}

/// Returns whether `ended` has the modifier of a HANDOVER. Ignores the purpose of `ended`.
fn is_handover(ended: &Pending) -> bool
    ensures { result ≡ is_handover ended.now }
{
    ended.modifier == Control::Handover.modifier()
}

/// Moves the manager as an ACKNOWLEDGE would if `is_relieved`, and otherwise does nothing.
fn end_control(standing: &mut Standing, is_relieved: bool)
    ensures { standing.new ≡ after_control_end is_relieved standing.old }
{
    if is_relieved {
        standing.move_by(Event::Control(Control::Acknowledge.modifier()));
    }
}
