ghost use Rattle.std.specs.Prelude.{◌≡◌, ◌<◌, true, false, None, Some, Ok, Option, IfOk, OnOk, OnErr, length};
ghost use Rattle.std.specs.Prelude.{slice_get};
ghost use Rattle.smp_bytes.specs.Judges.{Judges, JudgesButFor};
ghost use Rattle.sm_manager.specs.declared.pending.Pending.{Pending};
ghost use Rattle.sm_manager.specs.declared.fault.ManagerFault.{ManagerFault as Refusal};
ghost use Rattle.sm_manager.specs.Fault.{is_memory};
ghost use Rattle.sm_manager.specs.Packets.{unless_spent};
ghost use Rattle.sm_manager.specs.PlanFaults.{or_else, unless_numbers, writing_fault};
ghost use Rattle.sm_manager.specs.ManagerRequests.{is_step};
ghost use Rattle.sm_manager.specs.Writing.{count_after, without_empty_phases, phases_by, after_step};
ghost use Rattle.sm_manager.specs.Writing.{write_fault, after_write_steps};

use crate::fault::ManagerFault;
use crate::manager::Manager;
use crate::manager_requests::{make_room, reserve};
use crate::writing::Writing;
use plan_steps::{most_steps, phases, planned_tree};
use sm_state::SmState;
use sweep::Sweep;

impl Manager {
    /// Begins to write the plan of the manager's facts, along the paths of the last sweep. The plan is written in
    /// phases: the LIDs of end ports, the forwarding blocks of usable switches, their tops, and then the states of
    /// ports on wires. If the manager writes the multicast tree, masks are cleared before the blocks, and set after the
    /// tops. Each phase is queued as a whole, and the next one once each of its steps was answered or timed
    /// out.
    ///
    /// # Errors
    ///
    /// Returns the first of these that applies: `NotMaster` if the manager is not master or has begun no sweep;
    /// `SweepRunning` if the last sweep is not done; `WritingRunning` if a step of a writing is outstanding;
    /// `NoRoom`; `SequenceSpent` if fewer numbers are left than a phase could need; `Memory`.
    pub fn write_steps(&mut self) -> Result<(), ManagerFault>
        ensures judged { JudgesButFor is_memory result (writing_fault self.old) }
        ensures ok { OnOk result (self.new ≡ after_write_steps self.old) }
        ensures err { OnErr result (self.new ≡ self.old) }
    {
        let mut writing = self.planned()?;
        let count = writing.next_count();
        reserve(count, count, &mut self.requests, &mut self.outgoing)?;
        writing.send_next(&mut self.requests, &mut self.outgoing);
        self.writing = Some(writing);
        Ok(())
    }

    /// Returns a writing of the plan of the manager's facts, none of its steps sent yet, or the fault of `write_steps`.
    fn planned(&self) -> Result<Writing, ManagerFault>
        ensures judged { JudgesButFor is_memory result (writing_fault self.now) }
        ensures writing { IfOk result (λ w. w
            ≡ record { later = without_empty_phases (phases_by self.now self.now.sweep); has_failed = false }) }
    {
        let sweep = self.last_sweep()?;
        let are_numbers = self.requests.has_numbers(most_steps(&self.store));
        let plan = where_numbered(self.plan(), are_numbers)?;
        let tree = planned_tree(self.alloc, &self.store, &self.planning)?;
        let phases = phases(
            self.alloc,
            &plan,
            &tree,
            &self.store,
            sweep,
            self.standing.guid,
            self.port,
        )?;
        Ok(Writing::new(phases))
    }

    /// Returns the last sweep. Fails with `NotMaster` if the manager is not master or has begun no sweep, else
    /// `SweepRunning` if the last sweep is not done, else `WritingRunning` if a step of a writing is outstanding.
    fn last_sweep(&self) -> Result<&Sweep, ManagerFault>
        ensures judged { Judges result (write_fault self.now) }
        ensures sweep { IfOk result (λ s. self.now.sweep ≡ Some s.now) }
    {
        let Some(sweep) = &self.sweep else {
            return Err(ManagerFault::NotMaster);
        };
        if !self.standing.is_in(SmState::Master) {
            return Err(ManagerFault::NotMaster);
        }
        if !sweep.is_done() {
            return Err(ManagerFault::SweepRunning);
        }
        if !self.requests.has_no_step() {
            return Err(ManagerFault::WritingRunning);
        }
        Ok(sweep)
    }

    /// Ends the step at `index`, which was done if `was_done`, and queues the next phase if no other is outstanding.
    pub(crate) fn end_step(&mut self, index: usize, was_done: bool) -> Result<(), ManagerFault>
        requires within { index < length self.old.pending }
        requires step { (p : Pending) → slice_get self.old.pending index ≡ Some p
            → is_step p ≡ true }
        ensures judged { (p : Pending) → slice_get self.old.pending index ≡ Some p
            → JudgesButFor is_memory result
            (unless_spent self.old (after_step self.old p was_done)).fault }
        ensures ok { (p : Pending) → slice_get self.old.pending index ≡ Some p
            → OnOk result (self.new ≡ (unless_spent self.old (after_step self.old p was_done)).manager) }
        ensures err { OnErr result (self.new ≡ self.old) }
    {
        let count = self.count_after();
        make_room(count, count, &mut self.requests, &mut self.outgoing)?;
        let ended = self.requests.end(index);
        if let Some(writing) = &mut self.writing {
            writing.note(ended.counts(), was_done);
            if self.requests.has_no_step() {
                writing.send_next(&mut self.requests, &mut self.outgoing);
            }
        }
        Ok(())
    }

    /// Returns how many steps are sent when an outstanding step ends: those of the next phase if it is the last one.
    fn count_after(&self) -> usize
        ensures { result ≡ count_after self.now }
    {
        if self.requests.step_count() > 1 {
            return 0;
        }
        match &self.writing {
            Some(writing) => writing.next_count(),
            None => 0,
        }
    }
}

/// Returns `found` if `are_numbers`, and otherwise the fault of `found` other than `Memory`, or else `SequenceSpent`.
pub(crate) fn where_numbered<T: Drop>(
    found: Result<T, ManagerFault>,
    are_numbers: bool,
) -> Result<T, ManagerFault>
    ensures judged { (why : Option Refusal) → JudgesButFor is_memory found why
        → JudgesButFor is_memory result (or_else why (unless_numbers are_numbers)) }
    ensures found { IfOk result (λ it. found ≡ Ok it) }
    ensures numbers { OnOk result (are_numbers ≡ true) }
{
    if are_numbers {
        return found;
    }
    match found {
        Ok(_) => Err(ManagerFault::SequenceSpent),
        Err(ManagerFault::Memory) => Err(ManagerFault::SequenceSpent),
        Err(fault) => Err(fault),
    }
}
