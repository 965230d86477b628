//! What a master does about the plan of its facts.
ghost use Rattle.std.specs.Prelude.{◌≡◌, IfOk, OnOk, Option};
ghost use Rattle.lft_blocks.specs.Plan.{PlanValue};
ghost use Rattle.sm_manager.specs.PlanFaults.{writing_fault};
ghost use Rattle.acting_manager.specs.Acting.{value_of};
ghost use Rattle.acting_manager.specs.Acts.{about_plan, judging_of, judging_on, noted_unplanned, settling, writing_on};
ghost use Rattle.acting_manager.specs.Planned.{planned};

use crate::acting_manager::ActingManager;
use crate::asks;
use crate::note::Note;
use crate::plans::comparison_of;
use lft_blocks::Plan;
use sm_manager::{Manager, ManagerFault};
use sm_policy::{Act, WriteCause};
use std::alloc::AllocError;

impl ActingManager {
    /// Judges the plan of the manager's facts, and does what the policy decides about it.
    pub(crate) fn judge(&mut self) -> Result<(), AllocError>
        ensures { OnOk result (value_of self.new ≡ judging_on (value_of self.old)) }
    {
        let plan = planned(&self.manager)?;
        self.judge_plan(plan)
    }

    /// Judges `plan`, the plan of the manager's facts if there is one, and does what the policy decides about it.
    fn judge_plan(&mut self, plan: Option<Plan>) -> Result<(), AllocError>
        ensures { OnOk result (value_of self.new ≡ judging_of plan (value_of self.old)) }
    {
        self.note_unplanned(&plan)?;
        let comparison = comparison_of(&self.kept, &plan);
        let cause = self.policy.cause(comparison, self.reads.ports);
        let act = self.policy.judge(self.time, comparison, self.reads.ports);
        self.do_about(act, cause, plan)
    }

    /// Notes that there is no plan, if `plan` is `None`.
    fn note_unplanned(&mut self, plan: &Option<Plan>) -> Result<(), AllocError>
        ensures { OnOk result (value_of self.new ≡ noted_unplanned plan.now (value_of self.old)) }
    {
        match plan {
            None => self.note(Note::Refused(Act::Judge)),
            Some(_) => Ok(()),
        }
    }

    /// Does `act` about `plan`: writes it for `cause`, notes that it stands, or does nothing.
    fn do_about(
        &mut self,
        act: Act,
        cause: WriteCause,
        plan: Option<Plan>,
    ) -> Result<(), AllocError>
        ensures { OnOk result (value_of self.new ≡ about_plan act cause plan (value_of self.old)) }
    {
        match (act, plan) {
            (Act::Write, Some(plan)) => self.write(cause, plan),
            (Act::Settle, _) => self.settle(),
            (_, _) => Ok(()),
        }
    }

    /// Begins to write `plan`, the plan of the manager's facts, for `cause`, and keeps it if that is not refused.
    fn write(&mut self, cause: WriteCause, plan: Plan) -> Result<(), AllocError>
        ensures { OnOk result (value_of self.new ≡ writing_on cause plan (value_of self.old)) }
    {
        let has_begun = asks::write_steps(&mut self.manager)?;
        self.policy.write(self.time, has_begun);
        if has_begun {
            self.kept = Some(plan);
        }
        self.is_void = false;
        self.note(if has_begun {
            Note::Writes(cause)
        } else {
            Note::Refused(Act::Write)
        })
    }

    /// Notes that nothing is left to write. Then hands over to a manager that wins over this one, if there is one.
    fn settle(&mut self) -> Result<(), AllocError>
        ensures { OnOk result (value_of self.new ≡ settling (value_of self.old)) }
    {
        self.note(Note::Settled(self.reads.ports))?;
        self.hand_over()
    }
}

/// Returns the plan of the facts of `manager`, or `None` if some end port finds no LID.
fn planned(manager: &Manager) -> Result<Option<Plan>, AllocError>
    ensures { IfOk result (λ plan. plan ≡ planned manager.now) }
{
    match manager.plan() {
        Ok(plan) => Ok(Some(plan)),
        Err(ManagerFault::Memory) => Err(AllocError),
        Err(_) => Ok(None),
    }
}
