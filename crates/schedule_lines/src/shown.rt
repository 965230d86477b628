//! What is shown about managers.
ghost use Rattle.fact_store.specs.View.{cells_of};
ghost use Rattle.schedule_lines.specs.ManagerAsks.{plan_or_refusal, text_of};
ghost use Rattle.schedule_lines.specs.Lines.{name_of, trap_text};
ghost use Rattle.schedule_lines.specs.Prints.{PrintsUnless};
ghost use Rattle.sm_manager.specs.PlanFaults.{plan_fault};

use crate::manager_lines::{write_progress, write_silent, write_state, write_trap, write_written};
use crate::refusals::refuse_manager;
use crate::run_fault::RunFault;
use byte_io::Sink;
use lft_blocks::write_plan;
use record_file::write_facts;
use schedule_file::Shown;
use sm_manager::{Manager, Trap};

/// Prints what `what` asks about `manager`. The lines other than those of facts and plans have the manager's name
/// `name`, unless it is `None`.
#[tactic(auto, using(byte_io::proofs::Writing::wrote))]
pub fn show_manager<W: Sink>(
    sink: &mut W,
    name: Option<&str>,
    manager: &Manager,
    what: Shown,
) -> Result<(), RunFault>
    ensures prints { PrintsUnless W.written W.has_failed result sink.old sink.new
        (text_of what (name_of name.entry) manager.now) }
{
    match what {
        Shown::Facts => write_facts(sink, manager.store())?,
        Shown::Plan => return show_plan(sink, manager),
        Shown::Progress => write_progress(sink, name, manager.progress())?,
        Shown::Silent => write_silent(sink, name, manager.silent_managers())?,
        Shown::Written => write_written(sink, name, manager.written())?,
        Shown::State => write_state(sink, name, manager.state())?,
    }
    Ok(())
}

/// Prints `trap`, which a manager repressed, with the manager's name unless `name` is `None`. Prints nothing if `trap`
/// is `None`.
#[tactic(auto, using(byte_io::proofs::Writing::wrote))]
pub fn show_trap<W: Sink>(
    sink: &mut W,
    name: Option<&str>,
    trap: Option<Trap>,
) -> Result<(), RunFault>
    ensures prints { PrintsUnless W.written W.has_failed result sink.old sink.new
        (trap_text (name_of name.entry) trap) }
{
    if let Some(trap) = trap {
        write_trap(sink, name, trap.issuer)?;
    }
    Ok(())
}

/// Prints the plan of `manager`, or its refusal if some end port finds no LID. Returns `Memory` if memory runs out.
#[tactic(auto, using(byte_io::proofs::Writing::wrote))]
fn show_plan<W: Sink>(sink: &mut W, manager: &Manager) -> Result<(), RunFault>
    ensures prints { PrintsUnless W.written W.has_failed result sink.old sink.new
        (plan_or_refusal manager.now.planning (cells_of manager.now.store)
        (plan_fault manager.now.planning.lmc (cells_of manager.now.store))) }
{
    match manager.plan() {
        Ok(plan) => {
            write_plan(sink, &plan)?;
            Ok(())
        }
        Err(fault) => refuse_manager(sink, fault),
    }
}
