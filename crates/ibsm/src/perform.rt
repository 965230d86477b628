//! A task on files that are given by their names.
ghost use Rattle.std.specs.Prelude.{◌≡◌, ◌⊎◌, Bool, length, IfOk, IfErr, OnOk, OnErr, IsTrue, true};
ghost use Rattle.std.specs.Io.KnownBytes.{Appends};
ghost use Rattle.sm_cli.specs.ExitStatus.{status_of};
ghost use Rattle.byte_io.specs.Prints.{PrintsSome};
ghost use Rattle.next_run.specs.NextRun.{IsSaid};
ghost use Rattle.ibsm.specs.Ending.{Does, HasEnoughNames, IsDone, IsFaultOver, IsTaskFault, KeepsOutput};
ghost use Rattle.ibsm.specs.Ending.{Performs, SaysWhy, StaysSilent};
ghost use Rattle.ibsm.specs.Ending.{fault_line, name_of, status_after};
ghost use Rattle.ibsm.specs.Opening.{AreOpened, IsOpenFault};

use crate::opener::{OpenFault, Opener};
use audit_run::run_audit;
use byte_io::{Sink, Source, ToWrite};
use cli_task::Task;
use next_run::{run_next, run_order_of_tables};
use schedule_run::run_schedule;
use serve_task::{Seating, run_serve};
use sm_cli::{ExitStatus, Fault, run_files, write_fault};
use std::alloc::Global;
use std::io::Write;

/// Performs `task` on the files `names`, its inputs in the order in which they are read. All files are opened before
/// the first one is read. If the task cannot be done, writes the reason to `errors`.
pub(crate) fn perform_or_explain<R, O, E>(
    rt: &R,
    task: Task,
    names: &[&str],
    output: &mut ToWrite<O>,
    errors: &mut ToWrite<E>,
) -> ExitStatus
where
    R: Opener + AllocGlobal,
    O: Write,
    E: Write,
    requires { HasEnoughNames task (length names.now) }
    ensures done { (passed : Bool) → result ≡ status_after passed
        → Performs (R.answers rt.now) R.Opened.state task names.now
        (Appends (⟦<ToWrite<O> as Sink>⟧.written output.old) (⟦<ToWrite<O> as Sink>⟧.written output.new))
        (IsSaid ⟦<ToWrite<E> as Sink>⟧.written ⟦<ToWrite<E> as Sink>⟧.has_failed errors.old errors.new) passed }
    ensures flushed { IsDone result → IsTrue (⟦<ToWrite<O> as Sink>⟧.is_flushed output.new) }
    ensures silent { IsDone result → StaysSilent task errors.old errors.new }
    ensures says_why { IsDone result ⊎ SaysWhy task names.now
        (IsTaskFault (R.answers rt.now) R.Opened.state task names.now
        (PrintsSome ⟦<ToWrite<O> as Sink>⟧.written ⟦<ToWrite<O> as Sink>⟧.has_failed output.old output.new)
        (Appends (⟦<ToWrite<O> as Sink>⟧.written output.old) (⟦<ToWrite<O> as Sink>⟧.written output.new))
        (⟦<ToWrite<O> as Sink>⟧.has_failed output.new))
        (output.new ≡ output.old) result
        (IsSaid ⟦<ToWrite<E> as Sink>⟧.written ⟦<ToWrite<E> as Sink>⟧.has_failed errors.old errors.new) }
{
    match perform(rt, task, names, output, errors) {
        Ok(passed) => status_after(passed),
        Err(fault) => say(errors, names, &fault),
    }
}

/// Returns the exit status of a task that is done: `Done` if `passed` is true, otherwise `Failed`.
fn status_after(passed: bool) -> ExitStatus
    ensures { result ≡ status_after passed }
{
    if passed {
        ExitStatus::Done
    } else {
        ExitStatus::Failed
    }
}

/// Opens the files `names` and performs `task` on these files. Returns whether what `task` judges, if anything, passes.
fn perform<R, O, E>(
    rt: &R,
    task: Task,
    names: &[&str],
    output: &mut ToWrite<O>,
    errors: &mut ToWrite<E>,
) -> Result<bool, Fault>
where
    R: Opener + AllocGlobal,
    O: Write,
    E: Write,
    requires { HasEnoughNames task (length names.now) }
    ensures done { IfOk result (λ passed. Performs (R.answers rt.now) R.Opened.state task names.now
        (Appends (⟦<ToWrite<O> as Sink>⟧.written output.old) (⟦<ToWrite<O> as Sink>⟧.written output.new))
        (IsSaid ⟦<ToWrite<E> as Sink>⟧.written ⟦<ToWrite<E> as Sink>⟧.has_failed errors.old errors.new) passed) }
    ensures flushed { OnOk result (IsTrue (⟦<ToWrite<O> as Sink>⟧.is_flushed output.new)) }
    ensures refused { IfErr result
        (IsTaskFault (R.answers rt.now) R.Opened.state
        task names.now
        (PrintsSome ⟦<ToWrite<O> as Sink>⟧.written ⟦<ToWrite<O> as Sink>⟧.has_failed output.old output.new)
        (Appends (⟦<ToWrite<O> as Sink>⟧.written output.old) (⟦<ToWrite<O> as Sink>⟧.written output.new))
        (⟦<ToWrite<O> as Sink>⟧.has_failed output.new)) }
    ensures kept { IfErr result (KeepsOutput task (output.new ≡ output.old)) }
    ensures silent { OnOk result (StaysSilent task errors.old errors.new) }
    ensures nothing_said { OnErr result (errors.new ≡ errors.old) }
{
    let mut inputs = open_all(rt, names)?;
    do_task(rt.alloc(), task, &mut inputs, output, errors)
}

/// Performs `task` on `inputs`, which are open. Returns whether what `task` judges, if anything, passes.
fn do_task<S: Source, W: Sink, E: Sink>(
    alloc: Global,
    task: Task,
    inputs: &mut [S],
    output: &mut W,
    errors: &mut E,
) -> Result<bool, Fault>
    requires { HasEnoughNames task (length inputs.old) }
    ensures done { IfOk result (Does S.state task inputs.old inputs.new
        (Appends (W.written output.old) (W.written output.new))
        (IsSaid E.written E.has_failed errors.old errors.new)) }
    ensures flushed { OnOk result (IsTrue (W.is_flushed output.new)) }
    ensures refused { IfErr result (IsFaultOver S.state task inputs.old inputs.new
        (PrintsSome W.written W.has_failed output.old output.new)
        (Appends (W.written output.old) (W.written output.new)) (W.has_failed output.new)) }
    ensures kept { IfErr result (KeepsOutput task (output.new ≡ output.old)) }
    ensures silent { OnOk result (StaysSilent task errors.old errors.new) }
    ensures nothing_said { OnErr result (errors.new ≡ errors.old) }
{
    match task {
        Task::Answer(request) => {
            run_files(alloc, inputs, request, output)?;
            Ok(true)
        }
        Task::OrderOfTables => run_order_of_tables(alloc, inputs, output),
        Task::Audit(asked) => run_audit(alloc, inputs, asked, output),
        Task::Next(asked) => run_next(alloc, inputs, asked, output, errors),
        Task::Run(lmc, rule) => {
            run_schedule(alloc, inputs, lmc, rule, output)?;
            Ok(true)
        }
        Task::Serve(asked) => {
            run_serve(alloc, inputs, asked, Seating::Obeying, output)?;
            Ok(true)
        }
        Task::Manage(asked) => {
            let seating = Seating::Deciding {
                timing: asked.timing,
                limits: asked.limits,
                newest: asked.newest,
            };
            run_serve(alloc, inputs, asked.serving, seating, output)?;
            Ok(true)
        }
    }
}

/// Writes the line of `fault` in a run of the files `names` to `errors`, and returns its exit status.
pub(crate) fn say<E: Write>(errors: &mut ToWrite<E>, names: &[&str], fault: &Fault) -> ExitStatus
    ensures status { result ≡ status_of fault.now }
    ensures said { IsSaid ⟦<ToWrite<E> as Sink>⟧.written ⟦<ToWrite<E> as Sink>⟧.has_failed errors.old errors.new
        (fault_line names.now fault.now) }
{
    let _ = write_fault(errors, fault, name_of(names, fault));
    fault.status()
}

/// Opens the files `names`, in this order. Fails with `Open` and the index of the first file that cannot be opened or,
/// if each can be opened but memory was refused for one, with `Memory`.
fn open_all<R>(rt: &R, names: &[&str]) -> Result<Vec<R::Opened>, Fault>
where
    R: Opener + AllocGlobal,
    ensures opened { IfOk result (λ files. AreOpened (R.answers rt.now) names.now files.items) }
    ensures refused { IfErr result (IsOpenFault (R.answers rt.now) names.now) }
{
    let mut files = Vec::new(rt.alloc());
    let mut has_memory = true;
    for (input, name) in names.iter().enumerate() {
        match rt.open_behind(name, &mut files) {
            Ok(()) => {}
            Err(OpenFault::Memory) => has_memory = false,
            Err(OpenFault::Missing) => return Err(Fault::Open { input }),
        }
    }
    if has_memory {
        Ok(files)
    } else {
        Err(Fault::Memory)
    }
}

/// Returns the name of the file that `fault` concerns, or an empty name if `fault` concerns none of `names`.
fn name_of<'a>(names: &[&'a str], fault: &Fault) -> &'a str
    ensures { result.now ≡ name_of names.now fault.now }
{
    match fault {
        Fault::Open { input } | Fault::File { input, .. } | Fault::Text { input, .. } => names
            .get(*input)
            .copied()
            .unwrap_or(""),
        Fault::NoRoom(_) | Fault::Write | Fault::Memory => "",
    }
}
