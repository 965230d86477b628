//! A run of the program.
ghost use Rattle.std.specs.Prelude.{◌≡◌, ◌≢◌, ◌⊎◌, Bool, IfOk, IsTrue};
ghost use Rattle.std.specs.Io.KnownBytes.{Appends};
ghost use Rattle.cli_arguments.specs.WellFormed.{IsWellFormed};
ghost use Rattle.next_run.specs.NextRun.{IsSaid};
ghost use Rattle.byte_io.specs.Prints.{PrintsSome};
ghost use Rattle.ibsm.specs.Ending.{IsDone, PerformsWords, SaysWhyOfWords, status_after};

use crate::opener::Opener;
use crate::perform::{perform_or_explain, say};
use crate::usage_errors::{explain, words};
use byte_io::{Sink, ToWrite};
use clap::ArgMatches;
use cli_arguments::matches_of;
use cli_task::{names_of, task_of};
use sm_cli::{ExitStatus, Fault};
use std::alloc::AllocError;
use std::io::{BufWriter, Write};
use std::rt::Env;

/// Performs what the command line asks for. If that cannot be done, writes the reason to `errors`, or prints it to
/// standard error if the command line itself is wrong.
pub(crate) fn run<R, O, E>(rt: &R, output: O, errors: E) -> ExitStatus
where
    R: Env + Opener + Print + Eprint + AllocGlobal,
    O: Write + Drop,
    E: Write + Drop,
{
    let mut errors = ToWrite::new(errors);
    match try_run(rt, output, &mut errors) {
        Ok(status) => status,
        Err(AllocError) => say(&mut errors, &[], &Fault::Memory),
    }
}

/// Performs what the command line asks for. Returns an error if memory was refused before the task began.
fn try_run<R, O, E>(rt: &R, output: O, errors: &mut ToWrite<E>) -> Result<ExitStatus, AllocError>
where
    R: Env + Opener + Print + Eprint + AllocGlobal,
    O: Write + Drop,
    E: Write + Drop,
{
    let Some(words) = words(rt)? else {
        return Ok(ExitStatus::Usage);
    };
    let writer = BufWriter::new(rt.alloc(), output).map_err(|_| AllocError)?;
    match matches_of(rt.alloc(), words.as_slice())? {
        Ok(matches) => dispatch(rt, &matches, &mut ToWrite::new(writer), errors),
        Err(error) => explain(rt, &words, &error, errors),
    }
}

/// Performs what the words `matches` ask for. If the task cannot be done, writes the reason to `errors`. Returns an
/// error if memory was refused before the task began.
fn dispatch<R, O, E>(
    rt: &R,
    matches: &ArgMatches<'_>,
    output: &mut ToWrite<O>,
    errors: &mut ToWrite<E>,
) -> Result<ExitStatus, AllocError>
where
    R: Opener + AllocGlobal,
    O: Write,
    E: Write,
    requires { IsWellFormed matches.now }
    ensures done { IfOk result (λ status. (passed : Bool) → status ≡ status_after passed
        → PerformsWords (R.answers rt.now) R.Opened.state matches.now
        (Appends (⟦<ToWrite<O> as Sink>⟧.written output.old) (⟦<ToWrite<O> as Sink>⟧.written output.new))
        (IsSaid ⟦<ToWrite<E> as Sink>⟧.written ⟦<ToWrite<E> as Sink>⟧.has_failed errors.old errors.new) passed) }
    ensures flushed { IfOk result (λ status. IsDone status → IsTrue (⟦<ToWrite<O> as Sink>⟧.is_flushed output.new)) }
    ensures says_why { IfOk result (λ status. IsDone status
        ⊎ SaysWhyOfWords (R.answers rt.now) R.Opened.state matches.now
        (PrintsSome ⟦<ToWrite<O> as Sink>⟧.written ⟦<ToWrite<O> as Sink>⟧.has_failed output.old output.new)
        (Appends (⟦<ToWrite<O> as Sink>⟧.written output.old) (⟦<ToWrite<O> as Sink>⟧.written output.new))
        (⟦<ToWrite<O> as Sink>⟧.has_failed output.new) (output.new ≡ output.old) status
        (IsSaid ⟦<ToWrite<E> as Sink>⟧.written ⟦<ToWrite<E> as Sink>⟧.has_failed errors.old errors.new)) }
    ensures no_usage { IfOk result (λ status. status ≢ ExitStatus.Usage) }
{
    let task = task_of(matches).unwrap();
    let names = names_of(rt.alloc(), matches, &task)?.unwrap();
    Ok(perform_or_explain(rt, task, &names, output, errors))
}
