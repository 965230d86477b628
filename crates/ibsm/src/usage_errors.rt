//! The words of the command line, and what is printed if they are wrong.
ghost use Rattle.std.specs.Prelude.{◌≡◌, ◌↔◌, ◌⊎◌, [], IfOk, IsErr, OnErr};
ghost use Rattle.clap.specs.Values.{kind_of};
ghost use Rattle.next_run.specs.NextRun.{IsSaid};
ghost use Rattle.ibsm.specs.Ending.{IsFaultOfWords, IsShownOrNot, fault_line};
ghost use Rattle.ibsm.specs.GoneWords.{successors_text};

use crate::gone_words::write_successors;
use crate::perform::say;
use byte_io::{Sink, ToWrite};
use clap::Error;
use clap::error::ErrorKind;
use sm_cli::{ExitStatus, Fault};
use std::alloc::AllocError;
use std::io::Write;
use std::rt::Env;
use std::{env, io};

/// Returns the words of the command line. If a word is not UTF-8, prints that to standard error and returns `None`.
/// Returns an error if memory was refused.
pub(crate) fn words<R: Env + Eprint + AllocGlobal>(
    rt: &R,
) -> Result<Option<Vec<String>>, AllocError> {
    match env::args(rt) {
        Ok(words) => Ok(Some(words.collect(rt.alloc())?)),
        Err(error) if error.kind() == io::ErrorKind::OutOfMemory => Err(AllocError),
        Err(_) => {
            let _ = rt.eprintln("error: an argument is not UTF-8");
            Ok(None)
        }
    }
}

/// Prints help or the version to standard output, or the fault of the command line to standard error. After the fault,
/// writes to `errors` what to use instead of each of `words` that the program took in an earlier release. If help or
/// the version cannot be printed, writes that to `errors`. Returns an error exactly if `error` is a lack of memory.
pub(crate) fn explain<R: Print + Eprint, E: Write>(
    rt: &R,
    words: &[String],
    error: &Error,
    errors: &mut ToWrite<E>,
) -> Result<ExitStatus, AllocError>
    ensures memory { IsErr result ↔ (kind_of error.now ≡ ErrorKind.OutOfMemory) }
    ensures usage { IfOk result (λ status. (status ≡ ExitStatus.Usage) ↔ IsFaultOfWords (kind_of error.now)) }
    ensures shown { IfOk result (λ status. IsFaultOfWords (kind_of error.now) ⊎ IsShownOrNot status) }
    ensures successors { IfOk result (λ status. status ≡ ExitStatus.Usage
        → IsSaid ⟦<ToWrite<E> as Sink>⟧.written ⟦<ToWrite<E> as Sink>⟧.has_failed errors.old errors.new
        (successors_text words.now)) }
    ensures fault { IfOk result (λ status. status ≡ ExitStatus.InputOutput
        → IsSaid ⟦<ToWrite<E> as Sink>⟧.written ⟦<ToWrite<E> as Sink>⟧.has_failed errors.old errors.new
        (fault_line [] Fault.Write)) }
    ensures silent { IfOk result (λ status. status ≡ ExitStatus.Done → errors.new ≡ errors.old) }
    ensures nothing_said { OnErr result (errors.new ≡ errors.old) }
{
    if error.kind() == ErrorKind::OutOfMemory {
        return Err(AllocError);
    }
    let printed = error.print(rt);
    if error.use_stderr() {
        tell_successors(words, errors);
        return Ok(ExitStatus::Usage);
    }
    if printed.is_err() {
        return Ok(say(errors, &[], &Fault::Write));
    }
    Ok(ExitStatus::Done)
}

/// Writes to `errors` what to use instead of each of `words` that an earlier release took. Ignores a failed write.
fn tell_successors<E: Write>(words: &[String], errors: &mut ToWrite<E>)
    ensures { IsSaid ⟦<ToWrite<E> as Sink>⟧.written ⟦<ToWrite<E> as Sink>⟧.has_failed errors.old errors.new
        (successors_text words.now) }
{
    let _ = write_successors(errors, words);
}
