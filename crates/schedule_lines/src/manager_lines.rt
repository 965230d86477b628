//! The lines about one manager.
ghost use Rattle.std.specs.Prelude.{◌≡◌};
ghost use Rattle.byte_io.specs.Writes.{Writes};
ghost use Rattle.schedule_lines.specs.Lines.{counts_text, progress_line, stage_text, state_line, answer_word, end_word};
ghost use Rattle.schedule_lines.specs.Lines.{head_text, name_of, silent_line, silent_text, trap_line, written_line};

use crate::line_parts::{write_between, write_count};
use byte_io::{Sink, WriteFault};
use sm_manager::Progress;
use sm_state::SmState;
use smp_bytes::Lid;

/// Prints the progress of a manager's last sweep, with the manager's name unless `manager` is `None`.
pub fn write_progress<W: Sink>(
    sink: &mut W,
    manager: Option<&str>,
    progress: Progress,
) -> Result<(), WriteFault>
    ensures writes { Writes W.written W.has_failed result sink.old sink.new
        (progress_line (name_of manager.entry) progress) }
{
    write_head(sink, b"progress", manager)?;
    write_stage(sink, progress)?;
    sink.write(b"\n")
}

/// Prints `word`, and then a space and the manager's name unless `manager` is `None`.
fn write_head<W: Sink>(sink: &mut W, word: &[u8], manager: Option<&str>) -> Result<(), WriteFault>
    ensures writes { Writes W.written W.has_failed result sink.old sink.new
        (head_text word.now (name_of manager.entry)) }
{
    match manager {
        None => sink.write(word),
        Some(name) => write_between(sink, word, b" ", name.as_bytes()),
    }
}

fn write_stage<W: Sink>(sink: &mut W, progress: Progress) -> Result<(), WriteFault>
    ensures writes { Writes W.written W.has_failed result sink.old sink.new (stage_text progress) }
{
    match progress {
        Progress::Never => sink.write(b" never"),
        Progress::Running {
            unanswered,
            too_far,
        } => {
            sink.write(b" running")?;
            write_counts(sink, unanswered, too_far)
        }
        Progress::Done {
            unanswered,
            too_far,
        } => {
            sink.write(b" done")?;
            write_counts(sink, unanswered, too_far)
        }
    }
}

/// Prints how many managers did not answer a manager's last sweep, which is `silent`. If `silent` is `None`, prints
/// that there was no sweep. The line has the manager's name unless `manager` is `None`.
pub fn write_silent<W: Sink>(
    sink: &mut W,
    manager: Option<&str>,
    silent: Option<u64>,
) -> Result<(), WriteFault>
    ensures writes { Writes W.written W.has_failed result sink.old sink.new
        (silent_line (name_of manager.entry) silent) }
{
    write_head(sink, b"silent", manager)?;
    write_how_many(sink, silent)?;
    sink.write(b"\n")
}

fn write_how_many<W: Sink>(sink: &mut W, silent: Option<u64>) -> Result<(), WriteFault>
    ensures writes { Writes W.written W.has_failed result sink.old sink.new (silent_text silent) }
{
    match silent {
        None => sink.write(b" never"),
        Some(silent) => write_count(sink, b" ", silent),
    }
}

/// Prints whether a manager's plan is written, with the manager's name unless `manager` is `None`.
pub fn write_written<W: Sink>(
    sink: &mut W,
    manager: Option<&str>,
    written: bool,
) -> Result<(), WriteFault>
    ensures writes { Writes W.written W.has_failed result sink.old sink.new
        (written_line (name_of manager.entry) written) }
{
    write_head(sink, b"written", manager)?;
    write_end_word(sink, answer_word(written))
}

/// Prints a space, `word` and a line feed.
fn write_end_word<W: Sink>(sink: &mut W, word: &str) -> Result<(), WriteFault>
    ensures writes { Writes W.written W.has_failed result sink.old sink.new (end_word word.now) }
{
    write_between(sink, b" ", word.as_bytes(), b"\n")
}

fn answer_word(answer: bool) -> &'static str
    ensures { result.now ≡ answer_word answer }
{
    if answer { "yes" } else { "no" }
}

/// Prints a manager's state, with the manager's name unless `manager` is `None`.
pub fn write_state<W: Sink>(
    sink: &mut W,
    manager: Option<&str>,
    state: SmState,
) -> Result<(), WriteFault>
    ensures writes { Writes W.written W.has_failed result sink.old sink.new
        (state_line (name_of manager.entry) state) }
{
    write_head(sink, b"state", manager)?;
    write_end_word(sink, state.word())
}

/// Prints the line of a trap from the port with the LID `issuer` that a manager repressed, with `manager` if given.
pub(crate) fn write_trap<W: Sink>(
    sink: &mut W,
    manager: Option<&str>,
    issuer: Lid,
) -> Result<(), WriteFault>
    ensures writes { Writes W.written W.has_failed result sink.old sink.new
        (trap_line (name_of manager.entry) issuer) }
{
    write_head(sink, b"trap", manager)?;
    write_count(sink, b" ", u64::from(issuer.number()))?;
    sink.write(b"\n")
}

/// Prints ` unanswered ` and the number of requests that were not answered, and then ` toofar ` and the number of
/// ports through which the sweep did not go on because the path would have been too long.
#[tactic(auto, unfolding(crate::specs::Lines::counts_text))]
fn write_counts<W: Sink>(sink: &mut W, unanswered: u64, too_far: u64) -> Result<(), WriteFault>
    ensures writes { Writes W.written W.has_failed result sink.old sink.new
        (counts_text unanswered too_far) }
{
    write_count(sink, b" unanswered ", unanswered)?;
    write_count(sink, b" toofar ", too_far)
}
