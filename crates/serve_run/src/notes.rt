//! The lines of what a manager that decides by itself notes, and of when it is to be told the time next.
ghost use Rattle.std.specs.Prelude.{◌≡◌, ◌++◌, [], OnOk};
ghost use Rattle.std.specs.List.{flat_map};
ghost use Rattle.acting_manager.specs.Acting.{value_of};
ghost use Rattle.byte_io.specs.Writes.{Writes};
ghost use Rattle.schedule_lines.specs.Lines.{answer_word, name_of};
ghost use Rattle.schedule_lines.specs.Prints.{PrintsUnless};
ghost use Rattle.serve_run.specs.Decided.{act_word, cause_text, note_front, note_line, note_text, ports_text};
ghost use Rattle.serve_run.specs.Decided.{for_ports_text, settled_text, unanswered_text, wake_line, wake_text};

use crate::outgoing::write_hex;
use acting_manager::{ActingManager, Note};
use byte_io::{Sink, WriteFault, write_number};
use schedule_lines::RunFault;
use sm_policy::{Act, Ports, WriteCause};
use smp_bytes::Smp;

/// Prints a line for each note of `acting`, the oldest one first, and takes the notes out. The lines have the manager's
/// name `name`, unless it is `None`.
pub fn note_all<W: Sink>(
    sink: &mut W,
    name: Option<&str>,
    acting: &mut ActingManager,
) -> Result<(), RunFault>
    ensures acting { OnOk result (value_of acting.new ≡ record (value_of acting.old) { notes = [] }) }
    ensures prints { PrintsUnless W.written W.has_failed result sink.old sink.new
        (flat_map (note_line (name_of name.entry)) (value_of acting.old).notes) }
{
    while let Some(note) = acting.take_note() {
        write_note(sink, name, &note)?;
    }
    Ok(())
}

/// Writes the line of `note`, with the manager's name `name` unless it is `None`.
#[tactic(auto, unfolding(crate::specs::Decided::note_line))]
fn write_note<W: Sink>(sink: &mut W, name: Option<&str>, note: &Note) -> Result<(), WriteFault>
    ensures writes { Writes W.written W.has_failed result sink.old sink.new
        (note_line (name_of name.entry) note.now) }
{
    write_front(sink, name)?;
    write_noted(sink, note)?;
    sink.write(b"\n")
}

/// Writes the beginning of the line of a note, with the manager's name `name` unless it is `None`.
fn write_front<W: Sink>(sink: &mut W, name: Option<&str>) -> Result<(), WriteFault>
    ensures writes { Writes W.written W.has_failed result sink.old sink.new (note_front (name_of name.entry)) }
{
    match name {
        None => sink.write(b"note "),
        Some(name) => {
            sink.write(b"note ")?;
            sink.write(name.as_bytes())?;
            sink.write(b" ")
        }
    }
}

/// Writes what `note` says.
fn write_noted<W: Sink>(sink: &mut W, note: &Note) -> Result<(), WriteFault>
    ensures writes { Writes W.written W.has_failed result sink.old sink.new (note_text note.now) }
{
    match note {
        Note::State(state) => {
            sink.write(b"state ")?;
            sink.write(state.word().as_bytes())
        }
        Note::Paused => sink.write(b"paused"),
        Note::GivenUp(request) => write_unanswered(sink, request),
        Note::Swept(whole) => write_answer(sink, b"swept ", *whole),
        Note::Wrote(whole) => write_answer(sink, b"written ", *whole),
        Note::Settled(ports) => write_settled(sink, *ports),
        Note::Writes(cause) => write_cause(sink, *cause),
        Note::Did(act) => sink.write(act_word(*act).as_bytes()),
        Note::Refused(act) => {
            sink.write(b"refused ")?;
            sink.write(act_word(*act).as_bytes())
        }
    }
}

/// Writes that `request` has no answer, or one that is refused.
fn write_unanswered<W: Sink>(sink: &mut W, request: &Smp) -> Result<(), WriteFault>
    ensures writes { Writes W.written W.has_failed result sink.old sink.new (unanswered_text request.now) }
{
    sink.write(b"unanswered ")?;
    write_hex(sink, request.bytes())
}

/// Writes that a writing began for `cause`.
fn write_cause<W: Sink>(sink: &mut W, cause: WriteCause) -> Result<(), WriteFault>
    ensures writes { Writes W.written W.has_failed result sink.old sink.new (cause_text cause) }
{
    match cause {
        WriteCause::New => sink.write(b"write new"),
        WriteCause::Again => sink.write(b"write again"),
        WriteCause::For(ports) => write_for_ports(sink, ports),
    }
}

/// Writes that a writing began for `ports`.
fn write_for_ports<W: Sink>(sink: &mut W, ports: Ports) -> Result<(), WriteFault>
    ensures writes { Writes W.written W.has_failed result sink.old sink.new (for_ports_text ports) }
{
    sink.write(b"write ")?;
    write_ports(sink, ports)
}

/// Writes that nothing is left to write, and the numbers of `ports` that still need something.
fn write_settled<W: Sink>(sink: &mut W, ports: Ports) -> Result<(), WriteFault>
    ensures writes { Writes W.written W.has_failed result sink.old sink.new (settled_text ports) }
{
    sink.write(b"settled ")?;
    write_ports(sink, ports)
}

/// Writes the numbers of `ports`.
fn write_ports<W: Sink>(sink: &mut W, ports: Ports) -> Result<(), WriteFault>
    ensures writes { Writes W.written W.has_failed result sink.old sink.new (ports_text ports) }
{
    sink.write(b"inactive ")?;
    write_number(sink, u64::from(ports.inactive))?;
    sink.write(b" foreign ")?;
    write_number(sink, u64::from(ports.foreign))
}

/// Writes `front`, and then `yes` if `answer` is true, otherwise `no`.
fn write_answer<W: Sink>(sink: &mut W, front: &[u8], answer: bool) -> Result<(), WriteFault>
    ensures writes { Writes W.written W.has_failed result sink.old sink.new
        (front.now ++ answer_word answer) }
{
    sink.write(front)?;
    if answer {
        sink.write(b"yes")
    } else {
        sink.write(b"no")
    }
}

/// Returns the word for `act`, which a manager does.
fn act_word(act: Act) -> &'static str
    ensures { result.now ≡ act_word act }
{
    match act {
        Act::Wait => "wait",
        Act::Poll => "poll",
        Act::Announce => "announce",
        Act::Sweep => "sweep",
        Act::Rediscover => "rediscover",
        Act::HandOver => "handover",
        Act::Yield => "yield",
        Act::Judge => "judge",
        Act::Write => "write",
        Act::Settle => "settle",
    }
}

/// Writes the line that says when a manager is to be told the time next: at `wake`, or never if `wake` is `None`.
#[tactic(auto, unfolding(crate::specs::Decided::wake_line))]
pub(crate) fn write_wake<W: Sink>(sink: &mut W, wake: Option<u64>) -> Result<(), WriteFault>
    ensures writes { Writes W.written W.has_failed result sink.old sink.new (wake_line wake) }
{
    sink.write(b"wake ")?;
    write_time(sink, wake)?;
    sink.write(b"\n")
}

/// Writes the time `wake` in decimal, or `never` if `wake` is `None`.
fn write_time<W: Sink>(sink: &mut W, wake: Option<u64>) -> Result<(), WriteFault>
    ensures writes { Writes W.written W.has_failed result sink.old sink.new (wake_text wake) }
{
    match wake {
        None => sink.write(b"never"),
        Some(time) => write_number(sink, time),
    }
}
