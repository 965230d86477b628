//! Handling of one line that is told to a manager that decides by itself. The line is answered, what the manager has to
//! give out is written, and the answer ends.
ghost use Rattle.std.specs.Prelude.{◌≡◌, ◌++◌, [], OnOk, IsTrue};
ghost use Rattle.std.specs.List.{flat_map};
ghost use Rattle.acting_manager.specs.Acting.{value_of};
ghost use Rattle.acting_manager.specs.Working.{given_away};
ghost use Rattle.schedule_lines.specs.Prints.{PrintsUnless};
ghost use Rattle.serve_run.specs.Decided.{after_manage, after_word, decided, given_out, wake_line};
ghost use Rattle.serve_run.specs.Lives.{Lives};
ghost use Rattle.serve_run.specs.Served.{send_line};

use crate::light::{show_light, write_answered};
use crate::managers::show_managers;
use crate::notes::{note_all, write_wake};
use crate::outgoing::{write_outgoing, write_sa};
use crate::served::{end_answer, print};
use acting_manager::ActingManager;
use byte_io::Sink;
use schedule_lines::{RunFault, show_manager};
use serve_lines::{ManageLine, ManageWord};

/// Handles `line`: writes its answer, all notes and packets that are ready, and when to tell the time next. Flushes.
pub(crate) fn decide_line<W: Sink>(
    acting: &mut ActingManager,
    line: ManageLine,
    sink: &mut W,
) -> Result<(), RunFault>
    ensures decides { Lives W.written W.has_failed (value_of acting.new) result sink.old sink.new
        (decided (value_of acting.old) line) }
    ensures flushed { OnOk result (IsTrue (W.is_flushed sink.new)) }
{
    do_line(acting, line, sink)?;
    give_out(acting, sink)?;
    write_wake(sink, acting.wake())?;
    end_answer(sink)
}

/// Does what `line` says, and prints what it asks for.
fn do_line<W: Sink>(
    acting: &mut ActingManager,
    line: ManageLine,
    sink: &mut W,
) -> Result<(), RunFault>
    ensures does { Lives W.written W.has_failed (value_of acting.new) result sink.old sink.new
        (after_manage (value_of acting.old) line) }
{
    match line {
        ManageLine::Told(time, what) => do_word(acting, time, what, sink),
        ManageLine::Empty => Ok(()),
        ManageLine::Wrong => print(sink, b"syntax\n"),
    }
}

/// Tells the manager the time `time` and what `what` says, or prints what `what` asks for.
fn do_word<W: Sink>(
    acting: &mut ActingManager,
    time: u64,
    what: ManageWord,
    sink: &mut W,
) -> Result<(), RunFault>
    ensures does { Lives W.written W.has_failed (value_of acting.new) result sink.old sink.new
        (after_word (value_of acting.old) time what) }
{
    match what {
        ManageWord::Time => acting.handle_time(time)?,
        ManageWord::Packet(bytes, from) => acting.handle_packet(time, &bytes, Some(from))?,
        ManageWord::Sa(bytes, from) => write_sa(sink, acting.administer(&bytes), from)?,
        ManageWord::Look => acting.look(time)?,
        ManageWord::Light => show_light(sink, acting)?,
        ManageWord::LightAnswer(bytes) => write_answered(sink, acting, &bytes)?,
        ManageWord::Leave => acting.leave(time)?,
        ManageWord::Show(what) => show_manager(sink, None, acting.manager(), what)?,
        ManageWord::Managers => show_managers(sink, acting.manager().seen_managers())?,
    }
    Ok(())
}

/// Prints a line for each note and then one for each packet that is ready to be sent, and takes them out.
fn give_out<W: Sink>(acting: &mut ActingManager, sink: &mut W) -> Result<(), RunFault>
    ensures gives { Lives W.written W.has_failed (value_of acting.new) result sink.old sink.new
        (given_out (value_of acting.old)) }
{
    note_all(sink, None, acting)?;
    send_ready(acting, sink)
}

/// Prints a line for each packet that is ready to be sent, the next one first, and takes the packets out.
fn send_ready<W: Sink>(acting: &mut ActingManager, sink: &mut W) -> Result<(), RunFault>
    ensures acting { OnOk result (value_of acting.new ≡ record (value_of acting.old) { ready = [] }) }
    ensures prints { PrintsUnless W.written W.has_failed result sink.old sink.new
        (flat_map send_line (value_of acting.old).ready) }
{
    while let Some(outgoing) = acting.take_packet() {
        write_outgoing(sink, &outgoing)?;
    }
    Ok(())
}
