//! The lines of the managers that a sweep saw.
ghost use Rattle.std.specs.List.{flat_map};
ghost use Rattle.byte_io.specs.Writes.{Writes};
ghost use Rattle.schedule_lines.specs.Prints.{PrintsUnless};
ghost use Rattle.serve_run.specs.Served.{seen_line, told_state, told_text, where_text};

use attr_codec::{SmInfo, SmStateNumber};
use byte_io::{Sink, WriteFault, write_guid, write_number, write_port};
use schedule_lines::RunFault;
use sm_state::{SeenManager, SmState};

/// Prints a line for each of `managers`, the managers that a sweep saw, in the order of `managers`.
pub(crate) fn show_managers<W: Sink>(sink: &mut W, managers: &[SeenManager]) -> Result<(), RunFault>
    ensures prints { PrintsUnless W.written W.has_failed result sink.old sink.new
        (flat_map seen_line managers.now) }
{
    for seen in managers {
        write_seen(sink, seen)?;
    }
    Ok(())
}

/// Writes the line of `seen`, a manager that a sweep saw.
#[tactic(auto, unfolding(crate::specs::Served::seen_line))]
fn write_seen<W: Sink>(sink: &mut W, seen: &SeenManager) -> Result<(), WriteFault>
    ensures writes { Writes W.written W.has_failed result sink.old sink.new (seen_line seen.now) }
{
    write_where(sink, seen)?;
    write_reported(sink, &seen.info)
}

/// Writes the port at which the manager `seen` was seen, and the port GUID that the manager reported.
fn write_where<W: Sink>(sink: &mut W, seen: &SeenManager) -> Result<(), WriteFault>
    ensures writes { Writes W.written W.has_failed result sink.old sink.new (where_text seen.now) }
{
    sink.write(b"manager ")?;
    write_port(sink, seen.guid, seen.port)?;
    sink.write(b" guid ")?;
    write_guid(sink, seen.info.guid)
}

/// Writes the priority, the SM_Key and the state in `info`, which a manager reported, and ends the line.
fn write_reported<W: Sink>(sink: &mut W, info: &SmInfo) -> Result<(), WriteFault>
    ensures writes { Writes W.written W.has_failed result sink.old sink.new (told_text info.now) }
{
    sink.write(b" priority ")?;
    write_number(sink, u64::from(info.priority.number()))?;
    sink.write(b" key ")?;
    write_number(sink, info.sm_key)?;
    sink.write(b" state ")?;
    write_told_state(sink, info.state)?;
    sink.write(b"\n")
}

/// Writes the word of the manager state with the number `number`, or `number` in decimal if no state has this number.
fn write_told_state<W: Sink>(sink: &mut W, number: SmStateNumber) -> Result<(), WriteFault>
    ensures writes { Writes W.written W.has_failed result sink.old sink.new (told_state number) }
{
    match SmState::from_number(number) {
        Some(state) => sink.write(state.word().as_bytes()),
        None => write_number(sink, u64::from(number.number())),
    }
}
