//! The lines of light sweeps.
ghost use Rattle.byte_io.specs.Writes.{Writes};
ghost use Rattle.acting_manager.specs.Acting.{value_of};
ghost use Rattle.schedule_lines.specs.Prints.{PrintsUnless};
ghost use Rattle.serve_run.specs.Decided.{answered_line, light_line, light_lines, light_text, same_line};

use crate::outgoing::write_hex;
use acting_manager::ActingManager;
use byte_io::{Sink, WriteFault};
use light_sweep::{is_same, light_request};
use schedule_lines::RunFault;
use smp_bytes::Smp;
use sweep::Sweep;

/// Prints a line for each request of a light sweep, or nothing if a sweep is needed.
pub(crate) fn show_light<W: Sink>(sink: &mut W, acting: &ActingManager) -> Result<(), RunFault>
    ensures prints { PrintsUnless W.written W.has_failed result sink.old sink.new
        (light_text (value_of acting.now)) }
{
    match acting.standing_sweep() {
        Some(sweep) => show_requests(sink, sweep),
        None => Ok(()),
    }
}

/// Prints a line for each request of a light sweep after `sweep`, in the order of the vertices that it reached.
fn show_requests<W: Sink>(sink: &mut W, sweep: &Sweep) -> Result<(), RunFault>
    ensures prints { PrintsUnless W.written W.has_failed result sink.old sink.new
        (light_lines sweep.now) }
{
    for i in 0..sweep.reached().len() {
        write_light(sink, light_request(sweep, i))?;
    }
    Ok(())
}

/// Writes the line that says whether a switch is as the last sweep of `acting` read it, by `packet`, which may answer a
/// request of a light sweep.
pub(crate) fn write_answered<W: Sink>(
    sink: &mut W,
    acting: &ActingManager,
    packet: &[u8; 256],
) -> Result<(), WriteFault>
    ensures writes { Writes W.written W.has_failed result sink.old sink.new
        (answered_line (value_of acting.now) packet.now) }
{
    match acting.standing_sweep() {
        Some(sweep) => write_same(sink, is_same(sweep, packet)),
        None => write_same(sink, false),
    }
}

/// Writes the line of `request`, a request of a light sweep. Writes nothing if there is none.
#[tactic(auto, unfolding(crate::specs::Decided::light_line))]
fn write_light<W: Sink>(sink: &mut W, request: Option<Smp>) -> Result<(), WriteFault>
    ensures writes { Writes W.written W.has_failed result sink.old sink.new (light_line request) }
{
    match request {
        None => sink.write(b""),
        Some(packet) => {
            sink.write(b"light ")?;
            write_hex(sink, packet.bytes())?;
            sink.write(b"\n")
        }
    }
}

/// Writes the line that says whether a switch is as the last sweep read it.
fn write_same<W: Sink>(sink: &mut W, is_same: bool) -> Result<(), WriteFault>
    ensures writes { Writes W.written W.has_failed result sink.old sink.new (same_line is_same) }
{
    if is_same {
        sink.write(b"light same\n")
    } else {
        sink.write(b"light changed\n")
    }
}
