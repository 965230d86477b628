//! The lines of the packets that are sent.
ghost use Rattle.std.specs.Prelude.{◌≡◌, OnOk};
ghost use Rattle.std.specs.List.{flat_map};
ghost use Rattle.byte_io.specs.Writes.{Writes};
ghost use Rattle.hex.specs.Hex.{encode_lower};
ghost use Rattle.sm_manager.specs.Manager.{emptied};
ghost use Rattle.schedule_lines.specs.Prints.{PrintsUnless};
ghost use Rattle.serve_run.specs.Decided.{sa_line};
ghost use Rattle.serve_run.specs.Served.{send_line, to_text};

use byte_io::{Sink, WriteFault, write_number};
use schedule_lines::RunFault;
use sm_manager::{Manager, Outgoing};
use smp_bytes::Lid;

/// Prints a line for each packet that `manager` has queued, in the order of the queue, and empties the queue.
pub(crate) fn send_all<W: Sink>(manager: &mut Manager, sink: &mut W) -> Result<(), RunFault>
    ensures manager { OnOk result (manager.new ≡ emptied manager.old) }
    ensures prints { PrintsUnless W.written W.has_failed result sink.old sink.new
        (flat_map send_line manager.old.outgoing) }
{
    while let Some(outgoing) = manager.take_outgoing() {
        write_outgoing(sink, &outgoing)?;
    }
    Ok(())
}

/// Writes the line of `outgoing`, a packet that is sent.
#[tactic(auto, unfolding(crate::specs::Served::send_line))]
pub(crate) fn write_outgoing<W: Sink>(sink: &mut W, outgoing: &Outgoing) -> Result<(), WriteFault>
    ensures writes { Writes W.written W.has_failed result sink.old sink.new (send_line outgoing.now) }
{
    sink.write(b"send ")?;
    write_hex(sink, outgoing.packet.bytes())?;
    write_to(sink, outgoing.to)?;
    sink.write(b"\n")
}

/// Writes the line of `answer`, an answer of subnet administration for the LID `to`, if there is one.
#[tactic(auto, unfolding(crate::specs::Decided::sa_line))]
pub(crate) fn write_sa<W: Sink>(
    sink: &mut W,
    answer: Option<[u8; 256]>,
    to: Lid,
) -> Result<(), WriteFault>
    ensures writes { Writes W.written W.has_failed result sink.old sink.new (sa_line to answer) }
{
    match answer {
        None => sink.write(b""),
        Some(packet) => {
            sink.write(b"sa ")?;
            write_hex(sink, &packet)?;
            sink.write(b" to ")?;
            write_number(sink, u64::from(to.number()))?;
            sink.write(b"\n")
        }
    }
}

/// Writes the bytes of `packet` as two lower-case hex digits each.
pub(crate) fn write_hex<W: Sink>(sink: &mut W, packet: &[u8; 256]) -> Result<(), WriteFault>
    ensures writes { Writes W.written W.has_failed result sink.old sink.new (encode_lower packet.now) }
{
    let mut digits = [0; 512];
    hex::encode_to_slice(packet.as_slice(), &mut digits).unwrap();
    sink.write(&digits)
}

/// Writes ` to ` and then `to`, the LID that a packet is sent to, unless the packet goes along its own path.
fn write_to<W: Sink>(sink: &mut W, to: Option<Lid>) -> Result<(), WriteFault>
    ensures writes { Writes W.written W.has_failed result sink.old sink.new (to_text to) }
{
    match to {
        None => sink.write(b""),
        Some(lid) => {
            sink.write(b" to ")?;
            write_number(sink, u64::from(lid.number()))
        }
    }
}
