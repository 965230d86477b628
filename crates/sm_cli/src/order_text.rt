//! An order of switches as text, with a line for each switch.
ghost use Rattle.std.specs.Prelude.{IsTrue, OnOk};
ghost use Rattle.std.specs.List.{flat_map};
ghost use Rattle.byte_io.specs.Writes.{Writes};
ghost use Rattle.byte_io.specs.Prints.{WritesPart};
ghost use Rattle.sm_cli.specs.OrderText.{order_line, order_text};

use byte_io::{Sink, WriteFault, write_guid};
use smp_bytes::Guid;

/// Writes a line for each of `switches`, `0x` and the switch's GUID, and flushes.
pub fn write_order<W: Sink>(sink: &mut W, switches: &[Guid]) -> Result<(), WriteFault>
    ensures writes { Writes W.written W.has_failed result sink.old sink.new (order_text switches.now) }
    ensures flushed { OnOk result (IsTrue (W.is_flushed sink.new)) }
{
    write_lines(sink, switches)?;
    sink.flush()
}

/// Writes the line of each of `switches`.
fn write_lines<W: Sink>(sink: &mut W, switches: &[Guid]) -> Result<(), WriteFault>
    ensures { WritesPart W.written W.has_failed result sink.old sink.new
        (flat_map order_line switches.now) }
{
    for switch in switches {
        write_line(sink, *switch)?;
    }
    Ok(())
}

/// Writes the line of `switch`.
fn write_line<W: Sink>(sink: &mut W, switch: Guid) -> Result<(), WriteFault>
    ensures { Writes W.written W.has_failed result sink.old sink.new (order_line switch) }
{
    sink.write(b"0x")?;
    write_guid(sink, switch)?;
    sink.write(b"\n")
}
