//! Writers of the words that texts are made of.
ghost use Rattle.std.specs.Prelude.{decimal};
ghost use Rattle.smp_bytes.specs.Text.{guid_text, port_text};
ghost use Rattle.byte_io.specs.Writes.{Writes};

use crate::{Sink, WriteFault};
use itoa::Buffer;
use smp_bytes::{Guid, PortNum};

/// Writes `number` in decimal.
pub fn write_number<W: Sink>(sink: &mut W, number: u64) -> Result<(), WriteFault>
    ensures writes { Writes W.written W.has_failed result sink.old sink.new (decimal number) }
{
    let mut buffer = Buffer::new();
    sink.write(buffer.format(number).as_bytes())
}

/// Writes `guid` as sixteen hex digits.
pub fn write_guid<W: Sink>(sink: &mut W, guid: Guid) -> Result<(), WriteFault>
    ensures writes { Writes W.written W.has_failed result sink.old sink.new (guid_text guid) }
{
    sink.write(&guid.hex_digits())
}

/// Writes `guid`, a slash, and the number of `port`.
pub fn write_port<W: Sink>(sink: &mut W, guid: Guid, port: PortNum) -> Result<(), WriteFault>
    ensures writes { Writes W.written W.has_failed result sink.old sink.new (port_text guid port) }
{
    write_guid(sink, guid)?;
    sink.write(b"/")?;
    write_number(sink, u64::from(port.number()))
}
