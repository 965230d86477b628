//! Parts of the lines that commands print.
ghost use Rattle.std.specs.Prelude.{◌++◌};
ghost use Rattle.byte_io.specs.Writes.{Writes};
ghost use Rattle.schedule_lines.specs.Lines.{count_text};

use byte_io::{Sink, WriteFault, write_number};

/// Prints `words`, and then `count` in decimal.
pub(crate) fn write_count<W: Sink>(sink: &mut W, words: &[u8], count: u64) -> Result<(), WriteFault>
    ensures writes { Writes W.written W.has_failed result sink.old sink.new
        (count_text words.now count) }
{
    sink.write(words)?;
    write_number(sink, count)
}

/// Prints `text` between `front` and `back`.
pub(crate) fn write_between<W: Sink>(
    sink: &mut W,
    front: &[u8],
    text: &[u8],
    back: &[u8],
) -> Result<(), WriteFault>
    ensures writes { Writes W.written W.has_failed result sink.old sink.new
        (front.now ++ text.now ++ back.now) }
{
    write_pair(sink, front, text)?;
    sink.write(back)
}

/// Prints `front` and then `back`.
fn write_pair<W: Sink>(sink: &mut W, front: &[u8], back: &[u8]) -> Result<(), WriteFault>
    ensures writes { Writes W.written W.has_failed result sink.old sink.new
        (front.now ++ back.now) }
{
    sink.write(front)?;
    sink.write(back)
}
