//! The last line of an audit: whether the tables pass and, if they do not, why.
ghost use Rattle.std.specs.List.{flat_map};
ghost use Rattle.byte_io.specs.Writes.{Writes};
ghost use Rattle.byte_io.specs.Prints.{WritesPart};
ghost use Rattle.audit_run.specs.VerdictText.{flaw_word, flaws_text, later_word, verdict_line};

use crate::flaw::Flaw;
use byte_io::{Sink, WriteFault};

/// Writes the line that says whether tables with `flaws` pass: `yes`, or `no` and the words of `flaws`.
pub(crate) fn write_verdict<W: Sink>(sink: &mut W, flaws: &[Flaw]) -> Result<(), WriteFault>
    ensures { Writes W.written W.has_failed result sink.old sink.new (verdict_line flaws.now) }
{
    sink.write(b"passes")?;
    write_flaws(sink, flaws)?;
    sink.write(b"\n")
}

/// Writes `no` and the words of `flaws`, or `yes` if `flaws` is empty.
fn write_flaws<W: Sink>(sink: &mut W, flaws: &[Flaw]) -> Result<(), WriteFault>
    ensures { Writes W.written W.has_failed result sink.old sink.new (flaws_text flaws.now) }
{
    match flaws.split_first() {
        None => sink.write(b" yes"),
        Some((first, later)) => {
            sink.write(b" no: ")?;
            write_word(sink, *first)?;
            write_later(sink, later)
        }
    }
}

/// Writes the word of each of `flaws`, after a comma.
fn write_later<W: Sink>(sink: &mut W, flaws: &[Flaw]) -> Result<(), WriteFault>
    ensures { WritesPart W.written W.has_failed result sink.old sink.new (flat_map later_word flaws.now) }
{
    for flaw in flaws {
        write_later_word(sink, *flaw)?;
    }
    Ok(())
}

/// Writes a comma, a space and the word of `flaw`.
fn write_later_word<W: Sink>(sink: &mut W, flaw: Flaw) -> Result<(), WriteFault>
    ensures { Writes W.written W.has_failed result sink.old sink.new (later_word flaw) }
{
    sink.write(b", ")?;
    write_word(sink, flaw)
}

/// Writes the word of `flaw`.
fn write_word<W: Sink>(sink: &mut W, flaw: Flaw) -> Result<(), WriteFault>
    ensures { Writes W.written W.has_failed result sink.old sink.new (flaw_word flaw) }
{
    sink.write(flaw.word().as_bytes())
}
