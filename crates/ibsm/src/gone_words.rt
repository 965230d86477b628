//! Words that the program took in an earlier release, and what to use instead.
ghost use Rattle.std.specs.Prelude.{◌≡◌};
ghost use Rattle.byte_io.specs.Writes.{Writes};
ghost use Rattle.byte_io.specs.Prints.{WritesPart};
ghost use Rattle.ibsm.specs.GoneWords.{successor, successors_text};

use byte_io::{Sink, WriteFault};

/// Writes the line of each of `words` that is gone, in the order of `words`.
pub(crate) fn write_successors<W: Sink>(sink: &mut W, words: &[String]) -> Result<(), WriteFault>
    ensures { WritesPart W.written W.has_failed result sink.old sink.new (successors_text words.now) }
{
    for word in words {
        write_successor(sink, word)?;
    }
    Ok(())
}

/// Writes a line that says what to use instead of `word`, or nothing if `word` is not gone.
fn write_successor<W: Sink>(sink: &mut W, word: &str) -> Result<(), WriteFault>
    ensures { Writes W.written W.has_failed result sink.old sink.new (successor word.now) }
{
    sink.write(successor(word).as_bytes())
}

/// Returns a line that says what to use instead of `word`, or an empty text if `word` is not gone.
fn successor(word: &str) -> &'static str
    ensures { result.now ≡ successor word.now }
{
    match word {
        "order-of" => "in place of 'order-of TABLES FILE..': 'order --held TABLES FILE..'\n",
        "--told-order" => {
            "in place of 'next --told-order': 'next', which goes by an order that the tables imply\n"
        }
        "--answers-as-asked" => {
            "in place of '--answers-as-asked': 'audit --lanes' alone, which also tells what holds with answers\n"
        }
        _ => "",
    }
}
