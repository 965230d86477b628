ghost use Rattle.std.specs.Prelude.{◌≡◌, false, OnOk};
ghost use Rattle.std.specs.Io.KnownBytes.{Appends, Keeps};

use crate::interruption::is_interruption;
use crate::sink::{Sink, WriteFault};
use std::io::Write;

/// The number of interrupted calls of the writer that fail one write or flush.
const MOST_INTERRUPTIONS: u64 = 1 << 40;

/// A sink over any writer. After a failed call every later call fails too. An `Interrupted` call of the writer is made
/// again; every other error is a failure. A writer's contract does not say when a call fails, so no clause here does.
#[derive(Drop)]
pub struct ToWrite<W> {
    writer: W,
    has_failed: bool,
    is_flushed: bool,
}

impl<W: Write> ToWrite<W> {
    /// Creates a sink over `writer`. `writer` may hold bytes back already, so the sink does not count as flushed.
    pub fn new(writer: W) -> Self
        ensures written { ⟦<ToWrite<W> as Sink>⟧.written result ≡ W.contents writer }
        ensures has_failed { ⟦<ToWrite<W> as Sink>⟧.has_failed result ≡ false }
        ensures is_flushed { ⟦<ToWrite<W> as Sink>⟧.is_flushed result ≡ false }
    {
        ToWrite {
            writer,
            has_failed: false,
            is_flushed: false,
        }
    }
}

impl<W: Write> Sink for ToWrite<W> {
    ghost written = { λ s. W.contents s.writer };

    ghost has_failed = { λ s. s.has_failed };

    ghost is_flushed = { λ s. s.is_flushed };

    /// Writes all of `bytes`. A call of the writer that takes none of the bytes counts as failed. So does the 2^40th
    /// interrupted call of the writer in one write.
    fn write(&mut self, bytes: &[u8]) -> Result<(), WriteFault> {
        if self.has_failed {
            return Err(WriteFault::Write);
        }
        self.is_flushed = false;
        let outcome = write_all(&mut self.writer, bytes);
        self.has_failed = outcome.is_err();
        outcome
    }

    /// Passes on what the writer holds back. The 2^40th interrupted call of the writer in one flush counts as failed.
    fn flush(&mut self) -> Result<(), WriteFault> {
        if self.has_failed {
            return Err(WriteFault::Write);
        }
        let outcome = flush_all(&mut self.writer);
        self.has_failed = outcome.is_err();
        self.is_flushed = outcome.is_ok();
        outcome
    }
}

/// Writes all of `bytes`. Tries again after an interrupted write, fewer than 2^40 times. Fails if a write takes no
/// byte.
fn write_all<W: Write>(writer: &mut W, bytes: &[u8]) -> Result<(), WriteFault>
    ensures { OnOk result (Appends (W.contents writer.old) (W.contents writer.new) bytes.now) }
{
    let mut rest = bytes;
    let mut tries_left = MOST_INTERRUPTIONS;
    while !rest.is_empty() {
        match writer.write(rest) {
            Ok(0) => return Err(WriteFault::Write),
            Ok(count) => rest = &rest[count..],
            Err(error) => {
                tries_left -= 1;
                if !is_interruption(error.kind()) || tries_left == 0 {
                    return Err(WriteFault::Write);
                }
            }
        }
    }
    Ok(())
}

/// Passes on what `writer` holds back. Tries again after an interruption, fewer than 2^40 times.
fn flush_all<W: Write>(writer: &mut W) -> Result<(), WriteFault>
    ensures { OnOk result (Keeps (W.contents writer.old) (W.contents writer.new)) }
{
    for _ in 0..MOST_INTERRUPTIONS {
        match writer.flush() {
            Ok(()) => return Ok(()),
            Err(error) => {
                if !is_interruption(error.kind()) {
                    return Err(WriteFault::Write);
                }
            }
        }
    }
    Err(WriteFault::Write)
}
