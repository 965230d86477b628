//! Serving a manager: lines are read, and each line is handled before the next one is read.
ghost use Rattle.std.specs.Prelude.{◌≡◌, ◌<◌, [], IfErr, OnOk, IsTrue, false, length};
ghost use Rattle.std.specs.Io.KnownBytes.{Appends};
ghost use Rattle.byte_io.specs.Prints.{PrintsSome};
ghost use Rattle.serve_run.specs.Kept.{after_byte, after_bytes, kept_with};
ghost use Rattle.serve_run.specs.Lives.{Lives};
ghost use Rattle.serve_run.specs.Seat.{seat_of};
ghost use Rattle.serve_run.specs.Server.{HasServed, ServesPiece, StopsServing, value_of};

use crate::seated::ServedManager;
use crate::serve_fault::ServeFault;
use byte_io::{ReadError, Sink, Source};
use schedule_lines::RunFault;
use serve_lines::MOST_BYTES;
use std::alloc::{AllocError, Global};

/// The greatest number of bytes that are read at a time.
const PIECE: usize = 4096;

/// A manager, and the bytes of the line that has begun. At most 601 bytes of a line are kept, one more than a line
/// may have.
#[derive(Drop)]
pub(crate) struct Server {
    seated: ServedManager,
    begun: Vec<u8>,
}

/// Serves the manager `seated`: reads `lines` until they end, and handles each line. Answers each line, and flushes the
/// answer, before more is read.
///
/// Writes what `served_by` gives for all bytes that were read. Bytes after the last line feed are not a line. Keeps
/// at most 601 bytes of the line that has begun.
///
/// # Errors
///
/// Returns `Read` if no more lines can be read; all earlier lines have then been answered. Returns `Memory` if memory
/// runs out; a prefix of the answers has then been written. Returns `Write` if a write fails; how much was written is
/// then unspecified.
pub fn serve<S: Source, W: Sink>(
    alloc: Global,
    seated: ServedManager,
    lines: &mut S,
    sink: &mut W,
) -> Result<(), ServeFault>
    ensures served { OnOk result (HasServed S.state lines.old lines.new (seat_of seated)
        (Appends (W.written sink.old) (W.written sink.new))) }
    ensures flushed { OnOk result (IsTrue (W.is_flushed sink.new)) }
    ensures sink_works { OnOk result (W.has_failed sink.new ≡ false) }
    ensures stopped { IfErr result (StopsServing S.state lines.old lines.new (seat_of seated)
        (PrintsSome W.written W.has_failed sink.old sink.new)
        (Appends (W.written sink.old) (W.written sink.new)) (W.has_failed sink.new)) }
{
    let mut server = Server {
        seated,
        begun: Vec::new(alloc),
    };
    server.serve_all(alloc, lines, sink)
}

impl Server {
    /// Reads `lines` until they end, and handles each line.
    fn serve_all<S: Source, W: Sink>(
        &mut self,
        alloc: Global,
        lines: &mut S,
        sink: &mut W,
    ) -> Result<(), ServeFault>
        requires { self.old.begun.items ≡ [] }
        ensures served { OnOk result (HasServed S.state lines.old lines.new (seat_of self.old.seated)
            (Appends (W.written sink.old) (W.written sink.new))) }
        ensures flushed { OnOk result (IsTrue (W.is_flushed sink.new)) }
        ensures sink_works { OnOk result (W.has_failed sink.new ≡ false) }
        ensures stopped { IfErr result (StopsServing S.state lines.old lines.new (seat_of self.old.seated)
            (PrintsSome W.written W.has_failed sink.old sink.new)
            (Appends (W.written sink.old) (W.written sink.new)) (W.has_failed sink.new)) }
    {
        sink.flush()?;
        for _ in 0..u64::MAX {
            if !self.serve_piece(alloc, lines, sink)? {
                return Ok(());
            }
        }
        Err(ServeFault::Read)
    }

    /// Reads some bytes, and handles the lines that end in them. Returns whether more bytes may come. `sink` is
    /// flushed, so that no output is held back while bytes are read.
    fn serve_piece<S: Source, W: Sink>(
        &mut self,
        alloc: Global,
        lines: &mut S,
        sink: &mut W,
    ) -> Result<bool, ServeFault>
        requires { IsTrue (W.is_flushed sink.old) }
        ensures serves { ServesPiece S.state W.written W.has_failed lines.old lines.new (value_of self.old)
            (value_of self.new) sink.old sink.new result }
        ensures flushed { OnOk result (IsTrue (W.is_flushed sink.new)) }
    {
        let mut room = [0u8; PIECE];
        match lines.read(&mut room) {
            Ok(0) => Ok(false),
            Ok(count) => {
                self.serve_bytes(alloc, &room[..count], sink)?;
                Ok(true)
            }
            Err(ReadError::Interrupted) => Ok(true),
            Err(ReadError::Failed) => Err(ServeFault::Read),
        }
    }

    /// Handles the lines that end in `bytes`, and flushes `sink`.
    fn serve_bytes<W: Sink>(
        &mut self,
        alloc: Global,
        bytes: &[u8],
        sink: &mut W,
    ) -> Result<(), RunFault>
        requires { IsTrue (W.is_flushed sink.old) }
        ensures serves { Lives W.written W.has_failed (value_of self.new) result sink.old sink.new
            (after_bytes (value_of self.old) bytes.now) }
        ensures flushed { OnOk result (IsTrue (W.is_flushed sink.new)) }
    {
        for byte in bytes {
            self.serve_byte(alloc, *byte, sink)?;
        }
        Ok(())
    }

    /// Handles the line that has begun if `byte` is a line feed, and otherwise adds `byte` to the line.
    fn serve_byte<W: Sink>(&mut self, alloc: Global, byte: u8, sink: &mut W) -> Result<(), RunFault>
        requires { IsTrue (W.is_flushed sink.old) }
        ensures serves { Lives W.written W.has_failed (value_of self.new) result sink.old sink.new
            (after_byte (value_of self.old) byte) }
        ensures flushed { OnOk result (IsTrue (W.is_flushed sink.new)) }
    {
        if byte != b'\n' {
            keep(&mut self.begun, byte)?;
            return Ok(());
        }
        self.seated.answer(alloc, &self.begun, sink)?;
        self.begun.clear();
        Ok(())
    }
}

/// Appends `byte` to `begun`, the bytes of a line, unless it is too long. Returns an error if memory runs out.
fn keep(begun: &mut Vec<u8>, byte: u8) -> Result<(), AllocError>
    ensures { OnOk result (begun.new.items ≡ kept_with begun.old.items byte) }
{
    if begun.len() <= MOST_BYTES {
        begun.push(byte)?;
    }
    Ok(())
}
