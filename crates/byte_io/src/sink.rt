ghost use Rattle.std.specs.Prelude.{◌≡◌, ◌↔◌, ℕ, Bool, true, false, List, [], Option, OnOk, IsErr, IsTrue};
ghost use Rattle.byte_io.specs.Writes.{Writes};

use thiserror::Error;

/// Why bytes were not written.
#[derive(Clone, Copy, Debug, PartialEq, Eq, Error)]
pub enum WriteFault {
    /// The sink failed, and every later call fails too.
    #[error("write failed")]
    Write,
}

/// A sink: bytes are written to it.
pub trait Sink {
    ghost use Rattle.std.specs.Io.KnownBytes.{Appends, Keeps};

    // The bytes that have been written to the sink, if they are known.
    ghost written: { Self → Option (List ℕ) };

    // Whether a call has failed. If so, each later call fails too.
    ghost has_failed: { Self → Bool };

    // Whether nothing has been written since the last flush, so that no bytes are held back.
    ghost is_flushed: { Self → Bool };

    /// Writes all of `bytes`, or fails. How many bytes are written before a failure is unspecified.
    fn write(&mut self, bytes: &[u8]) -> Result<(), WriteFault>
        ensures writes { Writes written has_failed result self.old self.new bytes.now }
        ensures stays { IsTrue (has_failed self.old) → IsTrue (has_failed self.new) }
        ensures held_back { OnOk result (is_flushed self.new ≡ false) };

    /// Passes on all bytes that are held back, or fails.
    fn flush(&mut self) -> Result<(), WriteFault>
        ensures writes { Writes written has_failed result self.old self.new [] }
        ensures stays { IsTrue (has_failed self.old) → IsTrue (has_failed self.new) }
        ensures flushed { OnOk result (IsTrue (is_flushed self.new)) };
}
