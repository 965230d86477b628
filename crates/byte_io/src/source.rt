ghost use Rattle.std.specs.Prelude.{◌≡◌, ◌≤◌, ◌+◌, ◌↔◌, length, IfOk, IsTrue};
ghost use Rattle.std.specs.Io.KnownBytes.{ReadConsumes};
ghost use Rattle.byte_io.specs.Source.{SourceState, interruption};

use thiserror::Error;

/// The error of one call of a source.
#[derive(Clone, Copy, Debug, PartialEq, Eq, Error)]
pub enum ReadError {
    /// The source failed, and every later call fails too.
    #[error("read failed")]
    Failed,
    /// Nothing was read. A later call may give more.
    #[error("interrupted")]
    Interrupted,
}

/// A source: bytes are read from it.
pub trait Source {
    // The bytes that are left, whether a call has failed, and how many calls were interrupted.
    ghost state: { Self → SourceState };

    /// Reads into the front of `room` and returns the number of bytes read. The number is 0 only at the end of the
    /// source, or if `room` is empty. The rest of `room` is unspecified. After an error, the whole of `room` is
    /// unspecified.
    fn read(&mut self, room: &mut [u8]) -> Result<usize, ReadError>
        ensures within { IfOk result (λ n. n ≤ length room.new) }
        ensures bytes { ReadConsumes (state self.old).left (state self.new).left result room.new }
        ensures failed { (result ≡ Err ReadError.Failed) ↔ IsTrue (state self.new).has_failed }
        ensures stays { IsTrue (state self.old).has_failed → IsTrue (state self.new).has_failed }
        ensures interrupted { (state self.new).interruptions
            ≡ (state self.old).interruptions + interruption result };
}
