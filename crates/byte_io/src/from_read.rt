ghost use Rattle.std.specs.Prelude.{◌≡◌, false};

use crate::interruption::is_interruption;
use crate::source::{ReadError, Source};
use std::io::Read;

/// A source over any reader. After a failed read every later call fails too. The first 2^64 - 1 errors of kind
/// `Interrupted` are not failures; every other error is. A reader's contract does not say when a read fails, so no
/// clause here says it.
#[derive(Drop)]
pub struct FromRead<R> {
    reader: R,
    has_failed: bool,
    interruptions: u64,
}

impl<R: Read> FromRead<R> {
    /// Creates a source over `reader`.
    pub fn new(reader: R) -> Self
        ensures { ⟦<FromRead<R> as Source>⟧.state result
            ≡ record { left = R.remaining reader; has_failed = false; interruptions = 0 } }
    {
        FromRead {
            reader,
            has_failed: false,
            interruptions: 0,
        }
    }
}

impl<R: Read> Source for FromRead<R> {
    ghost state = { λ s. record {
      left = R.remaining s.reader;
      has_failed = s.has_failed;
      interruptions = s.interruptions;
    } };

    /// Reads from the reader. After 2^64 - 1 interrupted reads, a further one counts as failed.
    fn read(&mut self, room: &mut [u8]) -> Result<usize, ReadError> {
        if self.has_failed {
            return Err(ReadError::Failed);
        }
        match self.reader.read(room) {
            Ok(count) => Ok(count),
            Err(error) => {
                if is_interruption(error.kind()) && self.interruptions < u64::MAX {
                    self.interruptions += 1;
                    Err(ReadError::Interrupted)
                } else {
                    self.has_failed = true;
                    Err(ReadError::Failed)
                }
            }
        }
    }
}
