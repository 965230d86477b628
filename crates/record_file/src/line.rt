//! A line that is put together before it is written.
ghost use Rattle.std.specs.Prelude.{◌≡◌, [], false};

use arrayvec::ArrayVec;
use byte_io::{Sink, WriteFault};

/// A sink that collects the bytes of a line, at most 64. A write that does not fit writes nothing and fails. Every
/// later call fails too.
#[derive(Drop)]
pub(crate) struct Line {
    bytes: ArrayVec<u8, 64>,
    has_failed: bool,
    is_flushed: bool,
}

impl Line {
    /// Creates an empty line.
    pub(crate) fn new() -> Self
        ensures bytes { result.bytes.items ≡ [] }
        ensures works { result.has_failed ≡ false }
    {
        Line {
            bytes: ArrayVec::new(),
            has_failed: false,
            is_flushed: true,
        }
    }

    /// Returns the bytes of the line.
    pub(crate) fn bytes(&self) -> &[u8]
        ensures { result.now ≡ self.now.bytes.items }
    {
        self.bytes.as_slice()
    }
}

impl Sink for Line {
    ghost use Rattle.std.specs.Prelude.{Some};

    ghost written = { λ s. Some s.bytes.items };

    ghost has_failed = { λ s. s.has_failed };

    ghost is_flushed = { λ s. s.is_flushed };

    fn write(&mut self, bytes: &[u8]) -> Result<(), WriteFault> {
        if self.has_failed || self.bytes.try_extend_from_slice(bytes).is_err() {
            self.has_failed = true;
            return Err(WriteFault::Write);
        }
        self.is_flushed = false;
        Ok(())
    }

    fn flush(&mut self) -> Result<(), WriteFault> {
        if self.has_failed {
            return Err(WriteFault::Write);
        }
        self.is_flushed = true;
        Ok(())
    }
}
