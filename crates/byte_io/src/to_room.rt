ghost use Rattle.std.specs.Prelude.{◌≡◌, ◌↔◌, [], Some, false, true, IfOk, IsOk, IsTrue, OnErr, OnOk};
ghost use Rattle.byte_io.specs.Memory.{HasRoomFor};
ghost use Rattle.byte_io.specs.Writes.{Writes};

use crate::sink::{Sink, WriteFault};
use std::alloc::{AllocError, Global};
use std::marker::Model;

/// A sink over memory of fixed size. A write that does not fit writes nothing and fails, and every later call fails
/// too.
#[derive(Drop)]
pub struct ToRoom {
    written: Vec<u8>,
    room: usize,
    has_failed: bool,
    is_flushed: bool,
}

impl Model for ToRoom {
    ghost use Rattle.std.specs.Prelude.{◌≤◌};
    ghost use Rattle.std.specs.Vec.{vec_capacity, vec_len};
    ghost use Rattle.byte_io.specs.Memory.{Room};

    ghost Value = { Room };

    ghost view = { λ s. record {
      written = s.written.items;
      room = s.room;
      has_failed = s.has_failed;
      is_flushed =
          s.is_flushed;
    } };

    ghost invariant = { λ s. (vec_len s.written ≤ s.room) × (s.room ≤ vec_capacity s.written) };
}

impl ToRoom {
    /// Creates an empty sink with room for `room` bytes. Returns an error if memory runs out, but never if `room` is 0.
    pub fn new(alloc: Global, room: usize) -> Result<Self, AllocError>
        ensures written { IfOk result (λ s. s.written ≡ []) }
        ensures room { IfOk result (λ s. s.room ≡ room) }
        ensures works { IfOk result (λ s. s.has_failed ≡ false) }
        ensures flushed { IfOk result (λ s. s.is_flushed ≡ true) }
        ensures none_needed { room ≡ 0 → IsOk result }
    {
        let written = Vec::with_capacity(alloc, room)?;
        Ok(ToRoom {
            written,
            room,
            has_failed: false,
            is_flushed: true,
        })
    }

    /// Returns the bytes that have been written to the sink.
    pub fn bytes(&self) -> &[u8]
        ensures { result.now ≡ self.now.written }
    {
        &self.written
    }
}

impl Sink for ToRoom {
    ghost written = { λ s. Some s.written };

    ghost has_failed = { λ s. s.has_failed };

    ghost is_flushed = { λ s. s.is_flushed };

    /// Writes all of `bytes`. Fails and writes none if they do not fit, or if a call has failed before.
    fn write(&mut self, bytes: &[u8]) -> Result<(), WriteFault>
        ensures ok { IsOk result ↔ HasRoomFor self.old bytes.now }
        ensures refused { OnErr result (self.new.written ≡ self.old.written) }
        ensures held { OnErr result (self.new.is_flushed ≡ self.old.is_flushed) }
        ensures room { self.new.room ≡ self.old.room }
        ensures writes { Writes (λ s. Some s.written) (λ s. s.has_failed) result self.old self.new bytes.now }
        ensures stays { IsTrue self.old.has_failed → IsTrue self.new.has_failed }
        ensures held_back { OnOk result (self.new.is_flushed ≡ false) }
    {
        if self.has_failed || self.room - self.written.len() < bytes.len() {
            self.has_failed = true;
            return Err(WriteFault::Write);
        }
        self.written.extend_from_slice(bytes).unwrap();
        self.is_flushed = false;
        Ok(())
    }

    /// Passes on nothing, since memory holds nothing back. Fails if a call has failed before.
    fn flush(&mut self) -> Result<(), WriteFault>
        ensures ok { IsOk result ↔ (self.old.has_failed ≡ false) }
        ensures kept { self.new.written ≡ self.old.written }
        ensures room { self.new.room ≡ self.old.room }
        ensures writes { Writes (λ s. Some s.written) (λ s. s.has_failed) result self.old self.new [] }
        ensures stays { IsTrue self.old.has_failed → IsTrue self.new.has_failed }
        ensures flushed { OnOk result (IsTrue self.new.is_flushed) }
    {
        if self.has_failed {
            return Err(WriteFault::Write);
        }
        self.is_flushed = true;
        Ok(())
    }
}
