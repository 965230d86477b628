ghost use Rattle.std.specs.Prelude.{◌≡◌, ◌≤◌, ◌+◌, ◌++◌, ◌↔◌, Err, Ok, Some, false, length, min, take, drop};
ghost use Rattle.std.specs.Prelude.{IfOk, IsTrue};
ghost use Rattle.std.specs.Io.KnownBytes.{ReadConsumes};
ghost use Rattle.byte_io.specs.Source.{interruption};

use crate::source::{ReadError, Source};
use std::marker::Model;

/// A source over bytes in memory. No read fails or is interrupted. Contracts see the bytes that are left.
#[derive(Drop)]
pub struct FromBytes<'b> {
    left: &'b [u8],
}

impl<'b> Model for FromBytes<'b> {
    ghost use Rattle.std.specs.Prelude.{ℕ, List};

    ghost Value = { List ℕ };

    ghost view = { λ s. s.left.now };
}

impl<'b> FromBytes<'b> {
    /// Creates a source over `bytes`.
    pub fn new(bytes: &'b [u8]) -> Self
        ensures { result ≡ bytes.now }
    {
        FromBytes { left: bytes }
    }
}

impl<'b> Source for FromBytes<'b> {
    ghost state = { λ s. record { left = Some s; has_failed = false; interruptions = 0 } };

    /// Moves as many of the bytes that are left as fit into the front of `room`, and returns their number.
    fn read(&mut self, room: &mut [u8]) -> Result<usize, ReadError>
        ensures count { result ≡ Ok (min (length room.old) (length self.old)) }
        ensures given { room.new ≡ take (length room.old) self.old ++ drop (length self.old) room.old }
        ensures left { self.new ≡ drop (length room.old) self.old }
        ensures within { IfOk result (λ n. n ≤ length room.new) }
        ensures bytes { ReadConsumes (Some self.old) (Some self.new) result room.new }
        ensures failed { (result ≡ Err ReadError.Failed) ↔ IsTrue false }
        ensures stays { IsTrue false → IsTrue false }
        ensures interrupted { 0 ≡ 0 + interruption result }
    {
        let count = room.len().min(self.left.len());
        let (given, left) = self.left.split_at(count);
        room[..count].copy_from_slice(given);
        self.left = left;
        Ok(count)
    }
}
