ghost use Rattle.std.specs.Prelude.{◌≡◌, ◌<◌, ◌≤◌, ◌+◌, ◌↔◌, length, take, IfOk, OnErr, IsTrue};
ghost use Rattle.std.specs.Io.KnownBytes.{Consumes, IsAtEnd, Keeps};
ghost use Rattle.byte_io.specs.Source.{interruption};

use crate::budget::Budget;
use crate::source::{ReadError, Source};

/// Why a reading gave no piece.
#[derive(Clone, Copy)]
pub enum PieceFault {
    Read,
    TooLong,
}

/// A reading: a source, the number of bytes that the reading has taken from it, and the number of calls that the
/// reading has made.
#[derive(Drop)]
pub struct Reading<'s, S> {
    source: &'s mut S,
    budget: Budget,
}

impl<'s, S: Source> Reading<'s, S> {
    ghost use Rattle.byte_io.specs.Budget.{IsSpent};
    ghost use Rattle.byte_io.specs.Reading.{Gives};

    /// Begins a reading of `source`.
    pub fn new(source: &'s mut S) -> Self
        ensures same_source { result.source.ghost_name ≡ source.entry.ghost_name }
        ensures source { result.source.now ≡ source.old }
        ensures bytes { result.budget.bytes ≡ 0 }
        ensures calls { result.budget.calls ≡ 0 }
    {
        Reading {
            source,
            budget: Budget::new(),
        }
    }

    /// Returns whether 2^40 bytes or 2^40 calls are used up, so no call may follow.
    pub fn is_spent(&self) -> bool
        ensures { IsTrue result ↔ IsSpent self.now.budget.bytes self.now.budget.calls }
    {
        self.budget.is_spent()
    }

    /// Calls the source until a call is not interrupted. Puts the bytes of that call into the front of `room`, and
    /// returns their number, which is 0 only at the end of the source. `room` must not be empty.
    ///
    /// # Errors
    ///
    /// Returns `Read` if the source failed, and `TooLong` if 2^40 bytes or 2^40 calls are used up before a call is not
    /// interrupted.
    pub fn piece(&mut self, room: &mut [u8]) -> Result<usize, PieceFault>
        requires some { 0 < length room.old }
        ensures same_source { self.new.source.ghost_name ≡ self.old.source.ghost_name }
        ensures gives { Gives S.state result
            self.old self.new room.new }
    {
        while !self.budget.is_spent() {
            let most = self.budget.share(room.len());
            self.budget.calls += 1;
            match read_front(self.source, room, most) {
                Ok(count) => {
                    self.budget.bytes += count as u64;
                    return Ok(count);
                }
                Err(ReadError::Interrupted) => {}
                Err(ReadError::Failed) => return Err(PieceFault::Read),
            }
        }
        Err(PieceFault::TooLong)
    }
}

/// Makes one call, which reads at most `most` bytes into the front of `room`, and returns their number.
fn read_front<S: Source>(source: &mut S, room: &mut [u8], most: usize) -> Result<usize, ReadError>
    requires { most ≤ length room.old }
    ensures within { IfOk result (λ n. n ≤ most) }
    ensures bytes { IfOk result (λ n.
        Consumes (S.state source.old).left (S.state source.new).left (take n room.new)) }
    ensures room { length room.new ≡ length room.old }
    ensures end { IfOk result (λ n. n ≡ 0 → 0 < most → IsAtEnd (S.state source.new).left) }
    ensures err { OnErr result (Keeps (S.state source.old).left (S.state source.new).left) }
    ensures failed { (result ≡ Err ReadError.Failed) ↔ IsTrue (S.state source.new).has_failed }
    ensures stays { IsTrue (S.state source.old).has_failed → IsTrue (S.state source.new).has_failed }
    ensures interrupted { (S.state source.new).interruptions
        ≡ (S.state source.old).interruptions + interruption result }
{
    source.read(&mut room[..most])
}
