ghost use Rattle.std.specs.Prelude.{◌≡◌, ◌≤◌, ◌^◌};

/// The greatest number of bytes that one reading takes, and the greatest number of calls that it makes to its source.
pub const READ_LIMIT: u64 = 1 << 40;

/// The number of bytes that a reading has taken from its source, and the number of calls that it has made. Each is at
/// most 2^40.
#[derive(Drop)]
pub(crate) struct Budget {
    pub(crate) bytes: u64,
    pub(crate) calls: u64,
    ghost bytes_in_range: { bytes ≤ 2 ^ 40 },
    ghost calls_in_range: { calls ≤ 2 ^ 40 },
}

impl Budget {
    ghost use Rattle.std.specs.Prelude.{◌↔◌, ◌-◌, ◌+◌, ◌<◌, IsTrue, min};
    ghost use Rattle.byte_io.specs.Budget.{IsSpent};

    pub(crate) fn new() -> Self
        ensures bytes { result.bytes ≡ 0 }
        ensures calls { result.calls ≡ 0 }
    {
        Budget { bytes: 0, calls: 0 }
    }

    /// Returns whether 2^40 bytes or 2^40 calls are used up, so no call may follow.
    pub(crate) fn is_spent(&self) -> bool
        ensures { IsTrue result ↔ IsSpent self.now.bytes self.now.calls }
    {
        self.bytes == READ_LIMIT || self.calls == READ_LIMIT
    }

    /// Returns how many of `wanted` bytes the next call may ask for: the last byte of the budget only on its own.
    pub(crate) fn share(&self, wanted: usize) -> usize
        requires some { 0 < wanted }
        requires left { self.now.bytes < 2 ^ 40 }
        ensures wanted { result ≤ wanted }
        ensures some { 0 < result }
        ensures bytes { self.now.bytes + result ≤ 2 ^ 40 }
        ensures alone { self.now.bytes + result ≡ 2 ^ 40 → result ≡ 1 }
    {
        let before_last = READ_LIMIT - 1 - self.bytes;
        wanted.min(before_last.max(1) as usize)
    }
}
