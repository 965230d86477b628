//! A set of channels of the same row of 64, as the bits of a word.
ghost use Rattle.std.specs.Prelude.{◌≡◌, ◌↔◌, ◌⊎◌, ◌/◌, ℕ, IsTrue};
ghost use Rattle.audit_channels.specs.ChannelSet.{Knows};

/// A set of channels, all in the same row of 64. Bit i of `bits` is 1 if channel 64 * `row` + i is in the set.
#[derive(Clone, Copy)]
pub(crate) struct ChannelSet {
    row: usize,
    bits: u64,
}

impl ChannelSet {
    /// Returns the empty set of channels.
    pub(crate) fn none() -> Self
        ensures { (channel : ℕ) → ¬ (Knows result channel) }
    {
        ChannelSet { row: 0, bits: 0 }
    }

    /// Returns whether `channel` is in the set. Takes constant time.
    pub(crate) fn has(self, channel: usize) -> bool
        ensures { IsTrue result ↔ Knows self channel }
    {
        self.row == channel / 64 && (self.bits >> (channel % 64)) & 1 == 1
    }

    /// Returns `self` with `channel` added if `self` is empty or `channel` is in its row, and otherwise `self`.
    pub(crate) fn with(self, channel: usize) -> Self
        ensures kept { (other : ℕ) → Knows self other → Knows result other }
        ensures only { (other : ℕ) → Knows result other → Knows self other ⊎ (other ≡ channel) }
        ensures of_row { self.row ≡ channel / 64 → Knows result channel }
        ensures first { self.bits ≡ 0 → Knows result channel }
    {
        let row = channel / 64;
        if self.row != row && self.bits != 0 {
            return self;
        }
        ChannelSet {
            row,
            bits: self.bits | 1 << (channel % 64),
        }
    }
}
