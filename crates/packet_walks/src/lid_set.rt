//! A set of LIDs of one block.
ghost use Rattle.std.specs.Prelude.{◌≡◌, ◌<◌};
ghost use Rattle.packet_walks.specs.LidSet.{both, either, has, no_lids, with_lid};

/// A set of LIDs of the same block. The bit at the index of a LID in the block is 1 if the set has the LID.
#[derive(Clone, Copy, Debug, PartialEq, Eq)]
pub(crate) struct LidSet {
    pub(crate) bits: u64,
}

impl LidSet {
    /// Returns the empty set of LIDs.
    pub(crate) fn none() -> Self
        ensures { result ≡ no_lids }
    {
        LidSet { bits: 0 }
    }

    /// Returns `self` with the LID at `index` added.
    pub(crate) fn with(self, index: usize) -> Self
        requires { index < 64 }
        ensures { result ≡ with_lid self index }
    {
        LidSet {
            bits: self.bits | 1 << index,
        }
    }

    /// Returns the LIDs that are in `self` or `other`.
    pub(crate) fn or(self, other: LidSet) -> Self
        ensures { result ≡ either self other }
    {
        LidSet {
            bits: self.bits | other.bits,
        }
    }

    /// Returns the LIDs that are in `self` and `other`.
    pub(crate) fn and(self, other: LidSet) -> Self
        ensures { result ≡ both self other }
    {
        LidSet {
            bits: self.bits & other.bits,
        }
    }

    /// Returns whether `self` has the LID at `index`.
    pub(crate) fn has(self, index: usize) -> bool
        requires { index < 64 }
        ensures { result ≡ has self index }
    {
        (self.bits >> index) & 1 == 1
    }
}
