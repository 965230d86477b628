//! Sets of targets.
ghost use Rattle.std.specs.Prelude.{◌≡◌, ◌↔◌, ◌<◌, ◌&&◌, ◌||◌, ◌==◌, true, false, not, IsTrue, MatchOption};
ghost use Rattle.spread_labels.specs.TargetSet.{EachTarget, has, no_targets};

/// The greatest number of targets in a set.
pub const TARGETS: usize = 64;

/// A set of targets, which are numbers from 0 to 63. Each target has one bit.
#[derive(Clone, Copy, Debug, PartialEq, Eq)]
pub struct TargetSet {
    bits: u64,
}

impl TargetSet {
    /// Returns the empty set of targets.
    pub fn none() -> Self
        ensures none { EachTarget (λ k. has result k ≡ false) }
        ensures is { result ≡ no_targets }
    {
        TargetSet { bits: 0 }
    }

    /// Returns this set with `target` added.
    pub(crate) fn with(self, target: usize) -> Self
        requires { target < 64 }
        ensures { EachTarget (λ k. has result k ≡ ((k == target) || has self k)) }
    {
        TargetSet {
            bits: self.bits | 1 << target,
        }
    }

    /// Returns the union of this set and `other`.
    pub fn or(self, other: TargetSet) -> Self
        ensures { EachTarget (λ k. has result k ≡ (has self k || has other k)) }
    {
        TargetSet {
            bits: self.bits | other.bits,
        }
    }

    /// Returns the intersection of this set and `other`.
    pub(crate) fn and(self, other: TargetSet) -> Self
        ensures { EachTarget (λ k. has result k ≡ (has self k && has other k)) }
    {
        TargetSet {
            bits: self.bits & other.bits,
        }
    }

    /// Returns the targets of this set that are not in `other`.
    pub(crate) fn without(self, other: TargetSet) -> Self
        ensures { EachTarget (λ k. has result k ≡ (has self k && not (has other k))) }
    {
        TargetSet {
            bits: self.bits & !other.bits,
        }
    }

    /// Returns whether the set is empty.
    pub(crate) fn is_empty(self) -> bool
        ensures { IsTrue result ↔ EachTarget (λ k. has self k ≡ false) }
    {
        self.bits == 0
    }

    /// Returns whether this set and `other` are equal.
    pub(crate) fn is_same(self, other: TargetSet) -> bool
        ensures { IsTrue result ↔ EachTarget (λ k. has self k ≡ has other k) }
    {
        self.bits == other.bits
    }

    /// Returns whether `target` is in the set. `target` must be less than 64.
    pub fn has(self, target: usize) -> bool
        requires { target < 64 }
        ensures { result ≡ has self target }
    {
        (self.bits >> target) & 1 == 1
    }

    /// Returns the least target in the set, or `None` if the set is empty.
    pub(crate) fn first(self) -> Option<usize>
        ensures { MatchOption result (EachTarget (λ k. has self k ≡ false))
            (λ target. (target < 64) × (has self target ≡ true)) }
    {
        if self.bits == 0 {
            None
        } else {
            Some(self.bits.trailing_zeros() as usize)
        }
    }

    /// Returns this set without `target`.
    pub(crate) fn but(self, target: usize) -> Self
        requires target { target < 64 }
        requires among { has self target ≡ true }
        ensures others { EachTarget (λ k. has result k ≡ (has self k && not (k == target))) }
        ensures less { result.bits < self.bits }
    {
        TargetSet {
            bits: self.bits & !(1 << target),
        }
    }
}
