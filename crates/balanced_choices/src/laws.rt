//! The laws of choices and of loads.
ghost use Rattle.balanced_choices.specs.FirstLoadsLaw.{FirstLoadsLaw};
ghost use Rattle.balanced_choices.specs.LeastPeakLaw.{LightestIsLeast};
ghost use Rattle.balanced_choices.specs.LightestLaw.{BalancedAreLightest};

/// If a position has a candidate, and no way of its candidates has a peak load over 2^64 - 1, new choices take its
/// first candidate whose way has the least peak load.
pub fn lightest_is_least()
    ensures { LightestIsLeast }
{}

/// Balanced choices are the first choices, or those of a round of new choices that was made; no such choices give a
/// lower greatest load, and no earlier ones an equal.
pub fn balanced_are_lightest()
    ensures { BalancedAreLightest }
{}

/// By first choices, a channel carries the packets whose ways take it, from each position to each end, but at most
/// 2^64 - 1 of them.
pub fn first_loads_law()
    ensures { FirstLoadsLaw }
{}
