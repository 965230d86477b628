//! The laws of shares and of starts.
ghost use Rattle.trial_loads.specs.ShareLaws.{SharesLaw, TurnsLaw};
ghost use Rattle.trial_loads.specs.StartsLaw.{StartsLaw};

/// Towards a target, each vertex shares out its packets once, at a time when no more packets can reach the vertex.
pub fn turns_law()
    ensures { TurnsLaw }
{}

/// The shares of a vertex's packets, one for each candidate, add up to no more than these packets.
pub fn shares_law()
    ensures { SharesLaw }
{}

/// Orders by depth are tried from eight vertices, or from all if there are fewer, each of which is the first of those
/// that are farthest from the vertices before it.
pub fn starts_law()
    ensures { StartsLaw }
{}
