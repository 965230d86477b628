//! The laws of the LIDs that are assigned.
ghost use Rattle.lid_assign.specs.LidLaws.{LidsLaw, LidsAreUnique, NoRoomAtLmc0, NoRoomLaw, OthersRise};
ghost use Rattle.lid_assign.specs.LidLaws.{OwnersAreInverse, RisingLidsLaw};
ghost use Rattle.lid_assign.specs.Ranges.{RangesLaw};
ghost use Rattle.lid_assign.specs.Stability.{LidsSettle, LidsStay};

/// For ranges that are not empty, the tests `is_in`, `meets` and `fits` agree with `IsIn`, `IsInBoth` and `Fits`.
pub fn ranges_law()
    ensures { RangesLaw }
{}

/// If each end port finds a LID, each has one LID, whose range fits below the room, and no two ranges have a number in
/// common. An end port keeps its claim if the claim's range fits, and has no number in common with a fitting range that
/// an earlier end port claims. Each other end port has the least number whose range fits and has no number that was
/// taken before.
pub fn lids_law()
    ensures { LidsLaw }
{}

/// Only the LIDs that are assigned satisfy `AreLids`.
pub fn lids_are_unique()
    ensures { LidsAreUnique }
{}

/// Some end port finds no LID exactly when no LIDs satisfy `AreLids`.
pub fn no_room_law()
    ensures { NoRoomLaw }
{}

/// Under LMC 0, some end port finds no LID exactly when the view has an end port and the number of end ports is at
/// least the room.
pub fn no_room_at_lmc_0()
    ensures { NoRoomAtLmc0 }
{}

/// The end ports that keep no claim and have the same width have rising LIDs, in the order of end ports.
pub fn others_rise()
    ensures { OthersRise }
{}

/// If each end port finds a LID, an end port is the owner of a number exactly when the end port has a LID whose range
/// has the number.
pub fn owners_are_inverse()
    ensures { OwnersAreInverse }
{}

/// The rising LIDs are the LIDs that are assigned, each once.
pub fn rising_lids_law()
    ensures { RisingLidsLaw }
{}

/// If each end port finds a LID, and claims are replaced by the LIDs that the end ports have, then each still finds a
/// LID, and all LIDs stay. Ports that are not end ports may claim anything.
pub fn lids_settle()
    ensures { LidsSettle }
{}

/// If a later view grows from an earlier view (`GrowsFrom`) and all end ports of both find LIDs, each end port of the
/// earlier view keeps its LID. The later view grows from the earlier one if the following holds. It has the earlier
/// end ports, and each of these claims the LID that it has under the earlier view. All other end ports claim nothing
/// or 0. The room of the later view is above the greatest number that an end port has under the earlier view.
pub fn lids_stay()
    ensures { LidsStay }
{}
