//! The laws of channels by lane.
ghost use Rattle.lane_channels.specs.LaneLaws.{AllCarried, LaneChannelsRise, NeverBothByLane, OneLaneSuffices};

/// If numbers of channels on one lane rise under the held tables, then channels by lane also have numbers that rise,
/// whatever the lanes and service levels are.
#[tactic(auto, using(crate::proofs::LaneLaws::one_lane_suffices))]
pub fn one_lane_suffices()
    ensures law { OneLaneSuffices }
{}

/// If channels by lane have numbers that rise under the held tables, then no channels by lane wait for each other in
/// a credit loop.
#[tactic(auto, using(crate::proofs::LaneLaws::never_both_by_lane))]
pub fn never_both_by_lane()
    ensures law { NeverBothByLane }
{}

/// If the text gives a lane below 15 to each packet that has a service level, then no packet is dropped for want of a
/// lane, whatever the tables.
#[tactic(auto, using(crate::proofs::LaneLaws::all_carried))]
pub fn all_carried()
    ensures law { AllCarried }
{}

/// A packet that an end port of a part sends, for any LID at a service level that it has, takes channels by lane with
/// rising numbers, wire after wire, as long as it is not dropped, if three conditions hold: numbers of channels by lane
/// rise according to facts, tables and lanes; the facts describe the part; and the part's end ports and switches hold
/// the tables and the lanes. The part is all that is joined to some end port. The packet's level is its own or, with
/// answers, that of a packet that it answers.
pub fn lane_channels_rise()
    ensures law { LaneChannelsRise }
{}
