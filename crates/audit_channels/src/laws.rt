//! The laws of channels that follow or wait for each other.
ghost use Rattle.audit_channels.specs.Fabrics.{ChannelsRise};
ghost use Rattle.audit_channels.specs.ChannelOrders.{NoCycleWhereNumbersRise};
ghost use Rattle.audit_channels.specs.Waiting.{NeverBoth};

/// If channels can have numbers that rise from each channel to those that follow it, there is no cycle of channels.
pub fn no_cycle_where_numbers_rise()
    ensures law { NoCycleWhereNumbersRise }
{}

/// If the channels can have numbers that rise along the routes of packets for all LIDs, according to facts and held
/// tables, no channels wait for each other in a cycle.
pub fn never_both()
    ensures law { NeverBoth }
{}

/// If the facts describe a part of a fabric, the part's end ports and switches hold the tables, and numbers of
/// channels rise according to facts and tables, then a packet that an end port of the part sends for a LID other than
/// 0 takes channels with rising numbers, wire after wire. The part is all that is joined to some end port.
pub fn channels_rise()
    ensures law { ChannelsRise }
{}
