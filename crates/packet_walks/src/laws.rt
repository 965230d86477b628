//! Laws about where packets end under the held tables.
ghost use Rattle.packet_walks.specs.Fabrics.{PacketsEndAsTold, PacketsEndAsToldInParts};
ghost use Rattle.packet_walks.specs.HopsByTables.{EndsAreFound};
ghost use Rattle.held_tables.specs.Owners.{SoleOwnersAreAlone};

/// A packet that an end port sends for a LID has exactly one end under the held tables: the end that it has reached
/// after as many steps as there are usable switches, or a loop forever if it has reached no end by then.
pub fn ends_are_found()
    ensures law { EndsAreFound }
{}

/// If the facts describe a fabric exactly and the fabric holds the tables, each packet that an end port sends to a
/// LID other than 0 ends as `LidCursor::ends` says. The packet is delivered at the port that is given as its end, or
/// is lost if no port is given.
pub fn packets_end_as_told()
    ensures law { PacketsEndAsTold }
{}

/// If the facts describe a part of a fabric and the part holds the tables, each packet that an end port of the part
/// sends to a LID other than 0 ends as `LidCursor::ends` says. The part is all that is joined to some end port. The
/// rest of the fabric may be anything.
pub fn packets_end_as_told_in_parts()
    ensures law { PacketsEndAsToldInParts }
{}

/// If an end port owns a LID under the tables, each owner of the LID is this end port exactly when the list of owners
/// has this end port once and nothing else. Lines may repeat the LID with the end port.
pub fn sole_owners_are_alone()
    ensures law { SoleOwnersAreAlone }
{}
