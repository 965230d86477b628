//! The laws of audits.
ghost use Rattle.table_laws.specs.AuditLaws.{MissedPacketsMiss, PassingAuditsDeliver, PassingAuditsKnowAll, PlansPass};

/// Under each rule and each LMC, the tables of a view's plan pass an audit against this view, if three conditions hold:
/// the facts are in range; there is room for the LIDs; and the type of each node that the view names is known and, for
/// a switch, the table room too. Then each end port has a LID. If there is an end port, each usable switch has tables.
/// Each packet that an end port sends to a LID of its component arrives. Channels can be numbered so that the numbers
/// rise along every route.
pub fn plans_pass()
    ensures law { PlansPass }
{}

/// If tables pass an audit against facts, the facts have the type and the number of ports of each node that a fact
/// names and, for a switch, the table room too. Each port that a fact names has a wire that both ends report, is
/// known to be down and is not port 0, or is a switch's port 0 whose port GUID is known, unless the audit's lines
/// `unjoined` list or count the port. A fact, disputed or not, names the node and the port that it is about. A known
/// link also names the node and the port at its far end. The fact that a node is a switch also names port 0 of the
/// node.
pub fn passing_audits_know_all()
    ensures law { PassingAuditsKnowAll }
{}

/// Each packet between end ports of a part is delivered at the end port that holds its LID, if three conditions hold:
/// facts describe the part, which is all that is joined to an end port of a fabric; the part holds the tables; and the
/// tables pass an audit against the facts.
pub fn passing_audits_deliver()
    ensures law { PassingAuditsDeliver }
{}

/// A packet between end ports of a part, for a LID other than 0, is not delivered at the end port that holds its LID,
/// if three conditions hold: facts describe the part, which is all that is joined to an end port of a fabric; the part
/// holds the tables; and an audit of the tables against the facts counts the packet as not arriving.
pub fn missed_packets_miss()
    ensures law { MissedPacketsMiss }
{}
