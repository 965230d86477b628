//! The laws of packets and records of subnet administration.
ghost use Rattle.sa_bytes.specs.ReadBack.{MemberReadsBack, NodeReadsBack, PathReadsBack, PortReadsBack};
ghost use Rattle.sa_bytes.specs.ReadBack.{SaAnswerReadsBack};

/// An answer has the request's TransactionID, attribute, modifier and component mask, and the method that answers the
/// request's. It has the status, the AttributeOffset and the record that were given, if they fit, and is the only
/// packet of a table if it has a payload.
pub fn sa_answer_reads_back()
    ensures { SaAnswerReadsBack }
{}

/// If each number of a path fits in its field, the path is read back from the bytes that spell it.
pub fn path_reads_back()
    ensures { PathReadsBack }
{}

/// If each number of a membership fits in its field, the membership is read back from the bytes that spell it.
pub fn member_reads_back()
    ensures { MemberReadsBack }
{}

/// The record of a node has the LID and the NodeInfo that were given.
pub fn node_reads_back()
    ensures { NodeReadsBack }
{}

/// The record of a port has the LID, the number of the port and the PortInfo that were given.
pub fn port_reads_back()
    ensures { PortReadsBack }
{}
