//! The laws of what subnet administration tells.
ghost use Rattle.sa_answers.specs.AnswerLaws.{AnswersAreTheRequests, DoneIfTold};
ghost use Rattle.sa_answers.specs.AnsweredRequests.{PathsAreTold, SomePathIsTold};
ghost use Rattle.sa_answers.specs.MemberLaws.{BroadcastIsJoined, JoinedPortsAreAdapters};
ghost use Rattle.sa_answers.specs.PathLaws.{PathsToldAreHeld};
ghost use Rattle.sa_answers.specs.RecordLaws.{NodesAreTold, NodesToldAreThePlans, PortsAreTold, PortsToldAreThePlans};

/// An answer has the request's TransactionID, attribute, modifier and component mask, and the method that answers the
/// request's.
pub fn answers_are_the_requests()
    ensures { AnswersAreTheRequests }
{}

/// The status of an answer is 0 exactly if a record, or ClassPortInfo, is told, or, for a request for a table, if no
/// record is as it asks.
pub fn done_if_told()
    ensures { DoneIfTold }
{}

/// If a part of a fabric holds the plan, and the facts describe it, it holds each path that is told from an end port
/// there. Packets arrive there and back, and MTU and rate are the least that a port on the way lets through.
pub fn paths_told_are_held()
    ensures { PathsToldAreHeld }
{}

/// If a part of a fabric holds the plan, and the plan's facts and those that are told of describe it, a request for
/// the path between two of its end ports is answered with that path, if it suits the request. The request names each
/// end port by one of its LIDs, by a GID that no other end port of the plan has, or by both. If the path does not
/// suit, the request is refused, since there is no such record.
pub fn paths_are_told()
    ensures { PathsAreTold }
{}

/// Some such request is answered with a path between two different end ports: in a triangle of switches, one that gives
/// the GID of an adapter and the second LID of another.
pub fn some_path_is_told()
    ensures { SomePathIsTold }
{}

/// A node that is told is that of the only end port with a LID of the plan that is as the request asks: with its first
/// LID by the plan, and by the facts its port GUID, and the type and the number of ports of its node.
pub fn nodes_told_are_the_plans()
    ensures { NodesToldAreThePlans }
{}

/// If exactly one end port with a LID of the plan is as a request for a node asks, and the request does not ask for a
/// NodeDescription, a node is told.
pub fn nodes_are_told()
    ensures { NodesAreTold }
{}

/// A port that is told is one of the owner of the LID in the request. It has the PortInfo that the sweep read, with
/// LID, LMC and MasterSMLID as the plan writes them, without the M_Key, and with the link-local prefix if it had none.
pub fn ports_told_are_the_plans()
    ensures { PortsToldAreThePlans }
{}

/// If the sweep kept the PortInfo of a port, a request for it, by a LID of its end port and by its number alone, is
/// answered with that port. A request for the port of an adapter may leave out the number.
pub fn ports_are_told()
    ensures { PortsAreTold }
{}

/// A port that is told that it joined a multicast group is a port of an adapter that the plan gives a LID, and the
/// manager writes the multicast tree, whose LID it is told.
pub fn joined_ports_are_adapters()
    ensures { JoinedPortsAreAdapters }
{}

/// If the manager writes the multicast tree, a request for the broadcast group by MGID, PortGID, P_Key and JoinState, of
/// an adapter port that the plan gives a LID, is answered with the membership that it asks for.
#[tactic(auto, using(crate::proofs::Members::broadcast_is_joined))]
pub fn broadcast_is_joined()
    ensures { BroadcastIsJoined }
{}
