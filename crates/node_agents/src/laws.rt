//! The laws of agents: what no request changes, what an answer is, and what a Set does.
ghost use Rattle.node_agents.specs.AnswerLaws.{AgentsAreMade, AnsweredIsAgent, AnsweredKeepsShape, AnswersHold};
ghost use Rattle.node_agents.specs.AnswerLaws.{AnswersSay, GetsChangeNothing, RefusalsChangeNothing};
ghost use Rattle.node_agents.specs.AnswerLaws.{GetsTellAsSets, BlocksAreSet, MasksAreSet, TopsAreSet, PortsAreSet};

/// If a node can be built and has a description of 64 bytes, the agent that is made for it satisfies the invariant of
/// agents (`IsAgent`). An agent keeps this invariant if a port other than port 0 is wired or unwired, or if a subnet
/// manager is seated at an adapter's port.
#[tactic(auto, using(crate::proofs::Made::agents_are_made))]
pub fn agents_are_made()
    ensures { AgentsAreMade }
{}

/// An agent keeps the invariant of agents (`IsAgent`), whatever it answers.
#[tactic(auto, using(crate::proofs::Shapes::answered_is_agent))]
pub fn answered_is_agent()
    ensures { AnsweredIsAgent }
{}

/// No request changes the node, which ports are down, or where subnet managers sit.
#[tactic(auto, using(crate::proofs::Shapes::answered_keeps_shape))]
pub fn answered_keeps_shape()
    ensures { AnsweredKeepsShape }
{}

/// An answer to a packet without a fault has the method GetResp, the D bit if it is directed, and the status and the
/// attribute that the agent gives; all else is as in the request.
pub fn answers_hold()
    ensures { AnswersHold }
{}

/// If the answer to a request that arrived at a port up to the port count has status 0, what it says of the node is
/// true: what the node is, whether a port is down, and the size of its forwarding table.
#[tactic(auto, using(crate::proofs::Says::answers_say))]
pub fn answers_say()
    ensures { AnswersSay }
{}

/// A Get leaves the agent as it was.
#[tactic(auto, using(crate::proofs::Told::gets_change_nothing))]
pub fn gets_change_nothing()
    ensures { GetsChangeNothing }
{}

/// A request whose answer has a status other than 0 leaves the agent as it was.
#[tactic(auto, using(crate::proofs::Told::refusals_change_nothing))]
pub fn refusals_change_nothing()
    ensures { RefusalsChangeNothing }
{}

/// If a Set is accepted, a Get right after it, with the same attribute and modifier and at the same port, returns
/// what the answer to the Set returned.
pub fn gets_tell_as_sets()
    ensures { GetsTellAsSets }
{}

/// If a Set of a forwarding block is accepted, the answer returns this block, and the table has it at its offset.
/// Nothing else changes.
#[tactic(auto, using(crate::proofs::Sets::blocks_are_set))]
pub fn blocks_are_set()
    ensures { BlocksAreSet }
{}

/// If a Set of a multicast block is accepted, the answer returns this block, and the multicast table has it at its
/// position. Nothing else changes.
#[tactic(auto, using(crate::proofs::Sets::masks_are_set))]
pub fn masks_are_set()
    ensures { MasksAreSet }
{}

/// If a Set of SwitchInfo is accepted, the answer returns the LinearFDBTop of the Set, and the agent has this top.
/// Nothing else changes.
#[tactic(auto, using(crate::proofs::Sets::tops_are_set))]
pub fn tops_are_set()
    ensures { TopsAreSet }
{}

/// If a Set of PortInfo arrived at a port up to the port count and is accepted, the answer returns the state of the
/// Set, unless that is 0 (no change). If the port that it is about has a LID of its own, this port has the LID and
/// the LMC of the Set, and the answer returns them. No other port changes, and nothing in the agent changes except
/// its ports.
pub fn ports_are_set()
    ensures { PortsAreSet }
{}
