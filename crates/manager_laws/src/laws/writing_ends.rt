//! Laws of how a writing ends, and that the agents take its Sets.
ghost use Rattle.manager_laws.specs.OwnSetsTaken.{AnsweredPlansAreWritten, OwnSetsAreTaken};
ghost use Rattle.manager_laws.specs.OwnSetsTaken.{PingsArriveOnceAnswered, SomeSetsAreAnswered};
ghost use Rattle.manager_laws.specs.WritingEnds.{AnswersEndRequests, WritingsAskFew, WritingsEnd};

/// From the beginning of a writing on, a manager queues each Set of its plan once at most, in order, and no other Set
/// along a directed route, except of SMInfo. So these Sets are at most as many as the plan has steps, and each has a
/// TransactionID of its own. Any calls may follow in any order, with any packets, as long as none of them begins
/// another writing. The plan is that of the facts that the manager has when the writing begins, along the paths of its
/// last sweep: a later sweep changes nothing of the steps that are still to be sent.
pub fn writings_ask_few()
    ensures { WritingsAskFew }
{}

/// A writing is over exactly if as many of its steps have ended as its plan has, and no more end. Then each Set of the
/// plan has been queued. Until then a step waits, and each step that waits is ended by its timeout exactly if numbers
/// are left for the steps that are sent then: once the manager has used 2^32 numbers, the last step of a phase does not
/// end. If numbers are left for all steps that are still to be sent, one timeout for each step that has not ended
/// brings the writing to its end. Whatever else happens is as in `writings_ask_few`.
pub fn writings_end()
    ensures { WritingsEnd }
{}

/// Only its answer or its timeout ends a request outside sweeps. A call ends at most one of them.
pub fn answers_end_requests()
    ensures { AnswersEndRequests }
{}

/// In a writing run, each agent takes the writing's own LID, block and top Sets, if the manager held no facts when its
/// sweep began, and learned nothing else until the writing. The answer has status 0, whenever after the writing began,
/// and in whatever state the agent then is. The run is as in `manager_laws::laws::written_plans_are_held`. The sweep
/// need not have every answer.
pub fn own_sets_are_taken()
    ensures { OwnSetsAreTaken }
{}

/// Under the premises of `own_sets_are_taken`, the plan counts as written once each of these Sets was answered,
/// whatever the answers say. Answered means: none has timed out, none is outstanding, and none is still to be sent.
pub fn answered_plans_are_written()
    ensures { AnsweredPlansAreWritten }
{}

/// In `pings_arrive_once_written`, it is enough that each LID, block and top Set was answered, in place of the last
/// condition.
pub fn pings_arrive_once_answered()
    ensures { PingsArriveOnceAnswered }
{}

/// Some manager that brings its subnet up, the one of `manager_laws::laws::some_manager_brings_up`, has each of its
/// LID, block and top Sets answered.
pub fn some_sets_are_answered()
    ensures { SomeSetsAreAnswered }
{}
