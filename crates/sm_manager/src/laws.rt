//! Laws of a manager's whole life.
ghost use Rattle.sm_manager.specs.HandoverLaws.{HandoversLeaveAMaster};
ghost use Rattle.sm_manager.specs.StepsAnswered.{WrittenIsEachStepDone};
ghost use Rattle.sm_manager.specs.CallLists.{KnowsWhatItTookIn, SameTakenInSamePlan};
ghost use Rattle.sm_manager.specs.PollLaws.{AnswersReachPolls};

/// After any calls in any order, a manager's facts are the view, at its greatest floor, of all the sightings that it
/// took in. These are the sightings of the reports that it accepted and of the stores that it merged. The manager's
/// floors are 1, those that `raise_floor` was given, and those of the merged stores.
#[tactic(auto, using(crate::proofs::Lives::knows_what_it_took_in))]
pub fn knows_what_it_took_in()
    ensures { KnowsWhatItTookIn }
{}

/// If two managers took in the same sightings, have the same greatest floor, and plan by the same rule and LMC, they
/// hold equal sets of facts and plan equal LIDs and forwarding blocks, whatever else happened to them. If the LIDs
/// have room, these facts describe exactly the part that an end port is joined to, and that part holds the plan, each
/// packet from an end port of the part for a LID of the plan arrives at the end port that owns the LID.
#[tactic(auto, using(crate::proofs::Lives::same_taken_in_same_plan))]
pub fn same_taken_in_same_plan()
    ensures { SameTakenInSamePlan }
{}

/// If a writing begins after any calls and no other writing follows, the plan is written exactly when as many steps
/// of its phases that count were answered with status 0 as these phases have. An answer to a step ends the step, so
/// no step is counted twice.
pub fn written_is_each_step_done()
    ensures { WrittenIsEachStepDone }
{}

/// If nothing else moves the sender or the receiver of a HANDOVER meanwhile, one of the two is master once the sender
/// knows how the HANDOVER was answered. The sender stays master unless the answer has status 0, and a receiver that
/// answers with status 0 has taken over.
pub fn handovers_leave_a_master()
    ensures { HandoversLeaveAMaster }
{}

/// A response to a poll, by LIDs or along a path of at most 63 hops, with any status and data, is taken as the answer
/// to that poll, and not as a reply to a sweep.
#[tactic(auto, using(crate::proofs::PollAnswers::answers_reach_polls))]
pub fn answers_reach_polls()
    ensures { AnswersReachPolls }
{}
