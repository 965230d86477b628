//! The laws of decisions.
ghost use Rattle.sm_policy.specs.PolicyLaws.{DoesNothingTwice, JudgesAsMaster, NeverWaitsLong, WaitsUntilDue};
ghost use Rattle.sm_policy.specs.PolicyLaws.{WritesAPlan};

/// A manager that rests does something if something is due, and otherwise waits.
#[tactic(auto, using(crate::proofs::Due::waits_until_due))]
pub fn waits_until_due()
    ensures { WaitsUntilDue }
{}

/// A manager that rests does nothing twice at the same time, if the period of its polls is not 0 and the time is below
/// 2^64 - 1: after a poll or an announcement the next one is due later, and after a sweep began it does not rest.
#[tactic(auto, using(crate::proofs::Due::does_nothing_twice))]
pub fn does_nothing_twice()
    ensures { DoesNothingTwice }
{}

/// Whatever happened to a manager, at times that do not fall, what it does once it rests is due within ten seconds of
/// the last news, or within its period or that of its polls if these are longer, unless another manager has disabled
/// it.
#[tactic(auto, using(crate::proofs::Prompt::never_waits_long))]
pub fn never_waits_long()
    ensures { NeverWaitsLong }
{}

/// A manager judges its plan only as master, only if it saw no other master or has offered the subnet to the one that
/// it saw, and only after a sweep that has every answer, or several that had not. It did not stand still while that
/// sweep ran.
#[tactic(auto, using(crate::proofs::Judging::judges_as_master))]
pub fn judges_as_master()
    ensures { JudgesAsMaster }
{}

/// A plan that was judged is written only if there is one.
#[tactic(auto, using(crate::proofs::Judging::writes_a_plan))]
pub fn writes_a_plan()
    ensures { WritesAPlan }
{}
