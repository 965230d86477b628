//! The laws of a manager that decides by itself.
ghost use Rattle.acting_manager.specs.ActingLaws.{ActsAreCalls, DropsAll, GenerationsRise};

/// Whatever a manager that decides by itself is told, and when: what becomes of its manager is what some calls of
/// `Manager` make of it, one after the other.
#[tactic(auto, using(crate::proofs::Reached::acts_are_calls))]
pub fn acts_are_calls()
    ensures { ActsAreCalls }
{}

/// The newest generation of its sweeps never falls, if it fits in 32 bits.
#[tactic(auto, using(crate::proofs::Reached::generations_rise))]
pub fn generations_rise()
    ensures { GenerationsRise }
{}

/// A writing that is given up is dropped whole: no request of it waits or is out then, and none goes out meanwhile.
#[tactic(auto, using(crate::proofs::Dropped::drops_all))]
pub fn drops_all()
    ensures { DropsAll }
{}
