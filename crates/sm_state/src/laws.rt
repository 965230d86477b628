//! The laws of managers' states.
ghost use Rattle.sm_state.specs.Precedence.{WinsIsAnOrder};
ghost use Rattle.sm_state.specs.Election.{PolledLaw, SuccessorLaw};
ghost use Rattle.sm_state.specs.StateLaws.{HandoversAreTaken, MastersStay, NothingElseMoves, OthersAreTold};
ghost use Rattle.sm_state.specs.StateLaws.{StatesAreNumbered};

/// Of two managers that differ in priority or GUID, one wins over the other. No manager wins over itself. If one
/// manager wins over a second, and the second over a third, the first wins over the third.
pub fn wins_is_an_order()
    ensures { WinsIsAnOrder }
{}

/// If the table of states has no move for an event from a manager's state, the event does not change the state, and
/// the manager sends nothing.
pub fn nothing_else_moves()
    ensures { NothingElseMoves }
{}

/// A master leaves its state only if it receives ACKNOWLEDGE, which makes it Standby, or DISCOVER, which makes it
/// Discovering.
pub fn masters_stay()
    ensures { MastersStay }
{}

/// A manager sends ACKNOWLEDGE only in response to a HANDOVER, and is then master.
pub fn others_are_told()
    ensures { OthersAreTold }
{}

/// A manager that answers a HANDOVER with status 0 is then master, so no HANDOVER with that answer leaves the subnet
/// without a master.
pub fn handovers_are_taken()
    ensures { HandoversAreTaken }
{}

/// The number of a manager's state (SMInfo: SMState) is read as that state.
pub fn states_are_numbered()
    ensures { StatesAreNumbered }
{}

/// The successor of a manager wins over each candidate that was seen before the successor, and no candidate that was
/// seen later wins over the successor. If there is no successor, there is no candidate.
#[tactic(auto, using(crate::proofs::Successors::successor_law))]
pub fn successor_is_the_first_of_the_greatest()
    ensures { SuccessorLaw }
{}

/// The manager to poll was seen, and outranks the manager that polls. If there is no manager to poll, no manager that
/// was seen outranks the one that polls.
#[tactic(auto, using(crate::proofs::WhomToPoll::polled_law))]
pub fn polled_managers_outrank()
    ensures { PolledLaw }
{}
