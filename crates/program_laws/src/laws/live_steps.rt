//! The laws of steps that live managers write while packets travel.
ghost use Rattle.program_laws.specs.Between.{AnswersKeepBetween};
ghost use Rattle.program_laws.specs.LiveStep.{KeptLinesAreSteps, PacketsArriveInLiveSteps};
ghost use Rattle.program_laws.specs.LiveStep.{PacketsArriveInOrderedLiveSteps};
ghost use Rattle.program_laws.specs.OwnSets.{OwnSetsCarry};
ghost use Rattle.program_laws.specs.StepPlan.{StepPlansHaveNextBlocks};

/// While a step by settled entries is written live, a packet that an end port of the part sends for a LID of the
/// written block, and that the held tables deliver, is delivered at the same port and nowhere else, along at most 2n +
/// 1 wires, for n usable switches, whatever moments of the step it meets, if two conditions hold: the LID is from 1 to
/// the plan's greatest; and one end port alone holds it, the same one in the held tables and in the goal.
pub fn packets_arrive_in_live_steps()
    ensures { PacketsArriveInLiveSteps }
{}

/// While a step by an order is written live, a packet that an end port of the part sends for a LID of the written
/// block, and that the held tables deliver, is delivered at the same port and nowhere else, along at most 2n + 1
/// wires, for n usable switches, whatever moments of the step it meets, if two conditions hold: the LID is from 1 to
/// the plan's greatest; and for this LID and this port the step is one by that order (`IsLineStep`).
pub fn packets_arrive_in_ordered_live_steps()
    ensures { PacketsArriveInOrderedLiveSteps }
{}

/// The next tables by an order are a step by that order for a LID (`IsLineStep`) if two conditions hold: one end port
/// alone holds the LID, the same one in the held tables and in the goal; and both are right by the order for the LID.
pub fn kept_lines_are_steps()
    ensures { KeptLinesAreSteps }
{}

/// An agent that is between what it was and a plan is so after its answer to a packet, if the plan's blocks are whole,
/// and the packet carries the plan's values or is no Set that the agent takes.
pub fn answers_keep_between()
    ensures { AnswersKeepBetween }
{}

/// Each Set that an agent takes carries the values of a plan, whatever plan it is, if each of these Sets carries them
/// or is a manager's own Set of a block of the plan, and the paths by which the manager sends lead to their switches.
pub fn own_sets_carry()
    ensures { OwnSetsCarry }
{}

/// By each rule of steps, the plan of a step has whole blocks and, for each usable switch and up to its next top, the
/// entries of the next tables for LIDs from 1.
pub fn step_plans_have_next_blocks()
    ensures { StepPlansHaveNextBlocks }
{}
