//! The laws of a step by an order of switches.
ghost use Rattle.next_tables.specs.OrderedStepLaws.{AllAreStep, AllEndByOrder, AllFollowTheRule, EndInTheGoal};
ghost use Rattle.next_tables.specs.OrderedStepLaws.{EndInTwiceAsMany, EndRightByAny, HealByOrder, NextAreRight};
ghost use Rattle.next_tables.specs.OrderedStepLaws.{NextDeliverOrDropByOrder, NoBadTurn, NoCycleByOrder, NoneIsLostByOrder};
ghost use Rattle.next_tables.specs.Rightness.{RightnessIsTold};
ghost use Rattle.next_tables.specs.OrderedStepLaws.{NumbersRiseByOrder, OrderedTablesAreNext, PacketsArriveByOrder};
ghost use Rattle.next_tables.specs.OrderedStepLaws.{RuleIsChoice, RuleIsTried};

/// If the held tables and the goal are right by the order, no packet goes down and then up again under any mixtures
/// of the held and the next tables.
pub fn no_bad_turn()
    ensures law { NoBadTurn }
{}

/// If the held tables and the goal are right by the order, the next tables are right by this order, too.
pub fn next_are_right()
    ensures law { NextAreRight }
{}

/// In a step whose held tables and goal are right by the order, the channels' numbers by the order rise from each
/// channel to the channels that it can wait for.
pub fn numbers_rise_by_order()
    ensures law { NumbersRiseByOrder }
{}

/// In a step whose held tables and goal are right by the order, channels never wait in a credit loop, whatever the
/// mixtures of the held and the next tables.
pub fn no_cycle_by_order()
    ensures law { NoCycleByOrder }
{}

/// By the rule of an order, each next entry is the held entry, or 255, or the goal's entry, which then makes no bad
/// turn with held entries (`IsChoice`).
pub fn rule_is_choice()
    ensures law { RuleIsChoice }
{}

/// By the rule of an order, each next entry is the tried one, or 255 if the packet does not arrive from the switch
/// along the tried entries.
pub fn rule_is_tried()
    ensures law { RuleIsTried }
{}

/// If the held tables and the goal are right by the order for a LID and have the same owners of the LID, a packet for
/// the LID that the held tables deliver is delivered at the same end port under any loose mixtures (`IsLoose`) of the
/// held and the next tables. The mixture may change while the packet travels.
pub fn none_is_lost_by_order()
    ensures law { NoneIsLostByOrder }
{}

/// In steps by an order (`AreStepsByOrder`), a switch from which the goal delivers has the goal's entry after at
/// least as many steps as the switch's depth (`IsDepth`), and the tables then deliver from the switch.
pub fn end_in_the_goal()
    ensures law { EndInTheGoal }
{}

/// In steps by an order (`AreStepsByOrder`), each switch from which the goal delivers has the goal's entry after 2n
/// or more steps, where n is the number of switches, and the tables then deliver from the switch.
pub fn end_in_twice_as_many()
    ensures law { EndInTwiceAsMany }
{}

/// In steps by an order (`AreStepsByOrder`), each packet that arrives under the goal arrives after 2n or more steps,
/// where n is the number of switches.
pub fn heal_by_order()
    ensures law { HealByOrder }
{}

/// If steps by an order (`AreStepsByOrder`) take exactly the next entries, and the goal delivers from each switch
/// from which the first tables send packets straight to the end port, then the tables after 2n or more steps (at
/// least one), where n is the number of switches, are right by every order by which the goal is right.
pub fn end_right_by_any()
    ensures law { EndRightByAny }
{}

/// If the held tables and the goal are right by the order for a LID, every packet for the LID, wherever it is sent,
/// ends under any mixtures of the held and the next tables: none loops.
pub fn all_end_by_order()
    ensures law { AllEndByOrder }
{}

/// If a LID has the same owners in the held tables and in the goal, each switch delivers packets for the LID under
/// the next tables or has no entry (255) for it.
pub fn next_deliver_or_drop_by_order()
    ensures law { NextDeliverOrDropByOrder }
{}

/// If the held tables and the goal are right by the order for every LID, the next tables for all LIDs, including LIDs
/// that are new or gone, are a step by the order (`IsStep`) and are right by the order.
pub fn all_are_step()
    ensures law { AllAreStep }
{}

/// The tables that `next_tables` returns by an order have the goal's owners of each LID and, at each usable switch,
/// the next entry by the order for each LID.
pub fn ordered_tables_are_next()
    ensures law { OrderedTablesAreNext }
{}

/// `are_right` is true exactly when tables are right by an order for every LID.
pub fn rightness_is_told()
    ensures law { RightnessIsTold }
{}

/// Next tables by an order have the next entries by the order for each LID that one end port alone holds in the held
/// tables and in the goal.
pub fn all_follow_the_rule()
    ensures law { AllFollowTheRule }
{}

/// A packet for a LID other than 0 that the held tables deliver is delivered at the same end port while the fabric's
/// switches change to the next tables, each at its own time, if three conditions hold: the held tables and the goal are
/// right by the order for the packet's LID and have the same owners of the LID; the facts describe a part of the
/// fabric; and the part holds the held tables when the change begins. The part is all that is joined to some end port,
/// and one of the part's end ports sends the packet. The packet takes at most 2n + 1 wires, where n is the number of
/// usable switches.
pub fn packets_arrive_by_order()
    ensures law { PacketsArriveByOrder }
{}
