//! The laws of repeated steps: how they end, and that an order of switches keeps them free of credit loops.
ghost use Rattle.table_laws.specs.Calls.{CallsComeToFollow, CallsMakeNoLoop, FollowingCallsEnd, SpreadOrdersGrow};
ghost use Rattle.table_laws.specs.StepEnds.{LastTextIsThePlans, PlansDeliverWhatTablesCan, PrintedStepsEnd};
ghost use Rattle.table_laws.specs.StepEnds.{StepsEnd};
ghost use Rattle.table_laws.specs.StepLaws.{FreeStepsMakeNoLoop, RightTablesMakeNoLoop, StepsHaveOneResult};
ghost use Rattle.table_laws.specs.StepEnds.{WaysMeetAtMostAll};
ghost use Rattle.table_laws.specs.StepLaws.{ToldStepsMakeNoLoop};
ghost use Rattle.table_laws.specs.WholePlans.{PlansAreWhole, PlansGiveOwnLids};

/// After n or more steps by settled entries, `next_tables` returns what it was given, if three conditions hold: n is at
/// least 2; no route of the plan passes more than n switches; and the plan delivers from each switch from which some
/// tables can deliver.
pub fn steps_end()
    ensures law { StepsEnd }
{}

/// The plan of a view with room, under each rule and each LMC, delivers from each switch from which some tables can
/// deliver, at the end port that alone holds the LID in these tables and in the plan.
pub fn plans_deliver_what_tables_can()
    ensures law { PlansDeliverWhatTablesCan }
{}

/// If the held tables are right by the order of the plan's switches, a step of `next` with facts that have room can
/// make no credit loop in any mixture, and the tables that it leads to are right by that order. Tables are right by
/// an order if they send packets for no LID down and then up.
pub fn right_tables_make_no_loop()
    ensures law { RightTablesMakeNoLoop }
{}

/// If `next` finds no credit loop in a step, channels never wait for each other in a cycle while the next tables are
/// written, whatever mixtures of the held and the next tables the switches hold.
pub fn free_steps_make_no_loop()
    ensures law { FreeStepsMakeNoLoop }
{}

/// Equal sets of facts, options, held tables and plans give equal next tables and, if a step goes towards a goal in
/// between, equal goals.
pub fn steps_have_one_result()
    ensures law { StepsHaveOneResult }
{}

/// A step of `next` towards a goal between two orders can make no credit loop in any mixture, and the tables that it
/// leads to are right by the first of these orders, whatever `--last-order` names. A step has such a goal if the held
/// tables are not right by the order of the plan's switches, but imply an order.
pub fn told_steps_make_no_loop()
    ensures law { ToldStepsMakeNoLoop }
{}

/// If there is room for the LIDs, then after enough steps with the same facts, LMC and rule, none of which goes by an
/// order that the held tables imply, `next` prints what it was given, byte for byte. This is so even if LIDs are new or
/// gone, or entries lead nowhere. If n is at least 2 and no route of the plan passes more than n switches, n + 2m
/// + 2 steps are enough, where m is the number of usable switches.
pub fn printed_steps_end()
    ensures law { PrintedStepsEnd }
{}

/// If there is room for the LIDs, at least one end port has a LID, and no usable switch has, in the tables at the
/// start, a top above the greatest LID of the plan, then after enough steps, none of which goes by an order that the
/// held tables imply, `next` prints what `plan` prints.
pub fn last_text_is_the_plans()
    ensures law { LastTextIsThePlans }
{}

/// No route of a plan passes more switches than there are usable switches.
pub fn ways_meet_at_most_all()
    ensures law { WaysMeetAtMostAll }
{}

/// The plan of a view with room is whole, as `handed_steps_end`, `stages_make_whole` and `stages_are_few`
/// (`held_order`) require.
pub fn plans_are_whole()
    ensures law { PlansAreWhole }
{}

/// If the port GUID of port 0 of each usable switch is known, so that this port is an end port, each usable switch
/// has a LID in the plan of a view with room.
pub fn plans_give_own_lids()
    ensures law { PlansGiveOwnLids }
{}

/// One of the first (n - 1) * (2n + 3) calls of `next`, or the one after them, where n is the number of switches, is
/// given tables that are right by the order of the plan's switches. Each call is given the tables that the one before
/// made, and as `--last-order` the order that it told. Four conditions: there is room for the LIDs; the first tables
/// imply an order, and are right by the order that grows by it; the order of the plan's switches grows; and the port
/// GUID of port 0 of each usable switch is known.
pub fn calls_come_to_follow()
    ensures law { CallsComeToFollow }
{}

/// From a call on whose tables are right by the order of the plan's switches, all calls go by that order, and after
/// enough of them a call changes nothing. There must be room for the LIDs.
pub fn following_calls_end()
    ensures law { FollowingCallsEnd }
{}

/// No call of `next` makes a credit loop in any mixture of the tables that it is given and those that it makes, if the
/// tables of the first call imply an order, or are right by the order of the plan's switches, and there is room for
/// the LIDs. Each call is given the tables that the one before made, and as `--last-order` the order that it told.
pub fn calls_make_no_loop()
    ensures law { CallsMakeNoLoop }
{}

/// The order of the switches by which a rule that spreads plans grows, whatever the order is grown by.
pub fn spread_orders_grow()
    ensures law { SpreadOrdersGrow }
{}
