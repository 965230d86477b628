//! The laws of tables between two orders, and of a step towards them.
ghost use Rattle.held_order.specs.Agreement.{
  GoalsAreFew,
  GoalsGoFurther,
  OrdersStay,
  StepsKeepAgreement,
  WholeTablesGrow,
};
ghost use Rattle.held_order.specs.GoalLaws.{
  GoalDelivers,
  GoalEndsRight,
  GoalIsReached,
  GoalReachesAll,
  GoalStandsStill,
  GoalTurnsWell,
};
ghost use Rattle.held_order.specs.GoalLaws.{GoalsAreSafe, GoalsFollowTheRule};
ghost use Rattle.held_order.specs.HandedStages.{
  HandedOrdersStay,
  HandedStepsAreGoalSteps,
  HandedStepsEnd,
  RightTablesHaveGoals,
  StagesAreFew,
  StagesMakeWhole,
};

/// Under the tables between two orders, whatever the orders are, no packet for any LID goes down and then up by the
/// first order or by the second.
pub fn goal_turns_well()
    ensures law { GoalTurnsWell }
{}

/// The tables between two orders deliver packets for a LID, from each switch that has a label, at the first end port
/// that has the LID in the plan, if three conditions hold: the facts are in range; no usable switch has a top below the
/// LID in the plan; and the first order is an order of the switches.
pub fn goal_delivers()
    ensures law { GoalDelivers }
{}

/// The tables between two orders deliver packets for a LID from each switch from which wires lead, directly or via
/// other switches, to a switch whose plan entry leads to the end port, if three conditions hold: the facts are in
/// range; no usable switch has a top below the LID in the plan; and the first order grows, and the second grows along
/// the tree of the first.
pub fn goal_reaches_all()
    ensures law { GoalReachesAll }
{}

/// A step towards the goal of `between` is a step by the goal's first order. Whatever the mixtures of the held and the
/// next tables, no packet goes down and then up by that order, so no channels wait for each other in a credit loop. The
/// next tables are again right by that order.
pub fn goals_are_safe()
    ensures law { GoalsAreSafe }
{}

/// If one end port alone holds a LID in the held tables and in the plan, the next tables towards the goal of
/// `between` are a step of this LID's line by the goal's first order (`IsLineStep`). So no packet for the LID that
/// the held tables deliver is lost under any mixture.
pub fn goals_follow_the_rule()
    ensures law { GoalsFollowTheRule }
{}

/// If the plan's order is the preferred one, the tables after a step towards the goal imply an order that agrees with
/// the plan's order on at least as many of its first switches as the order of the held tables does.
pub fn steps_keep_agreement()
    ensures law { StepsKeepAgreement }
{}

/// If tables are right by the order that grows by the order that they imply, tables that reach the next goal imply an
/// order that agrees with the plan's order on at least one more of its first switches. In between, the agreement never
/// gets less.
pub fn goals_go_further()
    ensures law { GoalsGoFurther }
{}

/// Once n - 1 goals are reached, where n is the number of switches, each from tables that are right by the order that
/// grows by the order that they imply, the tables are right by the plan's order.
pub fn goals_are_few()
    ensures law { GoalsAreFew }
{}

/// If each held entry for a LID is 255 or delivers, the goal between two orders has the same entries for the LID
/// after a step towards the goal by the first order. Facts and tops are as in `goal_delivers`.
pub fn goal_stands_still()
    ensures law { GoalStandsStill }
{}

/// In steps towards goals between an order that grows and one that grows along the tree of the first
/// (`AreGoalSteps`), each switch from which the first goal delivers has that goal's entry after 2n or more steps,
/// where n is the number of switches, and the tables then deliver from the switch. At first the tables have the
/// plan's owners of the LID and are right by the first order, and each entry is 255 or delivers. Facts and tops are
/// as in `goal_delivers`.
pub fn goal_is_reached()
    ensures law { GoalIsReached }
{}

/// If tables are right for every LID by an order that grew, and this order is the list of preferences, then it is the
/// first order of the next step, and the second order grows by the plan's positions along the tree of the first.
pub fn orders_stay()
    ensures law { OrdersStay }
{}

/// If, for any two switches that wires join, directly or via others, tables that imply an order bring packets for at
/// least one LID from the first switch to the second, then the tables are right by the order that grows by the
/// implied one, too.
pub fn whole_tables_grow()
    ensures law { WholeTablesGrow }
{}

/// If the first goal delivers from each switch from which the first tables send packets for the LID straight to the
/// end port, then the tables after 2n or more steps as in `goal_is_reached` (at least one), where n is the number of
/// switches, are right for the LID by the second order.
pub fn goal_ends_right()
    ensures law { GoalEndsRight }
{}

/// From tables that are right by some order of the switches, as after a step towards a goal, there is a goal, whatever
/// the preferred order is.
pub fn right_tables_have_goals()
    ensures law { RightTablesHaveGoals }
{}

/// If the first tables are right by the order that grows by the order that they imply, all handed steps
/// (`AreHandedSteps`) have the two orders of the first step.
pub fn handed_orders_stay()
    ensures law { HandedOrdersStay }
{}

/// Handed steps are steps as in `goal_is_reached` for a LID if three conditions hold: the first tables are right by the
/// order that grows by the order that they imply; one end port alone holds the LID in the first tables and in the plan,
/// and no usable switch has a top below the LID in the plan; and each entry for the LID in the first tables is 255 or
/// delivers.
pub fn handed_steps_are_goal_steps()
    ensures law { HandedStepsAreGoalSteps }
{}

/// After 2n + 2 or more handed steps, where n is the number of switches, no further handed step changes the tables, if
/// three conditions hold: the facts are in range; the plan is whole (`IsWholePlan`); and the first tables are right by
/// the order that grows by the order that they imply.
pub fn handed_steps_end()
    ensures law { HandedStepsEnd }
{}

/// Under the tables at the end of a stage, packets get from each switch to all switches that wires join to it, if four
/// conditions hold: the tables at the beginning of the stage are right by the order that grows by the order that they
/// imply; the facts are in range; the plan is whole (`IsWholePlan`); and each usable switch has a LID in the plan. A
/// stage has 2n + 2 handed steps or more, where n is the number of switches, or its last step changes nothing. The
/// first step prefers the plan's order.
pub fn stages_make_whole()
    ensures law { StagesMakeWhole }
{}

/// After n - 1 or more stages, where n is the number of switches, the tables are right by the plan's order, if four
/// conditions hold: the facts are in range; the plan is whole (`IsWholePlan`); each usable switch has a LID in the
/// plan; and the first tables imply an order, and are right by the order that grows by it. A stage has 2n + 2 handed
/// steps or more, or its last step changes nothing. The first step of a stage prefers the plan's order.
pub fn stages_are_few()
    ensures law { StagesAreFew }
{}
