//! The laws of plans and their orders.
ghost use Rattle.table_laws.specs.PlanLaws.{PlanOrdersAreOrders, PlanTurnsRise, PlansAreRight, PlansCover};
ghost use Rattle.table_laws.specs.PlanLaws.{StepsEndInPlans, StepsTowardsPlans};

/// If the plan of a view with room sends packets for a LID along two channels one after the other, the rule's number
/// of the second channel is greater than that of the first.
pub fn plan_turns_rise()
    ensures law { PlanTurnsRise }
{}

/// The plan of a view with room is right for every LID by the positions of its rule, under each rule and each LMC.
pub fn plans_are_right()
    ensures law { PlansAreRight }
{}

/// The positions of a rule are an order, and two different switches that a wire joins have different positions.
pub fn plan_orders_are_orders()
    ensures law { PlanOrdersAreOrders }
{}

/// If a wire joins two usable switches, the plan of a view with room delivers, for each of its LIDs, from both switches
/// or from neither.
pub fn plans_cover()
    ensures law { PlansCover }
{}

/// If the held tables are right by the plan's order, a step by this order towards the plan of a view with room can
/// make no credit loop in any mixture, and leads to tables that are right by this order.
pub fn steps_towards_plans()
    ensures law { StepsTowardsPlans }
{}

/// If the first tables are right by the plan's order for a LID of the plan of a view with room, and the LID has the
/// same owners in the first tables as in the plan, then after 2n or more steps by the plan's order towards the plan,
/// where n is the number of switches, each switch from which the plan delivers for the LID has the plan's entry, and
/// the tables deliver from this switch.
pub fn steps_end_in_plans()
    ensures law { StepsEndInPlans }
{}
