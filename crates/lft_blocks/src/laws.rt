//! The laws of plans.
ghost use Rattle.lft_blocks.specs.Arrival.{PacketsArriveByEachRouting, PacketsArriveIfConnected};
ghost use Rattle.lft_blocks.specs.Arrival.{PacketsArriveWhereCovered};
ghost use Rattle.lft_blocks.specs.PlanLaws.{PlansStay, LidsStayInPlans, BlocksHoldEntries, BlocksAreOfSwitches};
ghost use Rattle.lft_blocks.specs.PlanLaws.{OrdersHold};
ghost use Rattle.lft_blocks.specs.Rule.{RulesAreRoutings, RulesStay};

/// If a view with room for its LIDs changes only in claims, and each end port then claims the LID that it has in the
/// plan of the view, there is still room and the plan stays.
pub fn plans_stay()
    ensures { PlansStay }
{}

/// Suppose two views have room for their LIDs, and each end port of the first is also one of the second, where it
/// claims the LID that it has in the plan of the first. Suppose also that all other end ports of the second claim
/// nothing or 0, and that the tables of the second have room for the greatest of these LIDs. Then the end ports of the
/// first keep these LIDs in the plan of the second.
pub fn lids_stay_in_plans()
    ensures { LidsStayInPlans }
{}

/// Block `b` of a switch has at index `i` the entry for the LID `64 * b + i`.
pub fn blocks_hold_entries()
    ensures { BlocksHoldEntries }
{}

/// A plan has block `b` of a switch exactly when the switch is usable and the greatest LID is in block `b` or a later
/// one. That block has the switch's entries.
pub fn blocks_are_of_switches()
    ensures { BlocksAreOfSwitches }
{}

/// If the plan of a view with room for its LIDs, under a rule of routing, is in force in the part around an end port,
/// packets arrive. A packet from each end port of the part, for each LID of the plan, is delivered at the end port
/// that owns the LID. The packet takes as many wires between switches as the rule's cost, passes no switch twice, and
/// takes channels of rising numbers. The rule may be any that satisfies `IsRouting`.
pub fn packets_arrive_by_each_routing()
    ensures { PacketsArriveByEachRouting }
{}

/// Suppose a view with room for its LIDs describes the part around an end port, and the part holds the view's plan
/// under a rule of routing. Then a packet from each end port of the part, for each LID of the plan whose owner is an
/// end port of the part, is delivered at the owner. The view may describe more, such as nodes that are gone.
pub fn packets_arrive_where_covered()
    ensures { PacketsArriveWhereCovered }
{}

/// If the plan of a view with room for its LIDs is in force in the whole of a connected fabric, packets arrive. A
/// packet from each end port, for each LID of the plan, is delivered at the end port that owns the LID. `Plan::of`
/// promises this for the part around one end port, in any fabric.
pub fn packets_arrive_if_connected()
    ensures { PacketsArriveIfConnected }
{}

/// Each rule that can be asked for is a rule of routing on the wires of any view.
pub fn rules_are_routings()
    ensures { RulesAreRoutings }
{}

/// If two views agree on the wires between switches and on how many adapters each switch has, each rule that can be
/// asked for routes packets in the same way in both. It does not matter what else the views contain.
pub fn rules_stay()
    ensures { RulesStay }
{}

/// If the usable switches of a view are named in the order of the rule that spreads, the order and the plan stay the
/// same.
pub fn orders_hold()
    ensures { OrdersHold }
{}
