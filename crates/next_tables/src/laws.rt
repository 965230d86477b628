//! The laws of a step from the tables that switches hold towards a plan.
ghost use Rattle.next_tables.specs.ChangingFabric.{PacketsArriveWhileTablesChange, WrittenTablesAreInChange};
ghost use Rattle.next_tables.specs.Mixtures.{NoneIsLost, NoneGoesRound, EndInThePlan, StillIsThePlan};
ghost use Rattle.next_tables.specs.Mixtures.{HealInTwo, NextDeliverOrDrop};
ghost use Rattle.next_tables.specs.Mixtures.{MixturesWaitSo, NoCycleInStep};
ghost use Rattle.next_tables.specs.NextTextIsRead.{NextTextsAreRead, StepTextsAreRead};
ghost use Rattle.next_tables.specs.SettledStepLaws.{StepsEndInThePlan, StepsHealInTwo};
ghost use Rattle.next_tables.specs.SettledStepLaws.{NextTablesAreSo, StepsFollowTheRule, StepsLoseNone, StepsSendNoneRound};

pub mod by_order;

/// If a LID has the same owners in the held tables and in the plan, a packet for the LID that the held tables deliver
/// is delivered at the same end port under any loose mixtures (`IsLoose`) of the held and the next tables. The
/// mixture may change while the packet travels.
pub fn none_is_lost()
    ensures law { NoneIsLost }
{}

/// If a LID has the same owners in the held tables and in the plan, a packet for the LID that the held tables deliver
/// or drop does not loop under any mixtures of the held and the next tables.
pub fn none_goes_round()
    ensures law { NoneGoesRound }
{}

/// If a LID has the same owners in the first tables and in the plan, and the plan delivers from a switch along a
/// route of n switches (this switch included), then the switch has the plan's entry for the LID after n or more
/// steps.
pub fn end_in_the_plan()
    ensures law { EndInThePlan }
{}

/// If a step changes no entry for a LID that has the same owners in the held tables and in the plan, then each switch
/// from which the plan delivers has the plan's entry for the LID.
pub fn still_is_the_plan()
    ensures law { StillIsThePlan }
{}

/// If a LID has the same owners in the first tables and in the plan, each packet for the LID that arrives under the
/// plan arrives after two steps.
pub fn heal_in_two()
    ensures law { HealInTwo }
{}

/// If a LID has the same owners in the held tables and in the plan, each switch delivers packets for the LID under
/// the next tables or has no entry for it. So none of these packets loops or leaves by a dead port.
pub fn next_deliver_or_drop()
    ensures law { NextDeliverOrDrop }
{}

/// If a channel waits for another one for some LID under any mixtures of the held and the next tables, then packets
/// for the LID take each of the two channels along an entry of the held or of the next tables.
pub fn mixtures_wait_so()
    ensures law { MixturesWaitSo }
{}

/// If channels have numbers that rise in a step, channels never wait in a credit loop, whatever the mixtures of the
/// held and the next tables. Numbers rise in a step if each channel has a lesser number than each channel that a
/// packet takes next. The packet may take each of the two channels along an entry of the held or of the next tables.
pub fn no_cycle_in_step()
    ensures law { NoCycleInStep }
{}

/// The tables that `next_tables` returns have the plan's owners of each LID and, at each usable switch, the greater of
/// its tops in the held tables and in the plan, and the next entry for each LID.
pub fn next_tables_are_so()
    ensures law { NextTablesAreSo }
{}

/// The tables that `next_tables` returns by settled entries have the next entries for each LID that one end port alone
/// holds in the held tables and in the plan.
pub fn steps_follow_the_rule()
    ensures law { StepsFollowTheRule }
{}

/// If one end port alone holds a LID in the held tables and in the plan, a packet for the LID that the held tables
/// deliver is delivered at the same end port under any loose mixtures (`IsLoose`) of the held tables and of what
/// `next_tables` returns by settled entries.
pub fn steps_lose_none()
    ensures law { StepsLoseNone }
{}

/// If one end port alone holds a LID in the held tables and in the plan, a packet for the LID that the held tables
/// deliver or drop does not loop under any mixtures of the held tables and of what `next_tables` returns by settled
/// entries.
pub fn steps_send_none_round()
    ensures law { StepsSendNoneRound }
{}

/// If one end port alone holds a LID in the first tables and in the plan, and the plan delivers from a switch along a
/// route of n switches (this switch included), then the switch has the plan's entry for the LID after n or more steps
/// of `next_tables` by settled entries.
pub fn steps_end_in_the_plan()
    ensures law { StepsEndInThePlan }
{}

/// If one end port alone holds a LID in the held tables and in the plan, each packet for the LID that arrives under
/// the plan arrives after two steps of `next_tables` by settled entries.
pub fn steps_heal_in_two()
    ensures law { StepsHealInTwo }
{}

/// A packet for a LID other than 0 that the held tables deliver is delivered at the LID's end port while the switches
/// change to what `next_tables` returns by settled entries, each at its own time, if three conditions hold: that end
/// port alone holds the LID in the held tables and in the plan; the facts describe a part of the fabric; and the part
/// holds the held tables when the change begins. The part is all that is joined to some end port, and one of the part's
/// end ports sends the packet. The packet takes at most 2n + 1 wires, where n is the number of usable switches.
pub fn packets_arrive_while_tables_change()
    ensures law { PacketsArriveWhileTablesChange }
{}

/// If the facts describe a part of a fabric, and this part holds the held tables, then the part is in a change from
/// the held to the next tables while the tops and blocks of its switches are written, in any order. In this change,
/// each switch has the held or the next entry for a LID, unless the held tables drop the LID's packets there.
pub fn written_tables_are_in_change()
    ensures law { WrittenTablesAreInChange }
{}

/// If the numbers of the facts, of the held tables and of the plan are in their ranges, the text of the next tables,
/// with the plan's LIDs in front, has no fault and is read as these tables.
pub fn next_texts_are_read()
    ensures law { NextTextsAreRead }
{}

/// If the facts of a view are in range and there is room for the LIDs, the text of a step from the tables of any text
/// towards the view's plan has no fault and is read as the step's tables.
pub fn step_texts_are_read()
    ensures law { StepTextsAreRead }
{}
