//! Fabrics, tables and packets that meet the premises of laws, and examples that distinguish laws from weaker ones.
ghost use Rattle.law_examples.specs.ByLane.{SomePacketChangesLane};
ghost use Rattle.law_examples.specs.Computed.{BestIsPicked, ClaimsAreKept, NewestFactsStand, SettledLidsStay};
ghost use Rattle.law_examples.specs.Examples.{SomeFabricIsSeen, SomePacketTravels, SomeTablesChange};
ghost use Rattle.law_examples.specs.Stages.{SomeStagesGo, SomeStepsAreHanded};
ghost use Rattle.law_examples.specs.Weaker.{FloorsStayInGroupings, NoSwitchTwice};

/// Some facts describe a whole fabric exactly, and also the part that is joined to one of its end ports, and the fabric
/// holds tables.
pub fn some_fabric_is_seen()
    ensures law { SomeFabricIsSeen }
{}

/// In some part that facts describe and that holds tables, a packet takes two channels one after the other.
pub fn some_packet_travels()
    ensures law { SomePacketTravels }
{}

/// In some part that facts describe and that holds tables, the tables change to the next ones for a LID that one end
/// port alone holds in the held tables and in the plan: one switch has another entry than before, and one does not
/// have its next entry yet.
pub fn some_tables_change()
    ensures law { SomeTablesChange }
{}

/// In some part that facts describe and that holds tables and the lanes of a text, numbers of channels by lane rise, and
/// a packet takes two channels by lane with different lanes one right after the other. The second lane depends on the
/// port by which the packet comes to the switch.
pub fn some_packet_changes_lane()
    ensures law { SomePacketChangesLane }
{}

/// Some handed steps go from tables that are right by the order that they imply and not by the plan's, and are goal
/// steps for some LID, of which the first one changes an entry.
pub fn some_steps_are_handed()
    ensures law { SomeStepsAreHanded }
{}

/// Some stages go towards a whole plan from tables that are not right by the plan's order, and there are as many of
/// them as `stages_are_few` (`held_order`) asks for.
pub fn some_stages_go()
    ensures law { SomeStagesGo }
{}

/// A fact that one store forgot is not brought back by another store that has this fact, whether the floor is raised
/// before or after the merge.
pub fn floors_stay_in_groupings()
    ensures law { FloorsStayInGroupings }
{}

/// A route that passes two switches and then the first one again is not a route of any routing rule.
pub fn no_switch_twice()
    ensures law { NoSwitchTwice }
{}

/// Of sightings of some ports, a view has the value of the newest generation, or that it is disputed if two values were
/// seen in that generation, and nothing from below its floor, whatever the order and the repetition of the sightings.
pub fn newest_facts_stand()
    ensures law { NewestFactsStand }
{}

/// Under LMC 1, of three adapters that claim 5, 6 and 6 the second one keeps its claim, and the others get 2 and 4.
pub fn claims_are_kept()
    ensures law { ClaimsAreKept }
{}

/// If each port claims the LID that it has, another adapter, whose port GUID comes before those of all other adapters,
/// moves no LID.
pub fn settled_lids_stay()
    ensures law { SettledLidsStay }
{}

/// Of some managers, a master hands over to the greatest standby that it hears and that wins, and yields to a lesser
/// master, which a standby would poll.
pub fn best_is_picked()
    ensures law { BestIsPicked }
{}
