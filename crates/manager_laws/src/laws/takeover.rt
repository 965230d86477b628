//! The laws of views that have the same plan, and of takeovers.
ghost use Rattle.manager_laws.specs.OnePlan.{AlikeViewsPlanAlike, ClaimedPlansStay, PlansReadKnownValues};
ghost use Rattle.manager_laws.specs.OnePlan.{KnownPlansStay, WhoSeesTheSamePlansTheSame};
ghost use Rattle.manager_laws.specs.OnePlan.{WhoSeesTheTruthPlansTheSame, HeldPlansArePlanned};
ghost use Rattle.manager_laws.specs.Claims.{AcceptedClaimsAreTrue, SweptClaimsAreTrue, TakeoversChangeNothing};
ghost use Rattle.manager_laws.specs.AfterCut.{FloorsForget, LidsOutlast, RaisedManagersKnowNothing, RestIsServed};
ghost use Rattle.manager_laws.specs.AfterCut.{SomeManagerServesTheRest};
ghost use Rattle.manager_laws.specs.Takeover.{PingsArriveThroughout, SomeManagerTakesOver, TakeoverChangesNothing};

/// Two alike views in which each end port claims the same LID, or claims no LID in either view, have the same plan,
/// under each rule and each LMC, and both have room or neither has. Views are alike if they have the same end ports
/// with the same port GUIDs, the same usable switches with as many ports and as much room, and the same wires.
pub fn alike_views_plan_alike()
    ensures { AlikeViewsPlanAlike }
{}

/// If the first of two alike views has room, and each end port claims in the second view the LID that the plan of the
/// first gives to the end port, then the second view has room and the plan of the first, under each rule and each
/// LMC.
pub fn claimed_plans_stay()
    ensures { ClaimedPlansStay }
{}

/// Two views that know the same value of each key, or neither of which knows one, have the same plan, under each rule
/// and each LMC, and both have room or neither has. Generations do not matter, nor does what is disputed.
pub fn plans_read_known_values()
    ensures { PlansReadKnownValues }
{}

/// If two views know the same value of each key that is not a claim, or neither knows one, the second view has room and
/// the plan of the first, under each rule and each LMC, if two conditions hold: the first has room; and the second
/// claims the LIDs of the plan of the first. Generations do not matter.
pub fn known_plans_stay()
    ensures { KnownPlansStay }
{}

/// Two views that describe the same part of a fabric exactly and have the same claims of the part's end ports have
/// the same plan, under each rule and each LMC, and both have room or neither has.
pub fn who_sees_the_same_plans_the_same()
    ensures { WhoSeesTheSamePlansTheSame }
{}

/// Two views that describe the same part of a fabric exactly, and in which each end port of the part claims the LID
/// that the end port has, have the same plan, under each rule and each LMC, and both have room or neither has.
pub fn who_sees_the_truth_plans_the_same()
    ensures { WhoSeesTheTruthPlansTheSame }
{}

/// Facts have room and give the plan that a part of a fabric holds, by the same rule and LMC, if two conditions hold:
/// the part holds the plan of some facts with room that describe the part exactly; and the given facts describe the
/// part exactly and claim the LIDs that its end ports have. The plan has the same LIDs, and each block as it is.
pub fn held_plans_are_planned()
    ensures { HeldPlansArePlanned }
{}

/// While no port gets another LID, on a fabric whose nodes have different GUIDs, each LID that an accepted report of a
/// sweep claims for a port is the LID that the port has. Other managers may send what
/// `manager_laws::laws::answers_tell` names. Packets may be lost, copied and reordered.
pub fn accepted_claims_are_true()
    ensures { AcceptedClaimsAreTrue }
{}

/// If a sweep has every answer while no port gets another LID, each end port that is joined to the sweep's seat
/// claims, according to the facts of the sweep, the LID that the end port has.
pub fn swept_claims_are_true()
    ensures { SweptClaimsAreTrue }
{}

/// The facts of a sweep have room and give the plan that the part joined to its seat holds, by the same rule and LMC,
/// if two conditions hold: the part holds the plan of a set of facts with room that describes the part exactly; and the
/// sweep has every answer while no port gets another LID. The plan has the same LIDs, and each block as it is. It does
/// not matter who made the plan, in which generations, or from where.
pub fn takeovers_change_nothing()
    ensures { TakeoversChangeNothing }
{}

/// A manager is about to write the plan that its subnet holds, with the same LIDs and each block as it is, if four
/// conditions hold: the subnet holds the plan of a set of facts with room that describes the subnet exactly, by the
/// manager's rule and LMC; the manager held no facts when its sweep began; the sweep had every answer while no port got
/// another LID; and the manager learned nothing else until the writing. Pings arrived before, and arrive once the plan
/// counts as written.
pub fn takeover_changes_nothing()
    ensures { TakeoverChangesNothing }
{}

/// If each Set that an agent takes carries the values of the plan or, once the writing has begun, is one of the
/// writing's own, then at each moment of a takeover (before the sweep, until the writing, and between the writing's
/// Sets) the subnet holds the plan, and each ping from an end port there, for each LID of the plan, reaches the owner
/// of the LID.
pub fn pings_arrive_throughout()
    ensures { PingsArriveThroughout }
{}

/// Some manager takes over: a new manager on an adapter that is wired to a switch. Another adapter is wired to the
/// switch, and its port reports a manager, which is silent. Both adapters and the switch hold LIDs of their own choice,
/// and the switch holds a table. The run has nine requests to agents and the first Set of the writing, with their
/// answers. It also has the request to the silent manager, which is lost and given up.
pub fn some_manager_takes_over()
    ensures { SomeManagerTakesOver }
{}

/// A floor above 1 and above each generation that the facts hold forgets all facts.
pub fn floors_forget()
    ensures { FloorsForget }
{}

/// Once a manager is given a floor above 1 and above each generation that it holds, it has no facts, and the generation
/// of its next sweep is the greater of its old floor and the given one.
pub fn raised_managers_know_nothing()
    ensures { RaisedManagersKnowNothing }
{}

/// End ports that claim the LIDs that the plan of an earlier view gave them get these LIDs again, whichever others are
/// gone, if three conditions hold: the earlier view had each end port that the later view has; both views have room;
/// and the later view also has room for all LIDs of the earlier plan.
pub fn lids_outlast()
    ensures { LidsOutlast }
{}

/// After a cut, each end port that is joined to a manager's seat keeps its LID, and once the manager's plan is written
/// pings arrive among these end ports, if four conditions hold: the manager held no facts when its sweep began, and
/// learned nothing else until the writing; the sweep had every answer while no port got another LID; earlier facts,
/// with room, have each of these end ports; and each of these end ports has the LID and the LMC of the plan of the
/// earlier facts. The earlier facts may contain other end ports, which are gone.
pub fn rest_is_served()
    ensures { RestIsServed }
{}

/// Some manager takes over the rest: the manager of `some_manager_takes_over`, with an earlier set of facts that
/// contains a third adapter, which is gone.
pub fn some_manager_serves_the_rest()
    ensures { SomeManagerServesTheRest }
{}
