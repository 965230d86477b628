//! The laws of what a run prints.
ghost use Rattle.run_laws.specs.Accounts.{RunsAreAccountedFor};
ghost use Rattle.run_laws.specs.Deciders.{DecidersAreTold};
ghost use Rattle.run_laws.specs.OneManager.{RunsOfOneAreReached, SomeRunOfOne};
ghost use Rattle.run_laws.specs.Lines.{LaterLinesComeBehind, MergedManagersPlanAlike, SameTakenInPlansAlike};
ghost use Rattle.run_laws.specs.Lines.{SameTakenInSameLines, SweepLinesTell, WrittenLinesTell};
ghost use Rattle.run_laws.specs.Reached.{HeldPlansAreReached, WrittenPlansAreReached};
ghost use Rattle.run_laws.specs.Repeats.{TextsDecideOutput};

use byte_io::{Sink, Source};

/// A run that ends well has written exactly `run_text` of the texts that its sources of the topology and the schedule
/// held when it began, with managers that plan under the run's LMC and by its rule. Equal texts, LMCs and rules
/// therefore give equal bytes, whatever the texts are read from and the bytes are written to.
#[tactic(auto, using(crate::proofs::Repeated::texts_decide_output))]
pub fn texts_decide_output<S: Source, W: Sink>()
    ensures { TextsDecideOutput S.state W.written }
{}

/// Lines after a schedule do not change what the schedule prints. They add what they print in the world that the
/// schedule leaves.
#[tactic(auto, using(crate::proofs::Alike::later_lines_come_behind))]
pub fn later_lines_come_behind()
    ensures { LaterLinesComeBehind }
{}

/// In the world that a run leaves, each manager that is asked knows the view of all sightings that it took in, at the
/// greatest floor that it was given, or 1. A manager took in the sightings of the reports that it accepted. If a
/// manager merged the facts of another manager, it also took in what the other manager had taken in by then, with the
/// floor of that other manager.
#[tactic(auto, using(crate::proofs::Known::runs_are_accounted_for))]
pub fn runs_are_accounted_for()
    ensures { RunsAreAccountedFor }
{}

/// In the world that a run leaves, each manager that decides by itself is what being told things, each at its time, one
/// after the other, leaves of a new one: the time, packets. Each time, it has given out its notes and its packets.
pub fn deciders_are_told()
    ensures { DecidersAreTold }
{}

/// Two managers that are asked, of one run or of two, print the same facts and the same plan, whatever else they did
/// or were asked, if three conditions hold: they plan under the same LMC and by the same rule; they took in the same
/// sightings, in any order and however often; and they have the same greatest floor.
pub fn same_taken_in_same_lines()
    ensures { SameTakenInSameLines }
{}

/// If the managers `A` and `B` of a run took in the same sightings and have the same greatest floor, the lines `plan A`
/// and `plan B` after the schedule print the same bytes, one after the other.
#[tactic(auto, using(crate::proofs::Alike::same_taken_in_plans_alike))]
pub fn same_taken_in_plans_alike()
    ensures { SameTakenInPlansAlike }
{}

/// The lines `plan A` and `plan B` print the same bytes after every schedule whose last lines are `merge A B` and
/// `merge B A`.
#[tactic(auto, using(crate::proofs::Alike::merged_managers_plan_alike))]
pub fn merged_managers_plan_alike()
    ensures { MergedManagersPlanAlike }
{}

/// If a manager has begun a sweep, its last sweep has every answer exactly when two lines say so at that moment:
/// `progress` prints that the sweep is done, that no port is too far, and how many requests have no answer; and
/// `silent` prints that this many managers are silent.
pub fn sweep_lines_tell()
    ensures { SweepLinesTell }
{}

/// The line `written` prints `yes` exactly when the manager's plan counts as written at that moment: each Set of a
/// LID, block or top of its last writing was answered with status 0.
#[tactic(auto, using(crate::proofs::WrittenLines::written_lines_tell))]
pub fn written_lines_tell()
    ensures { WrittenLinesTell }
{}

/// Each `ping` from an end port of a part, for a LID of a plan, prints that it reached the port of the LID's owner, if
/// three conditions hold: the part is what an end port of the world's fabric is joined to; facts with room describe the
/// part exactly; and the part holds the plan of these facts.
pub fn held_plans_are_reached()
    ensures { HeldPlansAreReached }
{}

/// Each `ping` from an end port that is joined to a manager's seat, for a LID of the manager's plan, prints that it
/// reached the port of the LID's owner, if five conditions hold: the manager held no facts, at whatever floor, when its
/// sweep began; the sweep has every answer; the manager learned nothing else until its writing began; in the end the
/// plan counts as written; and the world has the fabric as it is then.
pub fn written_plans_are_reached()
    ensures { WrittenPlansAreReached }
{}

/// After each schedule that begins a sweep of the only manager, which is new and asked, and some lines later a
/// writing, each `ping` from an end port that is joined to the manager's port, for a LID of the manager's plan, prints
/// that it reached the port of the LID's owner, if five conditions hold: the sweep has every answer when the writing
/// begins; the line `written` prints `yes` in the end; no cable moves; no line is `traps`, `resend` or `wait`; and
/// each Set that an agent takes once the writing has begun is one of the writing's own or carries the plan's values.
pub fn runs_of_one_are_reached()
    ensures { RunsOfOneAreReached }
{}

/// Some run of one manager brings its subnet up. The manager is on an adapter that is wired to a switch. Another
/// adapter is wired to the switch. Each adapter port has two LIDs (LMC 1). The lines `repeat last`, `lose 0` and `drain
/// 60` come after the line that begins the sweep, and `drain 80` after the line that begins the writing.
pub fn some_run_of_one()
    ensures { SomeRunOfOne }
{}
