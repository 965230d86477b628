//! The laws of a manager that is served by lines, and of what it prints.
ghost use Rattle.program_laws.specs.ServeLaws.{EarlierAnswersStay, LinesAreServed, ServedLives};
ghost use Rattle.program_laws.specs.ServeLaws.{KnowsWhatItWasTold, SameToldSameTexts};
ghost use Rattle.program_laws.specs.Says.{DecisionsArePrinted, PacketsArePrinted, WrittenSaysYes};
ghost use Rattle.program_laws.specs.Framed.{AnswersEndOnce};
ghost use Rattle.program_laws.specs.Live.{ServedIsManaging};
ghost use Rattle.program_laws.specs.LivePings.{LivePingsArrive, SomeProcessServes};

/// If bytes are split in two, what is printed for all of them is what is printed for the first part, followed by what
/// the manager at that moment prints for the second part. If the first part ends within a line, the second part
/// completes this line.
#[tactic(auto, using(crate::proofs::serve::Behind::earlier_answers_stay))]
pub fn earlier_answers_stay()
    ensures { EarlierAnswersStay }
{}

/// A process does with lines what it does with their meanings, in turn, whether it does what lines say or decides by
/// itself.
#[tactic(auto, using(crate::proofs::serve::Behind::lines_are_served))]
pub fn lines_are_served()
    ensures { LinesAreServed }
{}

/// Each line has an answer: whole lines, none of which begins with a dot, and then the line of a dot.
pub fn answers_end_once()
    ensures { AnswersEndOnce }
{}

/// After any lines, the manager of a process is the manager that the calls of these lines leave.
#[tactic(auto, using(crate::proofs::serve::Lived::served_lives))]
pub fn served_lives()
    ensures { ServedLives }
{}

/// After any lines, a new process knows the view of the sightings of the reports that it accepted, at the greatest
/// floor that it was given, or 1.
#[tactic(auto, using(crate::proofs::serve::Alike::knows_what_it_was_told))]
pub fn knows_what_it_was_told()
    ensures { KnowsWhatItWasTold }
{}

/// If two new processes plan by the same rule and LMC, took in the same sightings, in any order and however often,
/// and have the same greatest floor, then they answer `facts` and `plan` with the same bytes, whatever else they were
/// given.
pub fn same_told_same_texts()
    ensures { SameToldSameTexts }
{}

/// A process at its seat on a fabric, behind a faithful shell, is a manager there: whatever live events happen are
/// possible events of `Managing`; the manager at the seat is then the manager that the lines of the process leave;
/// and this manager has given out the packets that the process printed, in the same order.
pub fn served_is_managing()
    ensures { ServedIsManaging }
{}

/// Once a new process was given `sweep` and later `write`, and neither line was refused, each ping from an end port
/// that the seat of the process is joined to, for each LID of the plan, reaches the end port that owns the LID, if
/// seven conditions hold: the process held no facts at `sweep`; no `sweep` and no `floor` is given between the two
/// lines, and no `write` after them; the sweep has every answer at `write`; the plan counts as written in the end; the
/// shell is faithful; no cable moves; and each Set that an agent takes after `write` is one of the writing's own or
/// carries the plan's values.
pub fn live_pings_arrive()
    ensures { LivePingsArrive }
{}

/// Some process serves: a new process on an adapter that is wired to a switch. Another adapter is wired to the switch.
/// Another manager sits there and answers the process.
pub fn some_process_serves()
    ensures { SomeProcessServes }
{}

/// An answer has the text that the line itself prints, then a line for each packet that is sent, in the order of
/// sending, and then the line of a dot.
#[tactic(auto, using(crate::proofs::serve::Said::packets_are_printed))]
pub fn packets_are_printed()
    ensures { PacketsArePrinted }
{}

/// If a process decides by itself, an answer has the text that the line itself prints, then a line for each note, then
/// a line for each packet that is sent, in these orders, then the line that says when the process is to be told the
/// time next, and then the line of a dot.
#[tactic(auto, using(crate::proofs::serve::Said::decisions_are_printed))]
pub fn decisions_are_printed()
    ensures { DecisionsArePrinted }
{}

/// The line `written` prints `written yes` exactly when the manager's plan counts as written.
#[tactic(auto, using(crate::proofs::serve::Said::written_says_yes))]
pub fn written_says_yes()
    ensures { WrittenSaysYes }
{}
