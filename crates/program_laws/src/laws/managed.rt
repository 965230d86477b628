//! The laws of a manager that decides by itself: at its seat on a fabric, and how it gets on.
ghost use Rattle.program_laws.specs.AlwaysAsks.{AlwaysAsks};
ghost use Rattle.program_laws.specs.Deciding.{DecidingIsManaging, NewOnesStand};
ghost use Rattle.program_laws.specs.ManagedEnds.{ManagedSweepsAskFew, ManagedSweepsEnd, ManagedWritingsEnd};
ghost use Rattle.program_laws.specs.ManagedEnds.{SweepsLoseNothing, WritingsLoseNothing};
ghost use Rattle.program_laws.specs.LightSweeps.{QuietSwitchesKeepThePart};
ghost use Rattle.program_laws.specs.SweepTime.{SomeSweepIsAtASeat, SweepsEndInTime};
ghost use Rattle.program_laws.specs.WritingTime.{SomeManagerBeginsToWrite, WritingsEndInTime};
ghost use Rattle.program_laws.specs.Wakes.{WindowsEmpty};
ghost use Rattle.program_laws.specs.WholeSweeps.{AnsweredSweepsAreWhole};

/// Whatever is told to a manager that decides by itself, and whatever happens around it, if its shell is faithful it is
/// a manager at its seat: some events of a manager lead to the same scene with the same manager, who has given out each
/// packet that was printed.
#[tactic(auto, using(crate::proofs::managed::Managed::deciding_is_managing))]
pub fn deciding_is_managing()
    ensures { DecidingIsManaging }
{}

/// A new manager that decides by itself is the manager that it decides for, at its seat.
#[tactic(auto, using(crate::proofs::managed::Managed::new_ones_stand))]
pub fn new_ones_stand()
    ensures { NewOnesStand }
{}

/// A manager that decides by itself always asks to be told the time, at a time that is not past, and at most ten
/// seconds, its period, that of its polls or three time-outs away, unless another manager has disabled it. So it never
/// waits for others alone. More than 0 requests may be out, the manager was not told to leave, and the times that it
/// was told fit in 64 bits.
pub fn always_asks()
    ensures { AlwaysAsks }
{}

/// While a manager that decides by itself has requests, it asks to be told the time, and is told a time that it asked
/// for, or a later one, at most as often as these can be late, plus once for each control. So if it is told the time
/// whenever it asks, it has none left after one time more, and decides what is next. If no line comes more than some
/// milliseconds after the time that the manager asked for, the lines take at most that many turns, plus one. A turn is
/// three time-outs, plus these milliseconds. A request can be late as often as it may be sent. The requests are those
/// of the window, the Sets of a writing that are still to be sent, what a sweep asks meanwhile, and an acknowledgement
/// for each control. Any packets may come, in any order, a sweep may be asked for, and the manager may stand still. Its
/// requests may be sent more than 0 times, more than 0 may be out, and it is not told to leave.
pub fn windows_empty()
    ensures { WindowsEmpty }
{}

/// While it sweeps, a manager that decides by itself gets on as in `windows_empty`. So if it is told the time whenever
/// it asks, its sweep is over after so many times. Whatever else happens is as in `windows_empty`.
pub fn managed_sweeps_end()
    ensures { ManagedSweepsEnd }
{}

/// While it writes, and has requests, a manager that decides by itself gets on as in `windows_empty`. So if it is told
/// the time whenever it asks, its writing is over after so many times. Whatever else happens is as in
/// `windows_empty`.
pub fn managed_writings_end()
    ensures { ManagedWritingsEnd }
{}

/// When a manager that decides by itself decides, no sweep of it runs: each request of its sweep was answered or given
/// up. Any packets may have come, in any order, whatever else it was told, if it was not told to leave. Its newest
/// generation fits in 32 bits at first.
pub fn sweeps_lose_nothing()
    ensures { SweepsLoseNothing }
{}

/// When a manager that decides by itself decides, no writing of it runs, if numbers are left for the Sets that are
/// still to be sent: each Set was answered or given up. All else is as in `sweeps_lose_nothing`.
pub fn writings_lose_nothing()
    ensures { WritingsLoseNothing }
{}

/// A sweep of a new manager that decides by itself, at its seat, makes at most 1 + 4n + 3p requests, for n nodes with p
/// ports in the fabric, if its shell is faithful, whatever happens. At first nothing is on its way. What others may
/// send is as in `manager_laws::laws::answers_tell`. The nodes have different GUIDs, and no cable changes.
pub fn managed_sweeps_ask_few()
    ensures { ManagedSweepsAskFew }
{}

/// A sweep of a new manager that decides by itself, at its seat, lasts at most as many turns as its requests can be
/// late, plus one for each control, plus one; a turn is three time-outs, plus the milliseconds by which its shell is
/// late. A request can be late as often as it may be sent. The requests are those of the window, Sets that are still to
/// be sent, as many as a sweep may ask (`managed_sweeps_ask_few`) and one more, and an acknowledgement for each
/// control. The sweep is looked at from any moment at which it runs. All else is as in `windows_empty` and
/// `managed_sweeps_ask_few`.
pub fn sweeps_end_in_time()
    ensures { SweepsEndInTime }
{}

/// Some manager that decides by itself sweeps at its seat, as in `sweeps_end_in_time`: on a fabric of three nodes, a
/// new manager that was told the time once.
pub fn some_sweep_is_at_a_seat()
    ensures { SomeSweepIsAtASeat }
{}

/// A writing of a manager that decides by itself lasts at most as many turns as its Sets can be late, plus one for each
/// control, plus one; a turn is three time-outs, plus the milliseconds by which its shell is late. A Set can be late as
/// often as it may be sent, and so can an acknowledgement for each control. A plan has at most five times `most_steps`
/// Sets. The manager has something to write, its newest generation fits in 32 bits at first, and nobody has told it to
/// leave. All else is as in `windows_empty`.
pub fn writings_end_in_time()
    ensures { WritingsEndInTime }
{}

/// Some manager that decides by itself begins to write, as in `writings_end_in_time`: that of `some_manager_decides`,
/// once it has swept.
pub fn some_manager_begins_to_write()
    ensures { SomeManagerBeginsToWrite }
{}

/// Facts that described exactly what was joined to a manager describe exactly what is joined to it now, if three
/// conditions hold: the nodes are the same; no cable has come to or gone from the manager's port; nor from a port of a
/// switch that was joined to it. What is set at agents may have changed. A light sweep relies on this, and on each
/// switch, which is to say by PortStateChange that a port has changed its state.
#[tactic(auto, using(crate::proofs::light::Quiet::quiet_switches_keep_the_part))]
pub fn quiet_switches_keep_the_part()
    ensures { QuietSwitchesKeepThePart }
{}

/// If a manager that decides by itself notes no request that it gives up, after the line that begins its sweep and up
/// to the one at which the sweep is over, and no port leads too far, the sweep has every answer. It gives up a request
/// that has no answer after all tries, or one whose answer it refuses. Any packets may come, in any order, and the
/// manager may stand still. Its newest generation fits in 32 bits at first, and nobody tells it to leave.
pub fn answered_sweeps_are_whole()
    ensures { AnsweredSweepsAreWhole }
{}
