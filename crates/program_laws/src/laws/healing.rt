//! The laws of how soon a manager that decides by itself has its plan written, and of what that means.
ghost use Rattle.program_laws.specs.FewTurns.{TurnsAreFew};
ghost use Rattle.program_laws.specs.FreshWork.{WorksAgainInTime};
ghost use Rattle.program_laws.specs.Healing.{HealsInTime, SomeManagerHeals};
ghost use Rattle.program_laws.specs.HealingAtSeat.{HealsAtSeat};
ghost use Rattle.program_laws.specs.InTurn.{WorksInTurn};
ghost use Rattle.program_laws.specs.Leading.{LoneManagersLeadInTime, SomeLoneManagerLeads};
ghost use Rattle.program_laws.specs.LoneHealing.{LoneManagersHeal, LoneManagersHealAtSeat, SomeLoneManagerHeals};
ghost use Rattle.program_laws.specs.NextSweep.{SweepsAgainInTime};
ghost use Rattle.program_laws.specs.OnePlan.{OnePlanServes};
ghost use Rattle.program_laws.specs.OtherMasters.{MastersGiveWay};
ghost use Rattle.program_laws.specs.RestTime.{RestsEndInTime};
ghost use Rattle.program_laws.specs.StandingPings.{StandingPingsArrive};

/// What a manager that decides by itself is about changes in one order alone: when it rests, it may begin a sweep;
/// after a sweep it writes, hands over or rests; after a writing it hands over or rests; after a handover it rests.
/// This is so whatever it is told, if it is not told to leave. Its requests may be sent more than 0 times.
pub fn works_in_turn()
    ensures { WorksInTurn }
{}

/// A manager that decides by itself rests at most for its longest wait, plus as many turns as its requests can be
/// late, plus one; a turn is three time-outs, plus the milliseconds by which its shell is late. Then it begins a
/// sweep, if it sweeps by itself whenever it decides (it discovers, is master, or is a standby that knows no master),
/// and no sweep of it is refused. The longest wait is ten seconds, its period or that of its polls. The times that it
/// was told fit in 64 bits. All else is as in `windows_empty`.
pub fn rests_end_in_time()
    ensures { RestsEndInTime }
{}

/// A manager that decides by itself begins a sweep before long, whatever it is about at first: at most its longest
/// wait and `4 * (n + 3)` turns later, if what it has to send can be late at most `n` times between any two moments
/// until then. A sweep that runs at first is over before, and so are the writing of its plan and the offer of the
/// subnet to another manager. All else is as in `rests_end_in_time`.
pub fn sweeps_again_in_time()
    ensures { SweepsAgainInTime }
{}

/// A manager that decides by itself has dealt with what a new sweep saw before long, whatever it is about at first: at
/// most twice its longest wait and `6 * (n + 3)` turns later, it has begun a sweep, this sweep is over, and so is the
/// writing of its plan, if it wrote one. All else is as in `sweeps_again_in_time`.
pub fn works_again_in_time()
    ensures { WorksAgainInTime }
{}

/// A manager that decides by itself has swept anew, and has its plan written, after at most as long as in
/// `works_again_in_time`, whatever it is about at first, if six conditions hold: it gives no request up; whenever it
/// decides while it rests, it is to sweep, as in `rests_end_in_time`; when its sweep is over, it is master and saw no
/// other master; no path led too far, and it did not stand still meanwhile; each end port finds a LID, and its writing
/// is not refused; when its writing is over, the plan counts as written. The plan that it keeps is then that of its
/// last writing, each of whose LID, block and top Sets was answered with status 0. All else is as in
/// `works_again_in_time`.
pub fn heals_in_time()
    ensures { HealsInTime }
{}

/// Some manager decides by itself and meets all premises of `heals_in_time`, with no line late: a new manager on an
/// adapter with one port and no cable. It is told the time whenever it asks for that, and its adapter's answers at
/// once: it sweeps, writes its plan, and sweeps again and again.
pub fn some_manager_heals()
    ensures { SomeManagerHeals }
{}

/// While the plan of a strict manager that decides by itself stands, and it writes nothing, each ping from an end port
/// that its seat is joined to, for each LID of the plan, reaches the end port that owns the LID, if six conditions
/// hold: at first no packet is on its way, and GUIDs differ; the manager is new then; its shell is faithful; no cable
/// moves; since its last writing began, each Set that an agent took is one of the writing's own or carries the plan's
/// values; nobody told the manager to leave.
pub fn standing_pings_arrive()
    ensures { StandingPingsArrive }
{}

/// A manager that decides by itself, at its seat on a fabric, serves its subnet after at most as long as in
/// `heals_in_time`, whatever it is about at first: at some moment until then, each ping from an end port that its seat
/// is joined to, for each LID of the plan of its last writing, reaches the end port that owns the LID, if five
/// conditions hold: at the very first no packet is on its way, GUIDs differ, and the manager is new; its shell is
/// faithful, and no cable moves; all goes well for it, as in `heals_in_time`, but it need not be asked that its plan
/// counts as written: it is enough that it does not give up what it writes, as one does that stood still or is no
/// longer master; it was strict when its last writing began; since then each Set that an agent took is one of the
/// writing's own or carries the plan's values.
pub fn heals_at_seat()
    ensures { HealsAtSeat }
{}

/// A manager that decides by itself is master at some moment at most seventeen longest waits and `20 * (n + 4)` turns
/// later, and from then on, whatever it is about at first, if four conditions hold: no packet that it is told is a word
/// of another manager; no other manager has disabled it; a generation is left for each of its sweeps; its shell is at
/// most two seconds late. A word is a Set of SMInfo, or an answer of SMInfo to a poll or a control, or one to a sweep
/// by a manager that outranks this one. All else is as in `sweeps_again_in_time`.
pub fn lone_managers_lead_in_time()
    ensures { LoneManagersLeadInTime }
{}

/// A manager that decides by itself has swept anew, and has its plan written, as in `heals_in_time`, after at most
/// nineteen longest waits and `26 * (n + 4)` turns, whatever it is about at first, if four conditions hold: those of
/// `lone_managers_lead_in_time`; each sweep that it begins meanwhile is whole; when a sweep is over, each end port
/// finds a LID, and numbers are left for its Sets; when its writing is over, the plan counts as written. A sweep is
/// whole if each of its requests was answered, but for those for SMInfo, and no path led too far.
pub fn lone_managers_heal()
    ensures { LoneManagersHeal }
{}

/// A manager that decides by itself, at its seat on a fabric, serves its subnet, as in `heals_at_seat`, after at most
/// nineteen longest waits and `26 * (n + 4)` turns, whatever it is about at first, if six conditions hold: the first
/// three of `lone_managers_heal`; it gives up no request while it writes; at the very first no packet is on its way,
/// GUIDs differ, and the manager is new; its shell is faithful, and no cable moves; it was strict when its last writing
/// began; since then each Set that an agent took is one of the writing's own or carries the plan's values.
pub fn lone_managers_heal_at_seat()
    ensures { LoneManagersHealAtSeat }
{}

/// A master that decides by itself, and whose sweep saw another master, does not write next, if three conditions hold:
/// it has offered the subnet fewer than three times in this meeting; it did not stand still while it swept; it is not
/// told to leave. It hands over to its successor, if the other one wins; otherwise it rests after each of three such
/// sweeps, and then yields to the other one. If there is no way to that one, it rests. Its requests may be sent more
/// than 0 times.
pub fn masters_give_way()
    ensures { MastersGiveWay }
{}

/// Of `heals_at_seat` and `lone_managers_heal_at_seat`, the condition on Sets that agents take holds, and so pings
/// arrive at the moment that they tell of if the manager was strict, if all writings of the manager are of one plan,
/// and other senders set only SMInfo, from the start.
pub fn one_plan_serves()
    ensures { OnePlanServes }
{}

/// What a manager that decides by itself has to send can be late only a few times between any two moments: as often as
/// its requests can at first, and the tries of a request for each Set that was still to be sent then, for each Set of a
/// plan, and for each request of a sweep. No control comes meanwhile, and numbers are left for its Sets.
pub fn turns_are_few()
    ensures { TurnsAreFew }
{}

/// There is a manager that is alone for as long as `lone_managers_lead_in_time` asks: a new one on an adapter with one
/// port and no cable, which is told the time and its adapter's answers.
pub fn some_lone_manager_leads()
    ensures { SomeLoneManagerLeads }
{}

/// There is a manager that is alone for as long as `lone_managers_heal` asks, whose sweeps are whole, and which has
/// room for what it writes: a new one on an adapter with one port and no cable, which is told the time and its
/// adapter's answers.
pub fn some_lone_manager_heals()
    ensures { SomeLoneManagerHeals }
{}
