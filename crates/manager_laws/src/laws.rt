//! Laws about what is so after any events on a fabric: of sweeps, of written plans, and of pings.
ghost use Rattle.manager_laws.specs.AnswersTell.{AnswersTell};
ghost use Rattle.manager_laws.specs.Complete.{DoneSweepsAreComplete, SomeManagerIsSilent, SomeSweepIsWhole};
ghost use Rattle.manager_laws.specs.Complete.{SweptPingsArrive};
ghost use Rattle.manager_laws.specs.KnownPart.{KnowsItsPart};
ghost use Rattle.manager_laws.specs.Managing.{NewManagersRest};
ghost use Rattle.manager_laws.specs.Pings.{PingsArrive};
ghost use Rattle.manager_laws.specs.Sweeping.{AcceptedFactsAreTrue};
ghost use Rattle.manager_laws.specs.WritingPings.{PingsArriveOnceWritten, SomeManagerBringsUp};
ghost use Rattle.manager_laws.specs.Written.{NewManagersSweepFirst, WrittenPlansAreHeld};

pub mod masters;
pub mod multicast;
pub mod sweep_ends;
pub mod takeover;
pub mod writing_ends;

/// A directed answer with status 0 that comes back to a manager says what is true of the node at the end of its path:
/// the NodeInfo, whether a port is up, or the size of the forwarding table. LIDs, tops, blocks and descriptions are
/// left open. Other managers may send, each from its own port, packets that are forwarded by LIDs, requests along
/// paths that leave by that port, and answers to requests for SMInfo. Packets may be lost, copied and reordered on
/// the way. No cable changes.
#[tactic(auto, using(crate::proofs::Answers::answers_tell))]
pub fn answers_tell()
    ensures { AnswersTell }
{}

/// On a fabric whose nodes have different GUIDs, each fact of a report that a sweep accepts is true of the fabric,
/// except that a claimed LID may be any LID. Other managers may send what `answers_tell` names. Packets may be lost,
/// copied and reordered. Requests may be sent, and replies given to the sweep, however often or late.
pub fn accepted_facts_are_true()
    ensures { AcceptedFactsAreTrue }
{}

/// Each ping from an end port of a part, for each LID of a view's plan, reaches the end port that owns the LID, if
/// three conditions hold: the part is what an end port of a simulated fabric is joined to; the view has room and
/// describes the part exactly; and the part holds the plan.
pub fn pings_arrive()
    ensures { PingsArrive }
{}

/// On a fabric whose nodes have different GUIDs, the facts of a sweep with every answer describe exactly the part that
/// is joined to the sweep's seat, as the part was when the sweep began and as it is when the sweep is done. A sweep has
/// every answer if it is done, each request except those for SMInfo was answered, and no request would have needed a
/// path of more than 63 ports. The facts contain the part's end ports, switches and wires, and no others. The sweep has
/// a path to each of these end ports, and the path leads there. Other managers may send what
/// `manager_laws::laws::answers_tell` names. Packets may be lost, copied and reordered. Requests may be sent, and
/// replies given to the sweep, however often or late. A manager that is asked for SMInfo may answer anything, or
/// nothing at all.
pub fn done_sweeps_are_complete()
    ensures { DoneSweepsAreComplete }
{}

/// A manager's facts describe exactly the part that is joined to its seat, as the part is at that time, if it held no
/// facts when its last sweep began, has learned nothing else since, and the sweep has every answer. Earlier sweeps and
/// writings may have come before. The run is as in `manager_laws::laws::written_plans_are_held`.
pub fn knows_its_part()
    ensures { KnowsItsPart }
{}

/// Each ping from an end port of the part that is joined to a sweep's seat, for each LID of the plan of what the sweep
/// has found, reaches the end port that owns the LID, if three conditions hold: the sweep has every answer; there is
/// room for the LIDs; and the part holds the plan. The fabric may be any whose nodes have different GUIDs.
pub fn swept_pings_arrive()
    ensures { SweptPingsArrive }
{}

/// Some sweep has every answer: a sweep of an adapter, a switch with a cable that loops one of its ports, and another
/// adapter. The other adapter has a port without a cable and a manager at its other port. The sweep takes twelve
/// requests and their answers, including the answer of that manager.
#[tactic(auto, using(crate::proofs::Example::some_sweep_is_whole))]
pub fn some_sweep_is_whole()
    ensures { SomeSweepIsWhole }
{}

/// Some sweep has every answer although a manager is silent: the sweep of `some_sweep_is_whole`, if its last request,
/// for SMInfo, is lost and given up.
#[tactic(auto, using(crate::proofs::Example::some_manager_is_silent))]
pub fn some_manager_is_silent()
    ensures { SomeManagerIsSilent }
{}

/// A new manager is at rest: no sweep runs, no request is outstanding, and there is nothing to send. The runs of
/// other laws can therefore begin with a new manager.
pub fn new_managers_rest()
    ensures { NewManagersRest }
{}

/// A new manager begins no writing before it begins a sweep, whatever happens to the manager.
pub fn new_managers_sweep_first()
    ensures { NewManagersSweepFirst }
{}

/// If the plan counts as written at the end of a writing run, each end port of the plan that the last sweep before the
/// writing reached holds its LID and LMC, and each usable switch that this sweep reached holds its blocks and, as its
/// top, the greatest LID. The fabric may be any whose nodes have different GUIDs, with agents in any state. Other
/// managers may send from their seats what `manager_laws::laws::answers_tell` names. Packets may be lost, copied and
/// reordered. Packets of the manager may be sent, or given to it, however often or late. Anything may be asked of the
/// manager, but no writing begins before a sweep. No cable changes. Once the writing has begun, the manager begins no
/// other writing, and each Set that an agent takes is one of the writing's own or carries the plan's values.
pub fn written_plans_are_held()
    ensures { WrittenPlansAreHeld }
{}

/// Each ping from an end port that a manager's seat is joined to, for each LID of the plan that the manager wrote,
/// reaches the end port that owns the LID, if four conditions hold: the manager held no facts, at whatever floor, when
/// its sweep began; the sweep has every answer; the manager learned nothing else until its writing began; and in the
/// end the plan counts as written. Whatever else happens is as in `written_plans_are_held`.
pub fn pings_arrive_once_written()
    ensures { PingsArriveOnceWritten }
{}

/// Some manager brings its subnet up: a new manager on an adapter that is wired to a switch. Another adapter is wired
/// to the switch. Another manager sits there and answers the new one. Each adapter port has two LIDs (LMC 1). The first
/// request is lost and sent again, and then copied. After the sweep's ten requests come the plan's five Sets.
pub fn some_manager_brings_up()
    ensures { SomeManagerBringsUp }
{}
