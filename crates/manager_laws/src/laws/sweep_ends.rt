//! Laws of how a sweep ends.
ghost use Rattle.manager_laws.specs.SweepEnds.{SweepsAskFew, SweepsEnd};

/// A sweep makes at most 1 + 4n + 3p requests, for n nodes with p ports in the fabric. Other managers may send what
/// `manager_laws::laws::answers_tell` names. Packets may be lost, copied and reordered. Requests may be sent, and
/// replies given to the sweep, however often or late. The nodes have different GUIDs, and no cable changes.
pub fn sweeps_ask_few()
    ensures { SweepsAskFew }
{}

/// A sweep takes at most two steps for each of these requests, and can take one as long as it is not done. A step gives
/// out a request, accepts a reply, or gives up an outstanding request. So a sweep is done after that many steps if its
/// caller gives out its requests, and gives up those that are not answered. Whatever else happens is as in
/// `sweeps_ask_few`.
pub fn sweeps_end()
    ensures { SweepsEnd }
{}
