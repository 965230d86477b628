//! The laws of several managers on one fabric.
ghost use Rattle.manager_laws.specs.StaysInForce.{MastersChangeNothing, MastersKeepLids, MastersWriteTheSame};
ghost use Rattle.manager_laws.specs.StaysInForce.{RestSharesLids, SomeMastersShareRest, SomeMastersWriteAtOnce};
ghost use Rattle.manager_laws.specs.StaysInForce.{WrittenByOneIsHeld};
ghost use Rattle.manager_laws.specs.Known.{HasSweptMeans, KnowsOneSweepMeans};
ghost use Rattle.manager_laws.specs.OwnRuns.{EachRunsOnItsOwn, WhatIsGivenOutCanBeSent};

/// If a manager begins no writing before a sweep, each packet that it gives out can be sent from its seat as a packet
/// of another manager: the packet is forwarded by LIDs, or is a request along a path that leaves by the seat's port,
/// or answers a request for SMInfo that was handed up there.
pub fn what_is_given_out_can_be_sent()
    ensures { WhatIsGivenOutCanBeSent }
{}

/// One of several managers, if it had not swept at the start of a run, has swept at the end exactly when in the run it
/// began a sweep that was not refused.
pub fn has_swept_means()
    ensures { HasSweptMeans }
{}

/// One of several managers, if it knew no sweep at the start of a run, knows one sweep at the end exactly when in the
/// run it began that sweep while it held no facts, and since then began no other sweep, merged no facts of others and
/// was given no floor above its own.
pub fn knows_one_sweep_means()
    ensures { KnowsOneSweepMeans }
{}

/// If no manager begins a writing before a sweep, each of several managers runs like a single manager for which the
/// others are what happens around it, whatever the others do. What `laws` and `laws::takeover` say about one
/// manager among others therefore holds for each of several managers.
pub fn each_runs_on_its_own()
    ensures { EachRunsOnItsOwn }
{}

/// After a cut, the end ports that are left have the LIDs of the plan of what is left, if three conditions hold: they
/// have the LIDs and the LMC of the plan of earlier facts, which have room and have each of these end ports; the facts
/// of what is left describe what is left exactly, and have room; and these facts claim the LIDs that the end ports
/// have. The other laws of shared LIDs therefore hold after a cut too.
pub fn rest_shares_lids()
    ensures { RestSharesLids }
{}

/// No port of a subnet gets another LID, however many masters sweep and write it, if four conditions hold: the end
/// ports have the LIDs and the LMC of the plan of a set of facts with room that describes the subnet exactly; each
/// master plans by the rule, the roots or order and the LMC of that plan; each master writes only what it knows from
/// one sweep that has every answer; and other senders set only SMInfo.
pub fn masters_keep_lids()
    ensures { MastersKeepLids }
{}

/// Under the premises of `masters_keep_lids`, a master that knows one sweep with every answer would write the plan
/// whose LIDs the end ports have, whatever the switches hold, and whatever other masters sweep and write meanwhile.
pub fn masters_write_the_same()
    ensures { MastersWriteTheSame }
{}

/// Under the premises of `masters_keep_lids`, once one of several masters has written its plan, the part that is joined
/// to each seat holds this plan, whatever the others sweep and write meanwhile. A master has written its plan if it
/// began a writing, began no other writing since, and the plan counts as written.
pub fn written_by_one_is_held()
    ensures { WrittenByOneIsHeld }
{}

/// Under the premises of `masters_keep_lids`, once the part that is joined to each seat holds the plan, the plan stays
/// in use, however many masters sweep and write, in any order: at each moment each end port has its LID, each switch
/// has its blocks and no lower top, and each ping from an end port there, for each LID of the plan, reaches the owner
/// of the LID.
pub fn masters_change_nothing()
    ensures { MastersChangeNothing }
{}

/// Under either conduct, some masters write at once: two new managers, each on an adapter that is wired to the same
/// switch. The adapters and the switch hold LIDs of their own choice, and the switch holds a table. The sweeps of the
/// two managers go on at once, and neither manager answers the other. Then both managers are asked to write, and their
/// Sets are sent in turn, until each manager has written its plan.
pub fn some_masters_write_at_once()
    ensures { SomeMastersWriteAtOnce }
{}

/// Some masters share the rest of a subnet after a cut: two new managers, and earlier facts with a third adapter, which
/// is gone.
pub fn some_masters_share_rest()
    ensures { SomeMastersShareRest }
{}
