//! The laws of multicast packets where the switches hold a tree.
ghost use Rattle.manager_laws.specs.MulticastArrives.{EachGetsOneCopyOnceTaken};
ghost use Rattle.manager_laws.specs.MulticastHeld.{EachGetsOneCopy};
ghost use Rattle.manager_laws.specs.TreeTaken.{TakenTreesAreHeld};

/// Of a packet for the first multicast LID that an adapter port sends to a switch, exactly one copy comes to each other
/// adapter port of its part, if three conditions hold: the part is what an end port of a simulated fabric is joined to;
/// the view describes the part; and each switch there holds the masks of the tree of the view by a rule.
pub fn each_adapter_gets_one_copy()
    ensures { EachGetsOneCopy }
{}

/// At the end of a run in which a manager writes, each switch of the manager's tree that its last sweep before the
/// writing reached holds the masks of the tree, if from some moment on after the writing began agents take the Set of
/// each step of the tree, and no other Sets of multicast masks.
pub fn taken_trees_are_held()
    ensures { TakenTreesAreHeld }
{}

/// Of a packet for the first multicast LID that an adapter port joined to the seat sends to a switch, exactly one copy
/// comes to each other adapter port joined to the seat, if three conditions hold: a manager that writes trees wrote the
/// plan of one sweep with every answer; the sweep read at each switch that it has a multicast table; and from some
/// moment on after the writing began agents took the Set of each step of the tree, and no other Sets of multicast
/// masks.
pub fn each_adapter_gets_one_copy_once_taken()
    ensures { EachGetsOneCopyOnceTaken }
{}
