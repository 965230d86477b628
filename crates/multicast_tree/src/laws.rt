//! The laws of the tree, and of the copies of multicast packets.
ghost use Rattle.multicast_tree.specs.FabricCopies.{EachGetsOneCopyInFabric, NoPortTwiceInFabric};
ghost use Rattle.multicast_tree.specs.FabricCopies.{NoneToTheSenderInFabric};
ghost use Rattle.multicast_tree.specs.Forest.{EachEndReached, EachPortOnce, FewSwitchesPassed, UpThenDown};
ghost use Rattle.multicast_tree.specs.TreeInWords.{ParentLaw, TreeLaw};
ghost use Rattle.multicast_tree.specs.TreeLaws.{CopyTurnsRise, EachGetsACopy, MasksAreWhole, NoLongWay};
ghost use Rattle.multicast_tree.specs.TreeLaws.{NoPortTwice, NoUpAfterDown, NoneToTheSender, OneWithoutParent};

/// The parent of a switch is the first of its neighbors in the order, if that neighbor is before the switch. The port
/// to the parent is the least that leads there. A switch with no neighbor before it has no parent.
pub fn parents_are_in_words()
    ensures { ParentLaw }
{}

/// A port of a usable switch is in the tree exactly if its wire leads to the parent, to a switch whose port to its
/// parent is the other end, or to an adapter.
pub fn the_tree_is_in_words()
    ensures { TreeLaw }
{}

/// In the tree of a rule, of the usable switches of one component at most one has no parent.
pub fn one_switch_has_no_parent()
    ensures { OneWithoutParent }
{}

/// The masks of a tree have exactly the ports of the tree.
pub fn masks_are_whole()
    ensures { MasksAreWhole }
{}

/// If the masks of a group are within a forest (`IsWithinForest`), no two copies of one packet arrive at the same port.
pub fn each_port_gets_one_copy()
    ensures { EachPortOnce }
{}

/// If the masks of a group are within a forest (`IsWithinForest`), a copy passes no more switches than there are with a
/// port in the group.
pub fn few_switches_are_passed()
    ensures { FewSwitchesPassed }
{}

/// If the masks of a group are within a forest (`IsWithinForest`), each copy goes up and then down.
pub fn copies_go_up_then_down()
    ensures { UpThenDown }
{}

/// If the masks of a group are a whole forest (`IsWholeForest`), a copy of what one port sends comes to each other port
/// that is attached to a switch joined to that of the sender.
pub fn each_end_is_reached()
    ensures { EachEndReached }
{}

/// If the masks of a group are within the tree, no two copies of one packet arrive at the same port, in whatever order
/// the switches are. So no packet goes round while the tree is written, as long as no mask has a port that the tree
/// does not have.
pub fn no_port_gets_a_packet_twice()
    ensures { NoPortTwice }
{}

/// If the masks of a group are within the tree, a copy passes no more switches than there are usable ones.
pub fn no_copy_goes_a_long_way()
    ensures { NoLongWay }
{}

/// If the masks of a group are within the tree, each copy goes up and then down in the order of the tree.
pub fn no_copy_goes_up_after_down()
    ensures { NoUpAfterDown }
{}

/// If the masks of a group are within the tree, no copy of a packet comes back to the adapter port that sent it.
pub fn the_sender_gets_no_copy()
    ensures { NoneToTheSender }
{}

/// If the masks of a group are the tree of a rule, a copy of what an adapter port sends comes to each other adapter
/// port in its component.
pub fn each_adapter_gets_a_copy()
    ensures { EachGetsACopy }
{}

/// If the masks of a group are within the tree of a rule, and a copy goes from a switch to a second and on to a third,
/// the rule's number of the second channel is greater than that of the first.
pub fn channels_rise_along_copies()
    ensures { CopyTurnsRise }
{}

/// If facts describe a part of a fabric, and the masks of its switches are within the tree, no two copies of one packet
/// arrive at the same port there.
pub fn no_port_of_a_fabric_gets_a_packet_twice()
    ensures { NoPortTwiceInFabric }
{}

/// If facts describe a part of a fabric, and the masks of its switches are within the tree, no copy of a packet comes
/// back to the adapter port that sent it.
pub fn no_sender_of_a_fabric_gets_a_copy()
    ensures { NoneToTheSenderInFabric }
{}

/// If facts describe a part of a fabric, and the masks of its switches are the tree of a rule, exactly one copy of what
/// an adapter port sends to a switch comes to each other adapter port of the part.
pub fn each_adapter_of_a_fabric_gets_one_copy()
    ensures { EachGetsOneCopyInFabric }
{}
