//! Laws of the steps of a plan.
ghost use Rattle.plan_steps.specs.Bound.{PhaseBoundLaw};
ghost use Rattle.plan_steps.specs.LidSteps.{OwnLidLaw};
ghost use Rattle.plan_steps.specs.MaskLaws.{MasksHaveTheirPorts};
ghost use Rattle.plan_steps.specs.SetLaws.{LidAndStateAgree, SetsChangeNothingElse, SetsSayThePlan};
ghost use Rattle.plan_steps.specs.StateSteps.{WiredPortsLaw};

/// If every end port finds a LID, the manager's LID is that of the end port with the manager's port GUID and port
/// number, or 0 if there is no such end port. If several have them, it is that of the one with the least node GUID.
#[tactic(auto, using(crate::proofs::OwnLid::own_lid_law))]
pub fn own_lid_is_of_the_first()
    ensures { OwnLidLaw }
{}

/// The list of ports on wires has exactly the ports on wires, each once, in ascending order of node GUID and port.
pub fn wired_ports_are_listed_in_order()
    ensures { WiredPortsLaw }
{}

/// If every end port finds a LID, no phase of a plan has more steps than `most_steps`, a bound that is known before
/// there is a plan.
pub fn phases_are_bounded()
    ensures { PhaseBoundLaw }
{}

/// If the values that the plan asks for fit in their fields, a Set contains them, whatever was read of the port or
/// the switch. For a port, these are the LID, the LMC, the manager's LID and the state. For a switch, it is the
/// greatest LID.
pub fn sets_say_the_plan()
    ensures { SetsSayThePlan }
{}

/// If the image that was read has 64 bytes and the LMC is below 8, a Set carries what was read, except for the
/// following: what the plan asks for, the MTU of the wire, "no change" in some bits, defaults for some fields that
/// were 0, and the bits ClientReregister and PortStateChange.
pub fn sets_change_nothing_else()
    ensures { SetsChangeNothingElse }
{}

/// If an end port has a LID, the Set of a state there contains what the Set of its LID contains, except for the
/// state.
pub fn lid_and_state_agree()
    ensures { LidAndStateAgree }
{}

/// The block that is written for some ports and a position has in its first mask exactly those of the ports that have
/// the position, and no port in the other masks.
pub fn masks_have_their_ports()
    ensures { MasksHaveTheirPorts }
{}
