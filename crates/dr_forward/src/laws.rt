//! What a step leaves unchanged in a packet.
ghost use Rattle.dr_forward.specs.StepLaws.{DiscardedIsUnchanged, LeavesByAPort, OtherFieldsStay};

/// A packet that is discarded is unchanged.
#[tactic(auto, using(crate::proofs::Steps::discarded_is_unchanged))]
pub fn discarded_is_unchanged()
    ensures { DiscardedIsUnchanged }
{}

/// A packet that a step sends out leaves through a port from 1 to the node's port count.
#[tactic(auto, using(crate::proofs::Steps::leaves_by_a_port))]
pub fn leaves_by_a_port()
    ensures { LeavesByAPort }
{}

/// If a packet has 256 bytes and a hop pointer below 64, a step writes only the hop pointer and the return path.
#[tactic(auto, using(crate::proofs::Steps::other_fields_stay))]
pub fn other_fields_stay()
    ensures { OtherFieldsStay }
{}
