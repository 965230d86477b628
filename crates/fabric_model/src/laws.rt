//! The laws of fabrics: cables, directed walks, and packets for a LID.
ghost use Rattle.fabric_model.specs.Cables.{CablesLeadBack};
ghost use Rattle.fabric_model.specs.FabricLaws.{PacketsEndOnce, WalksGoOn};
ghost use Rattle.std.specs.Prelude.{◌≡◌};

/// If each port has at most one cable, the cable in a port leads back to that port from the port at the other end.
#[tactic(auto, using(crate::proofs::Cabled::cables_lead_back))]
pub fn cables_lead_back()
    ensures { CablesLeadBack }
{}

/// If a port is appended to a directed path of at least one port, the longer path leads on from the end of the shorter
/// path by the cable in the appended port. It leads nowhere if the shorter path leads nowhere, if the end of the
/// shorter path is not at a switch, or if no cable is in the appended port.
#[tactic(auto, using(crate::proofs::DirectedWalks::walks_go_on))]
pub fn walks_go_on()
    ensures { WalksGoOn }
{}

/// A packet for a LID that is sent from a port is either delivered at a port or lost at a node, and never both.
pub fn packets_end_once()
    ensures { PacketsEndOnce }
{}
