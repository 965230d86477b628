//! The laws of packets on their way.
ghost use Rattle.fabric_sim.specs.Ping.{PingsTell, PingsFind};
ghost use Rattle.fabric_sim.specs.SimulationsAreFabrics.{SimulationsAreFabrics};
ghost use Rattle.fabric_sim.specs.ThereAndBack.{ThereAndBack};
ghost use Rattle.fabric_sim.specs.TrapLaws.{RepressesEndTraps};

/// What packets see of a simulated fabric is a fabric: its nodes have 1 to 254 ports, and each cable joins two ports
/// or loops one.
pub fn simulations_are_fabrics()
    ensures { SimulationsAreFabrics }
{}

/// What a ping reports is true. If it reports a port, the packet is delivered there, along as many wires as the ping
/// says. If it reports a loss at a node, the packet is lost there.
pub fn pings_tell()
    ensures { PingsTell }
{}

/// If a packet is delivered at a port, a ping reports this port, and as many wires as the packet takes.
pub fn pings_find()
    ensures { PingsFind }
{}

/// Suppose a directed request for an attribute other than SMInfo goes along a path of n ports, at most 63, that has
/// an end and is empty or begins with the sender's port. Suppose also that neither the request nor its answer is
/// lost, no cable changes, and serial numbers are left. Then the agent at the end answers delivery n + 1 of the
/// request. Delivery n + 1 of the answer hands the answer up at the sender's port. Any other calls may come between.
#[tactic(auto, using(crate::proofs::TripEnds::there_and_back))]
pub fn there_and_back()
    ensures { ThereAndBack }
{}

/// If a LID-routed TrapRepress has arrived at its switch, at a port with a cable, its delivery discards it without an
/// answer. The trap with its TransactionID no longer waits there, and no other trap ends.
pub fn represses_end_traps()
    ensures { RepressesEndTraps }
{}
