//! The laws of the lists of gaps.
ghost use Rattle.audit_counts.specs.Gaps.{NodesLaw, PortsLaw};

/// Each node that facts name is listed once, in ascending order of GUID, unless its type, its number of ports and, for
/// a switch, its table room are known. No other node is listed.
pub fn unusable_nodes_are_listed()
    ensures { NodesLaw }
{}

/// Each port that facts name is listed once, in ascending order of node GUID and port, unless it has a wire, is known
/// to be down and is not port 0, or is a switch's port 0 whose port GUID is known. No other port is listed.
pub fn unjoined_ports_are_listed()
    ensures { PortsLaw }
{}
