//! What the readers of a view return, and what the graph of switches is.
ghost use Rattle.subnet_view.specs.EndPort.{EndPortLaw, EndPortsLaw};
ghost use Rattle.subnet_view.specs.GraphLaws.{GraphLaw, SwitchLaw, EdgeLaw};
ghost use Rattle.subnet_view.specs.Reading.{UsableLaw, SwitchesLaw};
ghost use Rattle.subnet_view.specs.Wires.{WireLaw, WiresGoBothWays, AttachedLaw};

/// A node is a usable switch exactly when it is known to be a switch and its table size is known.
pub fn usable_is_in_words()
    ensures { UsableLaw }
{}

/// The list of switches has exactly the usable switches, each once, in ascending order of GUID.
pub fn switches_are_listed_by_guid()
    ensures { SwitchesLaw }
{}

/// A port is an end port exactly when its GUID is known and it is port 0 of a known switch, or a port from 1 to the
/// port count of another known node.
pub fn end_port_is_in_words()
    ensures { EndPortLaw }
{}

/// The list of end ports has exactly the end ports, each once, in ascending order of port GUID, node GUID and port.
pub fn end_ports_are_listed_in_order()
    ensures { EndPortsLaw }
{}

/// A wire joins two different ports exactly when both can have a wire and their links name each other.
pub fn wire_is_in_words()
    ensures { WireLaw }
{}

/// If a wire leads from one port to another, it also leads back.
pub fn wires_go_both_ways()
    ensures { WiresGoBothWays }
{}

/// A port of a node that is not known to be a switch is attached to a port of a usable switch exactly when a wire joins
/// the two.
pub fn attachment_is_in_words()
    ensures { AttachedLaw }
{}

/// Each set of facts gives a graph. Its switches are in ascending order of GUID. The edges of each switch are in
/// ascending order of port, and each edge leads to a switch that has an edge back.
pub fn facts_give_a_graph()
    ensures { GraphLaw }
{}

/// The switches of the graph are exactly the usable switches.
pub fn switches_are_the_usable_ones()
    ensures { SwitchLaw }
{}

/// The edges of a usable switch are exactly the wires from it to usable switches.
pub fn edges_are_wires_among_switches()
    ensures { EdgeLaw }
{}
