//! The laws of printed topologies.
ghost use Rattle.topo_file.specs.Printed.{PrintedTopologiesAreRead, ReadTopologiesAreInOrder};

/// If the links of a topology are in the order of the nodes of their first ends, the text of the topology is read as
/// this topology.
pub fn printed_topologies_are_read()
    ensures law { PrintedTopologiesAreRead }
{}

/// The links of every topology that is read from a text are in the order of the nodes of their first ends.
pub fn read_topologies_are_in_order()
    ensures law { ReadTopologiesAreInOrder }
{}
