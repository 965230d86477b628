//! The laws of distances and of next ports.
ghost use Rattle.port_graph.specs.Heads.{DistancesLaw};
ghost use Rattle.port_graph.specs.NextPorts.{WaysLaw};

/// If all edges lead to vertices, each distance is the length of a shortest walk, and no walk leads to a vertex that
/// has no distance.
pub fn distances_law()
    ensures { DistancesLaw }
{}

/// If the edges are slopes (`AreSlopes`), next ports lead to the target from each vertex that has a cost to it, along
/// as many edges as the cost. They lead first up and then down.
pub fn ways_law()
    ensures { WaysLaw }
{}
