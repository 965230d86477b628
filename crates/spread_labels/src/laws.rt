//! The laws of labels and of ways along candidates.
ghost use Rattle.spread_labels.specs.LabelLaws.{LabelledLaw, UniqueLaw, ReachedLaw, CandidatesLaw};
ghost use Rattle.spread_labels.specs.CandidatesByMarks.{CandidatesAreNearer};
ghost use Rattle.spread_labels.specs.KeyOrder.{KeysTellApart};
ghost use Rattle.spread_labels.specs.Ways.{WaysLaw, ChannelsLaw, NoCycleLaw};
ghost use Rattle.spread_labels.specs.Orders.{OrderLaw, KeysLaw};
ghost use Rattle.spread_labels.specs.Sides.{SidesLaw};
ghost use Rattle.spread_labels.specs.EveryPair.{EveryPairLaw};

/// The labels and costs that rounds give towards a target satisfy `AreMarks`.
pub fn labelled_law()
    ensures { LabelledLaw }
{}

/// At most one assignment of labels and costs towards a target satisfies `AreMarks`.
pub fn unique_law()
    ensures { UniqueLaw }
{}

/// In a grown order, each vertex of the target's component has a label, at a cost less than the number of vertices. No
/// vertex of another component has a label.
pub fn reached_law()
    ensures { ReachedLaw }
{}

/// Each vertex that has a label, except the target, has a candidate. Each candidate leads to a vertex whose cost is one
/// less. From a vertex labeled `Down`, each candidate leads down, to a vertex labeled `Down`.
pub fn candidates_law()
    ensures { CandidatesLaw }
{}

/// An edge of a vertex is a candidate exactly when it leads to a vertex whose cost is one less, and either leads up or
/// leads to a vertex labeled `Down`.
pub fn candidates_are_nearer()
    ensures { CandidatesAreNearer }
{}

/// From each vertex with a label, the candidates lead to the LID's home, whichever candidate is picked for each LID and
/// vertex. The way goes up and then down, takes as many edges as the vertex's cost, and passes no vertex twice.
pub fn ways_law()
    ensures { WaysLaw }
{}

/// Channel numbers rise along each way that goes up and then down. The numbers depend only on the order.
pub fn channels_law()
    ensures { ChannelsLaw }
{}

/// Packets to all targets together, whichever candidates they take, never wait for each other in a credit loop.
pub fn no_cycle_law()
    ensures { NoCycleLaw }
{}

/// Suppose each edge has an edge back. Then, whatever the keys, a grown order has each vertex once, and each vertex
/// except the first of its component comes after a vertex that it has an edge to. The graph numbered by positions in
/// the order is grown.
pub fn order_law()
    ensures { OrderLaw }
{}

/// The order of vertices by distance class, then by distance, then by number is a strict total order.
pub fn keys_tell_apart()
    ensures { KeysTellApart }
{}

/// The next vertex of the grown order has the earliest key among the unplaced vertices that have an edge to a placed
/// vertex. If no unplaced vertex has such an edge, the next vertex has the earliest key among all unplaced vertices.
pub fn keys_law()
    ensures { KeysLaw }
{}

/// If each edge has an edge back, the edges up and the edges down of a graph are slopes. Edges that climb or descend in
/// the graph also do so among the slopes.
pub fn sides_law()
    ensures { SidesLaw }
{}

/// If each edge has an edge back, then, whatever the keys and the picked candidates, a way in the grown order leads to
/// a LID's home from each vertex from which a walk leads to the home. The way has fewer edges than there are vertices.
pub fn every_pair_law()
    ensures { EveryPairLaw }
{}
