//! The laws of labels by two orders, and of the orders themselves.
ghost use Rattle.two_orders.specs.Agreement.{
  AgreementGrows,
  AgreementStays,
  GrownOrdersStay,
  GrowsAgain,
};
ghost use Rattle.two_orders.specs.LabelLaws.{AllGetLabels, LabelledGoOn, LabelsTurnWell};

/// Whatever the labels, a walk that goes on by labels never goes down and then up by either order.
pub fn labels_turn_well()
    ensures law { LabelsTurnWell }
{}

/// Each vertex that gets a label from `label_all` has an edge that leads on by this label.
pub fn labelled_go_on()
    ensures law { LabelledGoOn }
{}

/// If each edge has an edge back, the first order grows by some positions, the second order grows by other positions in
/// the tree of the first, and at first only the targets have labels, down by both orders, then each vertex from which a
/// walk leads to a target gets a label.
pub fn all_get_labels()
    ensures law { AllGetLabels }
{}

/// If positions agree, on the first k vertices, with the order that grows by a plan, then so does the order that grows
/// by these positions.
pub fn agreement_stays()
    ensures law { AgreementStays }
{}

/// If positions agree, on the first k vertices, with the order that grows by a plan, then the order that grows by the
/// plan in the tree of these positions agrees with the plan's order on the first k + 1 vertices.
pub fn agreement_grows()
    ensures law { AgreementGrows }
{}

/// If an order has grown, by whatever keys, the order that grows by the positions in it is the same order.
pub fn grows_again()
    ensures law { GrowsAgain }
{}

/// If each edge has an edge back, vertices have different positions, and each vertex except the first of its component
/// has a neighbor at an earlier position, then the order that grows by the positions keeps the order of the positions
/// within each component.
pub fn grown_orders_stay()
    ensures law { GrownOrdersStay }
{}
