//! The laws of views and merges. What a store contains depends only on the sightings that were put in, and on the
//! greatest floor. The order of the sightings, their repetition and the stores that they came through do not matter.
ghost use Rattle.fact_store.specs.View.{ViewLaw, ViewIsUnique, MembersDecideView, ViewOfItsCells, RaisingForgets};
ghost use Rattle.fact_store.specs.Merge.{MergeLaw, MergeIsUnique, ViewOfBoth, MergeIsCommutative};
ghost use Rattle.fact_store.specs.Merge.{MergeIsAssociative, MergeIsIdempotent, GroupingIsFree, MergingInTurn};

/// A view at a floor has a cell for each key that was sighted at the floor or above it, and for no other key. The cell
/// has the newest generation of the key's sightings. If all sightings of that generation say the same value, the cell
/// is known with this value. Otherwise it is disputed.
pub fn view_has_its_law()
    ensures { ViewLaw }
{}

/// Only the view satisfies the law of a view.
pub fn view_is_unique()
    ensures { ViewIsUnique }
{}

/// A view depends neither on the order of its sightings nor on their repetition.
pub fn members_decide_view()
    ensures { MembersDecideView }
{}

/// A set of facts is the view of its own cells at its floor. A list of these cells therefore stands for the set.
pub fn view_of_its_cells()
    ensures { ViewOfItsCells }
{}

/// Raising the floor of a view gives the view that the greater of the two floors would have given from the start.
pub fn raising_forgets()
    ensures { RaisingForgets }
{}

/// The merge of two views is the view of both lists of sightings at the greater of the two floors.
pub fn view_of_both()
    ensures { ViewOfBoth }
{}

/// The merge of two sets of facts is above both, and below each set of facts that is above both.
pub fn merge_is_least_above_both()
    ensures { MergeLaw }
{}

/// Two sets of facts have only one merge: no other set of facts is above both and below each set that is above both.
pub fn merge_is_unique()
    ensures { MergeIsUnique }
{}

/// The merge of two stores does not depend on which of them is merged into the other.
pub fn merge_is_commutative()
    ensures { MergeIsCommutative }
{}

/// The merge of three stores does not depend on which two are merged first.
pub fn merge_is_associative()
    ensures { MergeIsAssociative }
{}

/// Merging a set of facts with itself changes nothing.
pub fn merge_is_idempotent()
    ensures { MergeIsIdempotent }
{}

/// However sightings are grouped for merging and whenever floors are raised, the resulting set of facts is the view
/// of all sightings at the greatest floor.
pub fn grouping_is_free()
    ensures { GroupingIsFree }
{}

/// An empty store that merges any number of stores in turn has the view of all their sightings at the greatest of their
/// floors.
pub fn merging_in_turn()
    ensures { MergingInTurn }
{}
