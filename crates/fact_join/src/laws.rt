//! What follows from the laws of a join: neither the order nor the repetition of the values that are joined matters.
ghost use Rattle.std.specs.Prelude.{◌≡◌};

use crate::join::Join;

/// The join of two values does not depend on their order.
pub fn join_is_commutative<T: Join>()
    ensures { (x y : T) → T.joined x y ≡ T.joined y x }
{}

/// The join of three values does not depend on which two are joined first.
pub fn join_is_associative<T: Join>()
    ensures { (x y z : T) → T.joined (T.joined x y) z ≡ T.joined x (T.joined y z) }
{}

/// A value joined to itself is itself.
pub fn join_is_idempotent<T: Join>()
    ensures { (x : T) → T.joined x x ≡ x }
{}

/// The join of two values is the only least value above both.
pub fn join_is_unique<T: Join>()
    ensures { (x y z : T) → T.below x z → T.below y z → ((w : T) → T.below x w → T.below y w → T.below z w) → z
        ≡ T.joined x y }
{}
