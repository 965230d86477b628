ghost use Rattle.std.specs.Prelude.{◌≡◌, true, Bool, IsTrue, ◌↔◌};

use crate::cell::Cell;

/// A type whose values are the same whenever `==` says that they are equal.
pub trait Exact: Eq + Copy {
    /// Values that are equal by `==` are the same value.
    ghost exact: { (x y : Self) → Self.eq x y ≡ true → x ≡ y };
}

/// A type with an order in which any two values have a least value that is above both.
pub trait Join: Sized {
    /// The first value is below the second, or equal to it.
    ghost below: { Self → Self → Type 0 };

    /// The least value above the two.
    ghost joined: { Self → Self → Self };

    /// Returns whether this value is below `other` or equal to it.
    fn below(&self, other: &Self) -> bool
        ensures { IsTrue result ↔ below self.now other.now };

    /// Returns the join of this value and `other`: the least value above both.
    fn join(&self, other: &Self) -> Self
        ensures { result ≡ joined self.now other.now };

    ghost reflexive: { (x : Self) → below x x };

    ghost transitive: { (x y z : Self) → below x y → below y z → below x z };

    ghost antisymmetric: { (x y : Self) → below x y → below y x → x ≡ y };

    ghost above_first: { (x y : Self) → below x (joined x y) };

    ghost above_second: { (x y : Self) → below y (joined x y) };

    ghost least: { (x y z : Self) → below x z → below y z → below (joined x y) z };
}

/// An order of cells. A cell of a newer generation is above a cell of an older generation. Within a generation, a
/// disputed cell is above all others, and cells with different values are not ordered.
impl<V: Exact> Join for Cell<V> {
    ghost use Rattle.fact_join.specs.Cell.{IsBelow, joined_by};

    ghost below = { IsBelow };

    ghost joined = { joined_by V.eq };

    fn below(&self, other: &Self) -> bool {
        let (first, second) = (self.generation(), other.generation());
        if first != second {
            return first < second;
        }
        match (self, other) {
            (_, Cell::Disputed(_)) => true,
            (Cell::Known(_, a), Cell::Known(_, b)) => a == b,
            (Cell::Disputed(_), Cell::Known(..)) => false,
        }
    }

    fn join(&self, other: &Self) -> Self {
        let (first, second) = (self.generation(), other.generation());
        if second < first {
            *self
        } else if first < second {
            *other
        } else {
            match (self, other) {
                (Cell::Known(_, a), Cell::Known(_, b)) if a == b => *self,
                _ => Cell::Disputed(first),
            }
        }
    }

    ghost use Rattle.fact_join.specs.Join.{below_itself, below_trans, below_antisymm, equal_itself};
    ghost use Rattle.fact_join.specs.Join.{joined_above_first, joined_above_second, joined_least};

    ghost reflexive = { below_itself };

    ghost transitive = { below_trans };

    ghost antisymmetric = { below_antisymm };

    ghost above_first = { joined_above_first V.eq V.exact (equal_itself V.Eq.laws) };

    ghost above_second = { joined_above_second V.eq V.exact (equal_itself V.Eq.laws) };

    ghost least = { joined_least V.eq V.exact (equal_itself V.Eq.laws) };
}
