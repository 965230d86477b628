ghost use Rattle.std.specs.Prelude.{◌≡◌};
ghost use Rattle.fact_join.specs.Cell.{generation_of};

use smp_bytes::Generation;

/// What is known of one fact: the newest generation in which it was reported, and its value. There is no value if
/// different values were reported in that generation.
#[derive(Clone, Copy, Debug, PartialEq, Eq)]
pub enum Cell<V> {
    /// The newest generation in which the fact was reported, and the only value that was reported in it.
    Known(Generation, V),
    /// The newest generation in which the fact was reported. Different values were reported in it.
    Disputed(Generation),
}

impl<V> Cell<V> {
    /// Returns the newest generation in which the fact was reported.
    pub fn generation(&self) -> Generation
        ensures { result ≡ generation_of self.now }
    {
        match self {
            Cell::Known(generation, _) => *generation,
            Cell::Disputed(generation) => *generation,
        }
    }
}
