ghost use Rattle.std.specs.Prelude.{◌≡◌, ◌<◌, ◌↔◌, IsNone, IfSome, Some, decimal};

use std::fmt;
use std::marker::Model;

/// The number of the sweep that a fact comes from, 1 to 4294967295.
#[derive(Clone, Copy, Debug, PartialEq, Eq, PartialOrd, Ord)]
pub struct Generation(u32);

impl Model for Generation {
    ghost use Rattle.std.specs.Prelude.{ℕ, ◌<◌};

    ghost Value = { ℕ };

    ghost view = { λ a. a.0 };

    ghost invariant = { λ a. 0 < a.0 };

    ghost inverse = { λ n. record { 0 = n } };
}

impl Generation {
    /// Creates a generation from its number. Returns `None` if `number` is 0.
    pub fn new(number: u32) -> Option<Self>
        ensures none { IsNone result ↔ (number ≡ 0) }
        ensures some { IfSome result (λ g. g ≡ number) }
    {
        if number == 0 {
            None
        } else {
            Some(Generation(number))
        }
    }

    /// Returns the generation as a number.
    pub fn number(self) -> u32
        ensures value { result ≡ self }
        ensures positive { 0 < result }
    {
        self.0
    }
}

/// Writes the number in decimal.
impl fmt::Display for Generation {
    ghost output = { λ number. Some (decimal number) };

    fn fmt<W: fmt::Write>(&self, f: &mut fmt::Formatter<W>) -> fmt::Result {
        let number = self.0;
        write!(f, "{number}")
    }
}
