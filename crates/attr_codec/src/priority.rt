ghost use Rattle.std.specs.Prelude.{◌≡◌, ◌<◌, ◌↔◌, IsSome, IfSome};

use std::marker::Model;

/// The priority of a subnet manager, 0 to 15. The greater priority wins.
#[derive(Clone, Copy, Debug, PartialEq, Eq, PartialOrd, Ord)]
pub struct Priority(u8);

impl Model for Priority {
    ghost use Rattle.std.specs.Prelude.{ℕ, ◌<◌};

    ghost Value = { ℕ };

    ghost view = { λ a. a.0 };

    ghost invariant = { λ a. a.0 < 16 };

    ghost inverse = { λ n. record { 0 = n } };
}

impl Priority {
    /// Creates a priority from its number. Returns `None` if `number` is over 15.
    pub fn new(number: u8) -> Option<Self>
        ensures fits { IsSome result ↔ (number < 16) }
        ensures value { IfSome result (λ priority. priority ≡ number) }
    {
        if number < 16 {
            Some(Priority(number))
        } else {
            None
        }
    }

    pub(crate) fn from_bits(number: u8) -> Self
        requires { number < 16 }
        ensures { result ≡ number }
    {
        Priority(number)
    }

    /// Returns the number, 0 to 15.
    pub fn number(self) -> u8
        ensures value { result ≡ self }
        ensures fits { result < 16 }
    {
        self.0
    }
}
