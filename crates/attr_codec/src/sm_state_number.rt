ghost use Rattle.std.specs.Prelude.{◌≡◌, ◌<◌, ◌↔◌, IsSome, IfSome};

use std::marker::Model;

/// The state of a subnet manager as SMInfo spells it: a number from 0 to 15, possibly a reserved one.
#[derive(Clone, Copy, Debug, PartialEq, Eq, PartialOrd, Ord)]
pub struct SmStateNumber(u8);

impl Model for SmStateNumber {
    ghost use Rattle.std.specs.Prelude.{ℕ, ◌<◌};

    ghost Value = { ℕ };

    ghost view = { λ a. a.0 };

    ghost invariant = { λ a. a.0 < 16 };

    ghost inverse = { λ n. record { 0 = n } };
}

impl SmStateNumber {
    /// Creates the number of a state. Returns `None` if `number` is over 15.
    pub fn new(number: u8) -> Option<Self>
        ensures fits { IsSome result ↔ (number < 16) }
        ensures value { IfSome result (λ state. state ≡ number) }
    {
        if number < 16 {
            Some(SmStateNumber(number))
        } else {
            None
        }
    }

    pub(crate) fn from_bits(number: u8) -> Self
        requires { number < 16 }
        ensures { result ≡ number }
    {
        SmStateNumber(number)
    }

    /// Returns the number, 0 to 15.
    pub fn number(self) -> u8
        ensures value { result ≡ self }
        ensures fits { result < 16 }
    {
        self.0
    }
}
