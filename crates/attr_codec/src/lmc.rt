ghost use Rattle.std.specs.Prelude.{◌≡◌, ◌<◌, ◌≤◌, ◌^◌, ◌↔◌, IsSome, IfSome};

use std::marker::Model;

/// The LID mask control of a subnet, 0 to 7: an adapter's port has 2^LMC consecutive LIDs (addressing; subnet
/// management, PortInfo: LMC).
#[derive(Clone, Copy, Debug, PartialEq, Eq)]
pub struct Lmc(u8);

impl Model for Lmc {
    ghost use Rattle.std.specs.Prelude.{ℕ, ◌<◌};

    ghost Value = { ℕ };

    ghost view = { λ a. a.0 };

    ghost invariant = { λ a. a.0 < 8 };

    ghost inverse = { λ n. record { 0 = n } };
}

impl Lmc {
    /// LMC 0: each end port has a single LID.
    pub const ZERO: Self = Lmc(0);

    /// Creates an LMC from its number. Returns `None` if `number` is over 7.
    pub fn new(number: u8) -> Option<Self>
        ensures fits { IsSome result ↔ (number < 8) }
        ensures value { IfSome result (λ lmc. lmc ≡ number) }
    {
        if number < 8 { Some(Lmc(number)) } else { None }
    }

    pub(crate) fn from_bits(number: u8) -> Self
        requires { number < 8 }
        ensures { result ≡ number }
    {
        Lmc(number)
    }

    /// Returns the number, 0 to 7.
    pub fn number(self) -> u8
        ensures value { result ≡ self }
        ensures fits { result < 8 }
    {
        self.0
    }

    /// Returns the number of LIDs of an adapter's port, 1 to 128.
    pub fn width(self) -> u16
        ensures value { result ≡ 2 ^ self }
        ensures some { 1 ≤ result }
        ensures few { result ≤ 128 }
    {
        1 << self.0
    }
}
