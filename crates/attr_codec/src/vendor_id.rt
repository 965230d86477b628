ghost use Rattle.std.specs.Prelude.{◌≡◌, ◌<◌, ◌^◌, ◌↔◌, IsSome, IfSome};

use std::marker::Model;

/// The IEEE number of a vendor, 24 bits.
#[derive(Clone, Copy, Debug, PartialEq, Eq)]
pub struct VendorId(u32);

impl Model for VendorId {
    ghost use Rattle.std.specs.Prelude.{ℕ, ◌<◌, ◌^◌};

    ghost Value = { ℕ };

    ghost view = { λ a. a.0 };

    ghost invariant = { λ a. a.0 < 2 ^ 24 };

    ghost inverse = { λ n. record { 0 = n } };
}

impl VendorId {
    /// Creates a vendor number. Returns `None` if `number` has more than 24 bits.
    pub fn new(number: u32) -> Option<Self>
        ensures fits { IsSome result ↔ (number < 2 ^ 24) }
        ensures value { IfSome result (λ id. id ≡ number) }
    {
        if number < 1 << 24 {
            Some(VendorId(number))
        } else {
            None
        }
    }

    pub(crate) fn from_u24(number: u32) -> Self
        requires { number < 2 ^ 24 }
        ensures { result ≡ number }
    {
        VendorId(number)
    }

    /// Returns the ID as a number.
    pub fn number(self) -> u32
        ensures value { result ≡ self }
        ensures fits { result < 2 ^ 24 }
    {
        self.0
    }
}
