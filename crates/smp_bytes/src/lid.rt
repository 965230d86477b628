ghost use Rattle.std.specs.Prelude.{◌≡◌, ◌/◌, ◌%◌, Some, decimal};

use std::fmt;
use std::marker::Model;

/// A local identifier, the address of an end port in a subnet.
#[derive(Clone, Copy, Debug, PartialEq, Eq, PartialOrd, Ord)]
pub struct Lid(u16);

impl Model for Lid {
    ghost use Rattle.std.specs.Prelude.{ℕ};

    ghost Value = { ℕ };

    ghost view = { λ a. a.0 };

    ghost inverse = { λ n. record { 0 = n } };
}

impl Lid {
    /// The number 0, which says that a port has no LID.
    pub const NONE: Self = Lid(0);

    /// The first number past the unicast LIDs, which end at 0xBFFF (addressing).
    pub const UNICAST_END: u16 = 0xC000;

    /// Creates a LID from its number.
    pub const fn new(number: u16) -> Self
        ensures { result ≡ number }
    {
        Lid(number)
    }

    /// Returns the LID as a number.
    pub const fn number(self) -> u16
        ensures { result ≡ self }
    {
        self.0
    }

    /// Returns the number of the forwarding table block that contains the LID's entry (LinearForwardingTable).
    pub const fn block(self) -> u16
        ensures { result ≡ self / 64 }
    {
        self.0 / 64
    }

    /// Returns the index of the LID's entry in its block.
    pub const fn in_block(self) -> usize
        ensures { result ≡ self % 64 }
    {
        (self.0 % 64) as usize
    }
}

/// Writes the number in decimal.
impl fmt::Display for Lid {
    ghost output = { λ number. Some (decimal number) };

    fn fmt<W: fmt::Write>(&self, f: &mut fmt::Formatter<W>) -> fmt::Result {
        let number = self.0;
        write!(f, "{number}")
    }
}
