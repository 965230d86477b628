ghost use Rattle.std.specs.Prelude.{◌≡◌, Some, decimal};
ghost use Rattle.smp_bytes.specs.Ports.{is_within};

use std::fmt;
use std::marker::Model;

/// The number of a port of a node. Number 0 is the management port of a switch.
#[derive(Clone, Copy, Debug, PartialEq, Eq, PartialOrd, Ord)]
pub struct PortNum(u8);

impl Model for PortNum {
    ghost use Rattle.std.specs.Prelude.{ℕ};

    ghost Value = { ℕ };

    ghost view = { λ a. a.0 };

    ghost inverse = { λ n. record { 0 = n } };
}

impl PortNum {
    /// The management port of a switch.
    pub const MANAGEMENT: Self = PortNum(0);

    /// Creates the number of a port.
    pub const fn new(number: u8) -> Self
        ensures { result ≡ number }
    {
        PortNum(number)
    }

    /// Returns the number of the port.
    pub const fn number(self) -> u8
        ensures { result ≡ self }
    {
        self.0
    }

    /// Returns whether the number is from 1 to `count`. Port 0 of a switch never is.
    pub const fn is_within(self, count: u8) -> bool
        ensures { result ≡ is_within self count }
    {
        1 <= self.0 && self.0 <= count
    }
}

/// Writes the number in decimal.
impl fmt::Display for PortNum {
    ghost output = { λ number. Some (decimal number) };

    fn fmt<W: fmt::Write>(&self, f: &mut fmt::Formatter<W>) -> fmt::Result {
        let number = self.0;
        write!(f, "{number}")
    }
}
