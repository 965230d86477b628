ghost use Rattle.std.specs.Prelude.{◌≡◌, ◌<◌, false, Some};
ghost use Rattle.std.specs.Fmt.{digit_glyph};
ghost use Rattle.smp_bytes.specs.Text.{hex_text};

use std::fmt;
use std::marker::Model;

/// A globally unique identifier. GUIDs are compared as numbers.
#[derive(Clone, Copy, Debug, PartialEq, Eq, PartialOrd, Ord)]
pub struct Guid(u64);

impl Model for Guid {
    ghost use Rattle.std.specs.Prelude.{ℕ};

    ghost Value = { ℕ };

    ghost view = { λ a. a.0 };

    ghost inverse = { λ n. record { 0 = n } };
}

impl Guid {
    /// Creates a GUID from its number.
    pub const fn new(number: u64) -> Self
        ensures { result ≡ number }
    {
        Guid(number)
    }

    /// Returns the GUID as a number.
    pub const fn number(self) -> u64
        ensures { result ≡ self }
    {
        self.0
    }

    /// Returns the sixteen digits that `{}` writes, as ASCII.
    pub fn hex_digits(self) -> [u8; 16]
        ensures { result ≡ hex_text 16 self }
    {
        let mut digits = [0; 16];
        let mut rest = self.0;
        for index in (0..16).rev() {
            digits[index] = hex_digit((rest % 16) as u8);
            rest /= 16;
        }
        digits
    }
}

/// Returns the lower-case hex digit of `number`, as ASCII.
fn hex_digit(number: u8) -> u8
    requires { number < 16 }
    ensures { result ≡ digit_glyph false number }
{
    if number < 10 {
        b'0' + number
    } else {
        b'a' + (number - 10)
    }
}

/// Writes sixteen lower-case hex digits.
impl fmt::Display for Guid {
    ghost output = { λ number. Some (hex_text 16 number) };

    fn fmt<W: fmt::Write>(&self, f: &mut fmt::Formatter<W>) -> fmt::Result {
        let number = self.0;
        write!(f, "{number:016x}")
    }
}
