//! Bit fields of an attribute, each given by const parameters as bits of one byte.
ghost use Rattle.std.specs.Prelude.{◌≡◌, ◌+◌, ◌^◌, ◌<◌, ◌≤◌};
ghost use Rattle.smp_bytes.specs.Field.{bits_in, with_bits};

use smp_bytes::wire::{bits_at, put_bits};

/// Returns the number in the `WIDTH` bits from bit `SHIFT` up of the byte at offset `AT`. `AT` must be less than 64,
/// `WIDTH` at least 1, and `SHIFT + WIDTH` at most 8.
pub fn bits<const AT: usize, const SHIFT: u32, const WIDTH: u32>(bytes: &[u8; 64]) -> u8
    requires offset { AT < 64 }
    requires some { 1 ≤ WIDTH }
    requires within { SHIFT + WIDTH ≤ 8 }
    ensures number { result ≡ bits_in (record { at = AT; shift = SHIFT; width = WIDTH }) bytes.now }
    ensures fits { result < 2 ^ WIDTH }
{
    bits_at(bytes, AT, SHIFT, WIDTH)
}

/// Writes `number` into the `WIDTH` bits from bit `SHIFT` up of the byte at offset `AT`. Leaves all other bits
/// unchanged. `AT` must be less than 64, `WIDTH` at least 1, `SHIFT + WIDTH` at most 8, and `number` less than
/// 2^`WIDTH`.
pub fn with_bits<const AT: usize, const SHIFT: u32, const WIDTH: u32>(
    bytes: &mut [u8; 64],
    number: u8,
)
    requires offset { AT < 64 }
    requires some { 1 ≤ WIDTH }
    requires within { SHIFT + WIDTH ≤ 8 }
    requires fits { number < 2 ^ WIDTH }
    ensures { bytes.new
        ≡ with_bits (record { at = AT; shift = SHIFT; width = WIDTH }) number bytes.old }
{
    put_bits(bytes, AT, SHIFT, WIDTH, number);
}
