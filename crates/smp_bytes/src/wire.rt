//! Numbers as packets and attributes spell them: the most significant byte first. All bytes that a function reads or
//! writes must be within `bytes`.
ghost use Rattle.std.specs.Prelude.{◌≡◌, ℕ, ◌+◌, ◌≤◌, ◌<◌, ◌^◌, length};
ghost use Rattle.smp_bytes.specs.Field.{bits_in, number_in, replaced, with_bits, with_bytes, with_number};

use byteorder::{BigEndian, ByteOrder};

/// Returns the byte at offset `at`.
pub fn u8_at(bytes: &[u8], at: usize) -> u8
    requires { at < length bytes.now }
    ensures { result ≡ number_in (record { at = at; len = 1 }) bytes.now }
{
    bytes[at]
}

/// Returns the number in the two bytes that start at offset `at`.
pub fn u16_at(bytes: &[u8], at: usize) -> u16
    requires { at + 2 ≤ length bytes.now }
    ensures { result ≡ number_in (record { at = at; len = 2 }) bytes.now }
{
    BigEndian::read_u16(&bytes[at..])
}

/// Returns the number in the three bytes that start at offset `at`.
pub fn u24_at(bytes: &[u8], at: usize) -> u32
    requires { at + 3 ≤ length bytes.now }
    ensures number { result ≡ number_in (record { at = at; len = 3 }) bytes.now }
    ensures fits { result < 2 ^ 24 }
{
    BigEndian::read_u24(&bytes[at..])
}

/// Returns the number in the four bytes that start at offset `at`.
pub fn u32_at(bytes: &[u8], at: usize) -> u32
    requires { at + 4 ≤ length bytes.now }
    ensures { result ≡ number_in (record { at = at; len = 4 }) bytes.now }
{
    BigEndian::read_u32(&bytes[at..])
}

/// Returns the number in the eight bytes that start at offset `at`.
pub fn u64_at(bytes: &[u8], at: usize) -> u64
    requires { at + 8 ≤ length bytes.now }
    ensures { result ≡ number_in (record { at = at; len = 8 }) bytes.now }
{
    BigEndian::read_u64(&bytes[at..])
}

/// Writes `number` into the byte at offset `at`.
pub fn put_u8(bytes: &mut [u8], at: usize, number: u8)
    requires { at < length bytes.old }
    ensures { bytes.new ≡ with_number (record { at = at; len = 1 }) number bytes.old }
{
    bytes[at] = number;
}

/// Writes `number` into the two bytes that start at offset `at`.
pub fn put_u16(bytes: &mut [u8], at: usize, number: u16)
    requires { at + 2 ≤ length bytes.old }
    ensures { bytes.new ≡ with_number (record { at = at; len = 2 }) number bytes.old }
{
    BigEndian::write_u16(&mut bytes[at..], number);
}

/// Writes `number`, which must be less than 2^24, into the three bytes that start at offset `at`.
pub fn put_u24(bytes: &mut [u8], at: usize, number: u32)
    requires offset { at + 3 ≤ length bytes.old }
    requires fits { number < 2 ^ 24 }
    ensures { bytes.new ≡ with_number (record { at = at; len = 3 }) number bytes.old }
{
    BigEndian::write_u24(&mut bytes[at..], number);
}

/// Writes `number` into the four bytes that start at offset `at`.
pub fn put_u32(bytes: &mut [u8], at: usize, number: u32)
    requires { at + 4 ≤ length bytes.old }
    ensures { bytes.new ≡ with_number (record { at = at; len = 4 }) number bytes.old }
{
    BigEndian::write_u32(&mut bytes[at..], number);
}

/// Writes `number` into the eight bytes that start at offset `at`.
pub fn put_u64(bytes: &mut [u8], at: usize, number: u64)
    requires { at + 8 ≤ length bytes.old }
    ensures { bytes.new ≡ with_number (record { at = at; len = 8 }) number bytes.old }
{
    BigEndian::write_u64(&mut bytes[at..], number);
}

/// Copies `written` into `bytes`, starting at `at`. `written` must end within `bytes`.
pub fn put_bytes(bytes: &mut [u8], at: usize, written: &[u8])
    requires { at + length written.now ≤ length bytes.old }
    ensures { bytes.new ≡ with_bytes at written.now bytes.old }
{
    bytes[at..at + written.len()].copy_from_slice(written);
}

/// Returns the number in the `width` bits from bit `shift` up of the byte at offset `at`. `width` must be at least 1,
/// and `shift + width` at most 8.
pub fn bits_at(bytes: &[u8], at: usize, shift: u32, width: u32) -> u8
    requires offset { at < length bytes.now }
    requires some { 1 ≤ width }
    requires within { shift + width ≤ 8 }
    ensures number { result ≡ bits_in (record { at = at; shift = shift; width = width }) bytes.now }
    ensures fits { result < 2 ^ width }
{
    let above = u32::from(bytes[at]) >> shift;
    let number = above % (1 << width);
    number as u8
}

/// Writes `number` into the `width` bits from bit `shift` up of the byte at offset `at`. Leaves all other bits
/// unchanged. `width` must be at least 1, `shift + width` at most 8, and `number` less than 2^`width`.
pub fn put_bits(bytes: &mut [u8], at: usize, shift: u32, width: u32, number: u8)
    requires offset { at < length bytes.old }
    requires some { 1 ≤ width }
    requires within { shift + width ≤ 8 }
    requires fits { number < 2 ^ width }
    ensures { bytes.new
        ≡ with_bits (record { at = at; shift = shift; width = width }) number bytes.old }
{
    let byte = u32::from(bytes[at]);
    let replaced = replaced(byte, shift, width, u32::from(number));
    put_u8(bytes, at, replaced);
}

/// Returns `byte` with `number` in the `width` bits from bit `shift` up.
fn replaced(byte: u32, shift: u32, width: u32, number: u32) -> u8
    requires byte { byte < 256 }
    requires within { shift + width ≤ 8 }
    requires fits { number < 2 ^ width }
    ensures { result ≡ replaced (record { at = 0; shift = shift; width = width }) number byte }
{
    let above = byte >> (shift + width);
    let below = byte % (1 << shift);
    let replaced = (((above << width) + number) << shift) + below;
    replaced as u8
}
