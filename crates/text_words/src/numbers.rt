ghost use Rattle.std.specs.Prelude.{◌≡◌, ◌^◌, ◌-◌, ◌+◌, ◌*◌, ◌<◌, ◌≤◌, min, option_map};
ghost use Rattle.text_words.specs.Numbers.{bare_guid_of, bytes_of, count_of, digit_of, guid_of, number_of, small_of};

use smp_bytes::Guid;

/// Parses a word of digits in `base`. Returns `None` if the word is empty or has a byte that is not such a digit. A
/// number over `u64::MAX` gives `u64::MAX`. `base` must be from 2 to 36. Takes time linear in the number of digits.
pub fn number(word: &[u8], base: u32) -> Option<u64>
    requires { 2 ≤ base × base ≤ 36 }
    ensures { result ≡ option_map (min (2 ^ 64 - 1)) (number_of base word.now) }
{
    if word.is_empty() {
        return None;
    }
    let mut number = 0;
    for byte in word {
        number = with_digit(number, base, digit(*byte, base)?);
    }
    Some(number)
}

/// Returns the value of the digit `byte`, or `None` if `byte` is not a digit in `base`.
fn digit(byte: u8, base: u32) -> Option<u32>
    requires { 2 ≤ base × base ≤ 36 }
    ensures { result ≡ digit_of base byte }
{
    char::from(byte).to_digit(base)
}

/// Returns `number * base + digit`, or `u64::MAX` if the sum is greater.
fn with_digit(number: u64, base: u32, digit: u32) -> u64
    requires { 1 ≤ base }
    ensures { result ≡ min (2 ^ 64 - 1) (number * base + digit) }
{
    number
        .saturating_mul(u64::from(base))
        .saturating_add(u64::from(digit))
}

/// Parses a word of decimal digits as a number from 1 to `most`. Returns `None` if the word is not a number, and
/// `Some(None)` if the number is 0 or over `most`.
pub fn count(word: &[u8], most: u16) -> Option<Option<u16>>
    ensures { result ≡ count_of most word.now }
{
    let number = number(word, 10)?;
    let is_within = 1 <= number && number <= u64::from(most);
    Some(if is_within { Some(number as u16) } else { None })
}

/// Parses a word of decimal digits as a port number from 1 to 254. Returns `None` if the word is not a number, and
/// `Some(None)` if the number is 0 or over 254.
pub fn port_number(word: &[u8]) -> Option<Option<u8>>
    ensures { result ≡ count_of 254 word.now }
{
    let number = number(word, 10)?;
    Some(if matches!(number, 1..=254) {
        Some(number as u8)
    } else {
        None
    })
}

/// Parses a GUID: `0x` and 1 to 16 hex digits. Returns `None` if the word is anything else.
pub fn guid(word: &[u8]) -> Option<Guid>
    ensures { result ≡ guid_of word.now }
{
    let digits = word.strip_prefix(b"0x")?;
    if digits.len() > 16 {
        return None;
    }
    Some(Guid::new(number(digits, 16)?))
}

/// Parses a GUID of 1 to 16 hex digits, without `0x` in front. Returns `None` if the word is anything else.
#[tactic(auto, using(crate::proofs::BareGuids::bare_guid_is, crate::proofs::BareGuids::long_is_none))]
pub fn bare_guid(word: &[u8]) -> Option<Guid>
    ensures { result ≡ bare_guid_of word.now }
{
    if word.len() > 16 {
        return None;
    }
    Some(Guid::new(number(word, 16)?))
}

/// Parses a word of decimal digits as a number up to `most`. Returns `None` if the word is not a number, and
/// `Some(None)` if the number is over `most`.
pub fn small(word: &[u8], most: u16) -> Option<Option<u16>>
    ensures { result ≡ small_of most word.now }
{
    let number = number(word, 10)?;
    Some(if number <= u64::from(most) {
        Some(number as u16)
    } else {
        None
    })
}

/// Parses a word of decimal digits as a number up to `most`. Returns `None` if the word is not a number, and
/// `Some(None)` if the number is over `most`.
pub fn small_byte(word: &[u8], most: u8) -> Option<Option<u8>>
    ensures { result ≡ small_of most word.now }
{
    let number = number(word, 10)?;
    Some(if number <= u64::from(most) {
        Some(number as u8)
    } else {
        None
    })
}

/// Parses `N` bytes, each as two hex digits of either case. Returns `None` if the word is not 2 * `N` hex digits.
pub fn hex_bytes<const N: usize>(word: &[u8]) -> Option<[u8; N]>
    ensures { result ≡ bytes_of N word.now }
{
    let mut bytes = [0; N];
    match hex::decode_to_slice(word, &mut bytes) {
        Ok(()) => Some(bytes),
        Err(_) => None,
    }
}
