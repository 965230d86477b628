ghost use Rattle.std.specs.Prelude.{◌≡◌, ◌^◌, ◌-◌};
ghost use Rattle.text_words.specs.Numbers.{number_up_to};

use text_words::number;

/// Parses `word` as a decimal number of at most `most`. Takes time linear in the length of `word`.
pub(crate) fn number_up_to(word: &[u8], most: u32) -> Option<u32>
    ensures { result ≡ number_up_to most word.now }
{
    let number = number(word, 10)?;
    if number <= u64::from(most) {
        Some(number as u32)
    } else {
        None
    }
}

/// Parses `word` as a decimal number of 64 bits. Takes time linear in the length of `word`.
pub(crate) fn serial(word: &[u8]) -> Option<u64>
    ensures { result ≡ number_up_to (2 ^ 64 - 1) word.now }
{
    let (last, front) = word.split_last()?;
    let digit = char::from(*last).to_digit(10)?;
    if front.is_empty() {
        return Some(u64::from(digit));
    }
    let tens = number(front, 10)?.checked_mul(10)?;
    tens.checked_add(u64::from(digit))
}
