ghost use Rattle.std.specs.Prelude.{◌≡◌};
ghost use Rattle.roots_file.specs.Line.{digits_of, root_of, root_on};

use crate::roots_text_fault::RootsTextError;
use smp_bytes::Guid;
use text_words::{number, split_word};

/// Returns the root in the only word of `line`, if it has one. Fails with `Syntax` if it has more, or the word's fault.
#[tactic(auto, unfolding(crate::specs::Line::root_on))]
pub(crate) fn root_on(line: &[u8]) -> Result<Option<Guid>, RootsTextError>
    ensures { result ≡ root_on line.now }
{
    let Some((word, rest)) = split_word(line) else {
        return Ok(None);
    };
    if split_word(rest).is_some() {
        return Err(RootsTextError::Syntax);
    }
    match root(word) {
        Ok(root) => Ok(Some(root)),
        Err(wrong) => Err(wrong),
    }
}

/// Parses a root: 1 to 16 hex digits, not all 0, with or without `0x`.
#[tactic(auto, using(crate::proofs::Guids::whole, crate::proofs::Guids::long, crate::proofs::Guids::zero_is_none, crate::proofs::Guids::no_digits))]
fn root(word: &[u8]) -> Result<Guid, RootsTextError>
    ensures { result ≡ root_of word.now }
{
    let digits = digits(word);
    let Some(number) = number(digits, 16) else {
        return Err(RootsTextError::Syntax);
    };
    if digits.len() > 16 || number == 0 {
        return Err(RootsTextError::Guid);
    }
    Ok(Guid::new(number))
}

/// Returns the digits of `word`: the part after `0x` if `word` begins with `0x`, and otherwise the whole word.
fn digits(word: &[u8]) -> &[u8]
    ensures { result.now ≡ digits_of word.now }
{
    match word.strip_prefix(b"0x") {
        Some(digits) => digits,
        None => word,
    }
}
