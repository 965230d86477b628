//! A node's GUID and a port of it as a word, as in `0000000000000100/1`.
ghost use Rattle.std.specs.Prelude.{◌≡◌, ◌==◌, option_map, position};
ghost use Rattle.text_words.specs.Numbers.{small_of};
ghost use Rattle.text_words.specs.NodePorts.{port_of};
ghost use Rattle.text_words.specs.Quoted.{until};

use crate::numbers::{bare_guid, small_byte};
use smp_bytes::{Guid, PortNum};

/// Parses a node's GUID and a port of it, as in `0000000000000100/1`. The port is `None` if it is above 254. Returns
/// `None` if the word is not of this form.
pub fn node_port(word: &[u8]) -> Option<(Guid, Option<PortNum>)>
    ensures { result ≡ port_of word.now }
{
    let (node, number) = before_slash(word)?;
    let node = bare_guid(node)?;
    let port = plain_port(number)?;
    Some((node, port))
}

/// Parses a word of decimal digits as a port up to 254. Returns `None` if the word is not a number, and `Some(None)` if
/// the number is over 254.
pub fn plain_port(word: &[u8]) -> Option<Option<PortNum>>
    ensures { result ≡ small_of 254 word.now }
{
    Some(match small_byte(word, 254)? {
        Some(number) => Some(PortNum::new(number)),
        None => None,
    })
}

/// Returns the part of `word` before its first slash and the part after it, or `None` if `word` has no slash.
#[tactic(auto, using(crate::proofs::Splits::until_at, crate::proofs::Splits::until_none))]
fn before_slash(word: &[u8]) -> Option<(&[u8], &[u8])>
    ensures { option_map (λ x. (x.0.now, x.1.now)) result ≡ until 47 word.now }
{
    let len = slash(word)?;
    Some((&word[..len], &word[len + 1..]))
}

/// Returns the index of the first slash in `word`, or `None` if `word` has no slash.
fn slash(word: &[u8]) -> Option<usize>
    ensures { result ≡ position (λ b. b == 47) word.now }
{
    word.iter().position(|b| *b == b'/')
}
