ghost use Rattle.std.specs.Prelude.{◌≡◌, option_map};
ghost use Rattle.text_words.specs.Quoted.{until, enclosed, quoted_name, bracketed_port, named_port};

use crate::node_name::NodeName;
use crate::numbers::port_number;
use crate::text::place_of;

/// Parses a name in double quotes, `"name"`. Returns `None` if the word is anything else. Takes time linear in the
/// word's length.
pub fn quoted_name(word: &[u8]) -> Option<NodeName>
    ensures { result ≡ quoted_name word.now }
{
    let (name, rest) = enclosed(word, b'"', b'"')?;
    if !rest.is_empty() {
        return None;
    }
    NodeName::new(name)
}

/// Parses a port in brackets, `[port]`. Returns `None` if the word is not a number in brackets, and `Some(None)` if the
/// number is not from 1 to 254. Takes time linear in the word's length.
pub fn bracketed_port(word: &[u8]) -> Option<Option<u8>>
    ensures { result ≡ bracketed_port word.now }
{
    let (port, rest) = enclosed(word, b'[', b']')?;
    if !rest.is_empty() {
        return None;
    }
    port_number(port)
}

/// Parses a name in double quotes, directly followed by a port in brackets, `"name"[port]`. Returns `None` if the word
/// is anything else. The port is `None` if it is not from 1 to 254. Takes time linear in the word's length.
pub fn named_port(word: &[u8]) -> Option<(NodeName, Option<u8>)>
    ensures { result ≡ named_port word.now }
{
    let (name, port) = enclosed(word, b'"', b'"')?;
    let name = NodeName::new(name)?;
    Some((name, bracketed_port(port)?))
}

/// Splits a word that begins with the byte `first`. Returns the bytes between `first` and the next `close`, and the
/// bytes after this `close`. Returns `None` if the word does not begin with `first` or no `close` follows. Takes time
/// linear in the word's length.
pub fn enclosed(word: &[u8], first: u8, close: u8) -> Option<(&[u8], &[u8])>
    ensures { option_map (λ x. (x.0.now, x.1.now)) result ≡ enclosed first close word.now }
{
    let (byte, rest) = word.split_first()?;
    if *byte != first {
        return None;
    }
    until(rest, close)
}

/// Returns the parts of `bytes` before and after the first `close`, or `None` if there is no `close`.
#[tactic(auto, using(crate::proofs::Splits::until_at, crate::proofs::Splits::until_none))]
fn until(bytes: &[u8], close: u8) -> Option<(&[u8], &[u8])>
    ensures { option_map (λ x. (x.0.now, x.1.now)) result ≡ until close bytes.now }
{
    let len = place_of(bytes, close)?;
    Some((&bytes[..len], &bytes[len + 1..]))
}
