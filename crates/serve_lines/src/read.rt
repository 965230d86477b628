//! Parsing of lines.
ghost use Rattle.std.specs.Prelude.{◌≡◌, ◌∷◌};
ghost use Rattle.text_words.specs.Text.{words};
ghost use Rattle.serve_lines.specs.ServeLine.{bare_of, line_in, line_of, most_bytes, of_one, packet_behind};
ghost use Rattle.serve_lines.specs.ServeLine.{hex_number, packet_in, packet_of, transaction_of};

use crate::serve_line::ServeLine;
use schedule_file::{Ask, asked_by, generation_of, lid_of, shown_by};
use smp_bytes::Lid;
use text_words::{is_word, number, split_word};

/// The greatest number of bytes that a line may have, without its line feed.
pub const MOST_BYTES: usize = 600;

/// Parses `line`, a line without its line feed. Returns `Wrong` if `line` has more than `MOST_BYTES` bytes, or if the
/// grammar has no such line.
#[tactic(auto, unfolding(crate::specs::ServeLine::line_of))]
pub fn read_line(line: &[u8]) -> ServeLine
    ensures { result ≡ line_of line.now }
{
    if line.len() > MOST_BYTES {
        return ServeLine::Wrong;
    }
    match said_by(line) {
        Some(said) => said,
        None => ServeLine::Wrong,
    }
}

/// Parses the words of `line`. Returns `None` if the grammar has no such line.
fn said_by(line: &[u8]) -> Option<ServeLine>
    ensures { result ≡ line_in (words line.now) }
{
    let Some((word, rest)) = split_word(line) else {
        return Some(ServeLine::Empty);
    };
    let Some((one, rest)) = split_word(rest) else {
        return bare(word);
    };
    let Some((other, rest)) = split_word(rest) else {
        return of_one(word, one);
    };
    let (bytes, from) = packet_behind(word, one, other, rest)?;
    Some(ServeLine::Packet(bytes, from))
}

/// Parses the words `word`, `hex`, `between` and `rest` as a packet and the LID that it came from, if they spell one.
pub(crate) fn packet_behind(
    word: &[u8],
    hex: &[u8],
    between: &[u8],
    rest: &[u8],
) -> Option<([u8; 256], Lid)>
    ensures { result ≡ packet_behind word.now hex.now between.now (words rest.now) }
{
    let (lid, rest) = split_word(rest)?;
    if split_word(rest).is_some() {
        return None;
    }
    packet_in(word, hex, between, lid)
}

/// Parses the line that has the one word `word`. Returns `None` if the grammar has no such line.
fn bare(word: &[u8]) -> Option<ServeLine>
    ensures { result ≡ bare_of word.now }
{
    if let Some(what) = asked_by(word) {
        Some(ServeLine::Ask(what))
    } else if is_word(word, "timeout") {
        Some(ServeLine::GiveUp)
    } else if is_word(word, "managers") {
        Some(ServeLine::Managers)
    } else {
        Some(ServeLine::Show(shown_by(word)?))
    }
}

/// Parses the line that has the two words `word` and `arg`. Returns `None` if the grammar has no such line.
fn of_one(word: &[u8], arg: &[u8]) -> Option<ServeLine>
    ensures { result ≡ of_one word.now arg.now }
{
    if is_word(word, "poll") {
        Some(ServeLine::Ask(Ask::Poll(Some(lid_of(arg)?))))
    } else if is_word(word, "floor") {
        Some(ServeLine::Floor(generation_of(arg)?))
    } else if is_word(word, "timeout") {
        Some(ServeLine::Timeout(transaction_of(arg)?))
    } else {
        None
    }
}

/// Parses the four words `packet`, the packet in hex digits, `from`, and the LID that the packet came from.
fn packet_in(word: &[u8], hex: &[u8], between: &[u8], lid: &[u8]) -> Option<([u8; 256], Lid)>
    ensures { result ≡ packet_in word.now hex.now between.now lid.now }
{
    if !is_word(word, "packet") || !is_word(between, "from") {
        return None;
    }
    let bytes = packet_of(hex)?;
    Some((bytes, lid_of(lid)?))
}

/// Parses the 256 bytes of a packet, each written as two hex digits of either case.
pub(crate) fn packet_of(word: &[u8]) -> Option<[u8; 256]>
    ensures { result ≡ packet_of word.now }
{
    let mut bytes = [0; 256];
    match hex::decode_to_slice(word, &mut bytes) {
        Ok(()) => Some(bytes),
        Err(_) => None,
    }
}

/// Parses a TransactionID, written as 16 hex digits of either case. Returns `None` unless `word` is 16 hex digits.
fn transaction_of(word: &[u8]) -> Option<u64>
    ensures { result ≡ transaction_of word.now }
{
    if word.len() != 16 {
        return None;
    }
    hex_number(word)
}

/// Parses a number, written as 1 to 16 hex digits of either case. Returns `None` unless `word` is 1 to 16 hex digits.
pub fn hex_number(word: &[u8]) -> Option<u64>
    ensures { result ≡ hex_number word.now }
{
    if word.len() > 16 {
        return None;
    }
    number(word, 16)
}
