//! Parsing of the lines that are told to a manager that decides by itself.
ghost use Rattle.std.specs.Prelude.{◌≡◌};
ghost use Rattle.std.specs.Char.{is_digit};
ghost use Rattle.std.specs.List.{list_all};
ghost use Rattle.text_words.specs.Text.{words};
ghost use Rattle.serve_lines.specs.ManageLine.{behind_time, light_of, line_in, long_of, manage_line_of};
ghost use Rattle.serve_lines.specs.ManageLine.{time_of, word_of};
ghost use Rattle.serve_lines.specs.ServeLine.{most_bytes};

use crate::manage_line::{ManageLine, ManageWord};
use crate::read::{MOST_BYTES, packet_behind, packet_of};
use schedule_file::shown_by;
use text_words::{is_word, split_word};

/// Parses `line`, a line without its line feed. Returns `Wrong` if `line` has more than `MOST_BYTES` bytes, or if the
/// grammar has no such line.
#[tactic(auto, unfolding(crate::specs::ManageLine::manage_line_of))]
pub fn read_manage_line(line: &[u8]) -> ManageLine
    ensures { result ≡ manage_line_of line.now }
{
    if line.len() > MOST_BYTES {
        return ManageLine::Wrong;
    }
    match told_by(line) {
        Some(told) => told,
        None => ManageLine::Wrong,
    }
}

/// Parses the words of `line`. Returns `None` if the grammar has no such line.
fn told_by(line: &[u8]) -> Option<ManageLine>
    ensures { result ≡ line_in (words line.now) }
{
    let Some((time, rest)) = split_word(line) else {
        return Some(ManageLine::Empty);
    };
    let time = time_of(time)?;
    Some(ManageLine::Told(time, behind_time(rest)?))
}

/// Parses a time, a 64-bit number of milliseconds in decimal.
fn time_of(word: &[u8]) -> Option<u64>
    ensures { result ≡ time_of word.now }
{
    if !are_digits(word) {
        return None;
    }
    let Ok(text) = str::from_utf8(word) else {
        return None;
    };
    text.parse().ok()
}

/// Returns whether all of `bytes` are decimal digits.
fn are_digits(bytes: &[u8]) -> bool
    ensures { result ≡ list_all (λ b. is_digit b 10) bytes.now }
{
    bytes.iter().all(|byte| char::from(*byte).is_digit(10))
}

/// Parses the words of `rest`, which follow the time. Returns `None` if the grammar has no such words.
fn behind_time(rest: &[u8]) -> Option<ManageWord>
    ensures { result ≡ behind_time (words rest.now) }
{
    let Some((word, rest)) = split_word(rest) else {
        return Some(ManageWord::Time);
    };
    let Some((hex, rest)) = split_word(rest) else {
        return word_of(word);
    };
    let Some((between, rest)) = split_word(rest) else {
        return light_of(word, hex);
    };
    long_of(word, hex, between, rest)
}

/// Parses the words `word` and `hex` as `light` and a packet in hex digits.
fn light_of(word: &[u8], hex: &[u8]) -> Option<ManageWord>
    ensures { result ≡ light_of word.now hex.now }
{
    if is_word(word, "light") {
        Some(ManageWord::LightAnswer(packet_of(hex)?))
    } else {
        None
    }
}

/// Parses the words `word`, `hex` and `between`, and then those of `rest`, if the grammar has them.
fn long_of(word: &[u8], hex: &[u8], between: &[u8], rest: &[u8]) -> Option<ManageWord>
    ensures { result ≡ long_of word.now hex.now between.now (words rest.now) }
{
    if is_word(word, "sa") {
        let (bytes, from) = packet_behind(b"packet", hex, between, rest)?;
        Some(ManageWord::Sa(bytes, from))
    } else {
        let (bytes, from) = packet_behind(word, hex, between, rest)?;
        Some(ManageWord::Packet(bytes, from))
    }
}

/// Parses the only word after the time. Returns `None` if the grammar has no such word.
fn word_of(word: &[u8]) -> Option<ManageWord>
    ensures { result ≡ word_of word.now }
{
    if is_word(word, "look") {
        Some(ManageWord::Look)
    } else if is_word(word, "light") {
        Some(ManageWord::Light)
    } else if is_word(word, "leave") {
        Some(ManageWord::Leave)
    } else if is_word(word, "managers") {
        Some(ManageWord::Managers)
    } else {
        Some(ManageWord::Show(shown_by(word)?))
    }
}
