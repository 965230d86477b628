//! The words of commands about one manager: what it is asked for, what is shown of it, and the numbers that follow
//! its name.
ghost use Rattle.std.specs.Prelude.{◌≡◌};
ghost use Rattle.schedule_file.specs.ManagerWords.{asked_by, generation_of, shown_by};
ghost use Rattle.text_words.specs.Numbers.{lid_of};

use crate::command::{Ask, Shown};
use crate::numbers::number_up_to;
use smp_bytes::{Generation, Lid};
use text_words::is_word;

/// Returns the request to a manager that `word` stands for when only the manager's name follows, or `None` if `word`
/// stands for no request.
pub fn asked_by(word: &[u8]) -> Option<Ask>
    ensures { result ≡ asked_by word.now }
{
    if is_word(word, "sweep") {
        Some(Ask::Sweep)
    } else if is_word(word, "write") {
        Some(Ask::Write)
    } else if is_word(word, "handover") {
        Some(Ask::Handover)
    } else if is_word(word, "yield") {
        Some(Ask::Yield)
    } else if is_word(word, "rediscover") {
        Some(Ask::Rediscover)
    } else if is_word(word, "poll") {
        Some(Ask::Poll(None))
    } else {
        None
    }
}

/// If the command `word` shows something of a manager, returns what it shows. Otherwise returns `None`.
pub fn shown_by(word: &[u8]) -> Option<Shown>
    ensures { result ≡ shown_by word.now }
{
    if is_word(word, "facts") {
        Some(Shown::Facts)
    } else if is_word(word, "plan") {
        Some(Shown::Plan)
    } else if is_word(word, "progress") {
        Some(Shown::Progress)
    } else if is_word(word, "silent") {
        Some(Shown::Silent)
    } else if is_word(word, "written") {
        Some(Shown::Written)
    } else if is_word(word, "state") {
        Some(Shown::State)
    } else {
        None
    }
}

/// Parses a LID in decimal. Returns `None` if `word` is not a decimal number, or if the number is above 65,535.
pub fn lid_of(word: &[u8]) -> Option<Lid>
    ensures { result ≡ lid_of word.now }
{
    Some(Lid::new(number_up_to(word, 0xFFFF)? as u16))
}

/// Parses a generation in decimal. Returns `None` if `word` is not a decimal number, or if the number is not from 1
/// to 4,294,967,295.
pub fn generation_of(word: &[u8]) -> Option<Generation>
    ensures { result ≡ generation_of word.now }
{
    Generation::new(number_up_to(word, u32::MAX)?)
}
