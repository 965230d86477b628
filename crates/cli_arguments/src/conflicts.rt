//! Arguments of a command line that exclude each other, or that need another argument that is not given.
ghost use Rattle.std.specs.Prelude.{◌≡◌, IfOk, codes, false, if◌then◌else◌};
ghost use Rattle.std.specs.Char.{is_ascii_hexdigit};
ghost use Rattle.std.specs.List.{list_all};
ghost use Rattle.std.specs.Str.{bytes_eq};
ghost use Rattle.clap.specs.Matches.{first_value, found_of};
ghost use Rattle.clap.specs.Simple.{subcommand_rows_of};
ghost use Rattle.clap.specs.Values.{kind_of};
ghost use Rattle.cli_arguments.specs.WayWord.{is_way};
ghost use Rattle.cli_arguments.specs.Words.{has_conflict, has_conflict_behind, is_guid, is_guid_word};
ghost use Rattle.cli_arguments.specs.Words.{is_held_and_named, is_key, is_wrong_seat, lacks_rule, order_rule};
ghost use Rattle.cli_arguments.specs.Words.{planning_conflict};

use crate::arg_matches::is_named;
use crate::argument_names::{
    AUDIT, BALANCE, GUID, HELD, MANAGE, ORDER, ROOTS, ROUTING, SERVE, SM_KEY, SPREAD, WAY,
};
use crate::command_line::subcommand;
use crate::way_word::packet_named;
use clap::error::ErrorKind;
use clap::{ArgMatches, Error};
use std::alloc::{AllocError, Global};

/// Returns whether options contradict each other, or a manager's GUID or SM_Key, or the packet of `audit`, is wrong.
pub(crate) fn has_conflict(matches: &ArgMatches<'_>) -> bool
    ensures { result ≡ has_conflict_behind (subcommand_rows_of matches.now) }
{
    match matches.subcommand() {
        Some((name, words)) => has_conflict_in(name, words),
        None => false,
    }
}

/// Returns whether the options of the subcommand `name` contradict each other, or one that it takes is wrong.
fn has_conflict_in(name: &str, words: &ArgMatches<'_>) -> bool
    ensures { result ≡ has_conflict name.now (first_value (found_of words.now)) }
{
    match name {
        SERVE | MANAGE => planning_conflict(name, words) || has_wrong_seat(words),
        AUDIT => !has_way(words),
        _ => planning_conflict(name, words) || is_held_and_named(words),
    }
}

/// Returns whether options of a plan or an order contradict each other, as roots and an order do, or lack a rule.
fn planning_conflict(name: &str, words: &ArgMatches<'_>) -> bool
    ensures { result ≡ planning_conflict name.now (first_value (found_of words.now)) }
{
    let rooted = is_named(words, ROOTS);
    let ordered = is_named(words, ORDER);
    (rooted && ordered) || lacks_rule(name, words, rooted, ordered)
}

/// Returns whether the order of held tables is asked for, and a rule, roots or an order are named, too.
fn is_held_and_named(words: &ArgMatches<'_>) -> bool
    ensures { result ≡ is_held_and_named (first_value (found_of words.now)) }
{
    is_named(words, HELD)
        && (is_named(words, ROUTING) || is_named(words, ROOTS) || is_named(words, ORDER))
}

/// Returns whether no GUID of 1 to 16 hex digits is named, or an SM_Key that is not 1 to 16 hex digits.
fn has_wrong_seat(words: &ArgMatches<'_>) -> bool
    ensures { result ≡ is_wrong_seat (first_value (found_of words.now)) }
{
    !has_guid(words) || !has_key(words)
}

/// Returns whether the SM_Key is 1 to 16 hex digits. Returns true if no SM_Key is named.
fn has_key(words: &ArgMatches<'_>) -> bool
    ensures { result ≡ is_key (first_value (found_of words.now) (codes "sm-key")) }
{
    match words.get_str(SM_KEY) {
        Some(word) => is_guid_word(word.as_bytes()),
        None => true,
    }
}

/// Returns whether the packet of `--way` is named as `packet_named` reads it. Returns true if no packet is named.
fn has_way(words: &ArgMatches<'_>) -> bool
    ensures { result ≡ is_way (first_value (found_of words.now) (codes "way")) }
{
    match words.get_str(WAY) {
        Some(word) => packet_named(word.as_bytes()).is_some(),
        None => true,
    }
}

/// Returns whether a GUID is named, and is 1 to 16 hex digits.
fn has_guid(words: &ArgMatches<'_>) -> bool
    ensures { result ≡ is_guid (first_value (found_of words.now) (codes "GUID")) }
{
    match words.get_str(GUID) {
        Some(word) => is_guid_word(word.as_bytes()),
        None => false,
    }
}

/// Returns whether `word` is 1 to 16 hex digits.
fn is_guid_word(word: &[u8]) -> bool
    ensures { result ≡ is_guid_word word.now }
{
    !word.is_empty() && word.len() <= 16 && are_hex_digits(word)
}

/// Returns whether all of `bytes` are hex digits.
fn are_hex_digits(bytes: &[u8]) -> bool
    ensures { result ≡ list_all is_ascii_hexdigit bytes.now }
{
    bytes.iter().all(|byte| byte.is_ascii_hexdigit())
}

/// Returns whether roots are named (`rooted`) without the rule that takes them, or an order is named (`ordered`)
/// without a rule that takes it. For the subcommand `order`, `spread` need not be named.
fn lacks_rule(name: &str, words: &ArgMatches<'_>, rooted: bool, ordered: bool) -> bool
    ensures { result ≡ lacks_rule (if bytes_eq name.now (codes "order")
        then order_rule (first_value (found_of words.now) (codes "routing"))
        else first_value (found_of words.now) (codes "routing")) rooted ordered }
{
    match (name, words.get_str(ROUTING)) {
        (_, Some(SPREAD)) | (ORDER, None) => false,
        (_, Some(BALANCE)) => rooted,
        _ => rooted || ordered,
    }
}

/// Returns the error for a command line with a conflict (`has_conflict`), or an outer `Err` if memory is refused.
pub(crate) fn conflict(alloc: Global, matches: &ArgMatches<'_>) -> Result<Error, AllocError>
    ensures { IfOk result (λ error. kind_of error ≡ ErrorKind.ArgumentConflict) }
{
    let mut command = subcommand(alloc, matches.subcommand_name())?;
    command.error(ErrorKind::ArgumentConflict, conflict_text(matches))
}

/// Returns the text of the error for options that contradict each other, or for a wrong GUID, SM_Key or packet. Returns
/// an empty text if there is no subcommand.
fn conflict_text(matches: &ArgMatches<'_>) -> &'static str {
    let Some((_, words)) = matches.subcommand() else {
        return "";
    };
    if is_named(words, GUID) && !has_guid(words) {
        return "invalid value for '<GUID>': 1 to 16 hex digits are wanted";
    }
    if !has_key(words) {
        return "invalid value for '--sm-key <HEX>': 1 to 16 hex digits are wanted";
    }
    if !has_way(words) {
        return "invalid value for '--way <G/p,L>': a port and a LID are wanted, as 0000000000000100/1,5";
    }
    if is_held_and_named(words) {
        return "the argument '--held <TABLES>' cannot be used with '--routing <RULE>', '--roots <FILE>' or \
            '--order <FILE>'";
    }
    match (is_named(words, ROOTS), is_named(words, ORDER)) {
        (true, true) => "the argument '--roots <FILE>' cannot be used with '--order <FILE>'",
        (true, false) => "the argument '--roots <FILE>' cannot be used without '--routing spread'",
        (false, _) => {
            "the argument '--order <FILE>' cannot be used without '--routing spread' or '--routing balance'"
        }
    }
}
