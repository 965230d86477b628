//! The values of the options of a command line.
ghost use Rattle.std.specs.Prelude.{◌≡◌, codes, is_some, option_and_then};
ghost use Rattle.clap.specs.Matches.{first_value, found_of};
ghost use Rattle.cli_task.specs.OptionValues.{floor_asked, lmc_asked, max_load_asked, number_in, number_or};
ghost use Rattle.cli_task.specs.OptionValues.{planning_asked, rule_asked, order_asked, within};
ghost use Rattle.cli_task.specs.OptionValues.{balance_asked, spread_asked, guid_asked};
ghost use Rattle.cli_task.specs.OptionValues.{limits_asked, newest_asked, port_asked, priority_asked, sm_key_asked};
ghost use Rattle.cli_task.specs.OptionValues.{timing_asked, way_asked};

use attr_codec::{Lmc, Priority};
use clap::ArgMatches;
use cli_arguments::argument_names::{
    BALANCE, EVERY, FLOOR, GUID, LMC, MAX_LOAD, NEWEST, ORDER, OUTSTANDING, POLL, PORT, PRIORITY,
    ROOTS, ROUTING, SM_KEY, SPREAD, STRICT, TIMEOUT, TRIES, UPDOWN, WAY,
};
use cli_arguments::{is_set, packet_named};
use request_window::Limits;
use serve_lines::hex_number;
use sm_cli::{RuleAsked, WayAsked};
use sm_policy::Timing;
use smp_bytes::{Generation, Guid, PortNum};

/// The SM_Key that OpenSM has unless its options set another.
const OPENSM_KEY: u64 = 1;

/// From the end of a master's sweep to its next one, in milliseconds, unless the command line says otherwise.
const DEFAULT_EVERY: u32 = 10_000;

/// From one poll of a standby to its next one, in milliseconds, unless the command line says otherwise.
const DEFAULT_POLL: u32 = 1_000;

/// For how many milliseconds an answer is waited for, unless the command line says otherwise.
const DEFAULT_TIMEOUT: u32 = 500;

/// How often a request is sent at most, unless the command line says otherwise.
const DEFAULT_TRIES: u32 = 4;

/// How many requests may be out at a time, unless the command line says otherwise.
const DEFAULT_OUTSTANDING: u32 = 4;

/// Returns the LMC that `words` ask for, by default 0, or `None` if it is not from 0 to 7.
fn lmc_of(words: &ArgMatches<'_>) -> Option<Lmc>
    ensures { result ≡ lmc_asked (first_value (found_of words.now) (codes "lmc")) }
{
    Lmc::new(u8::try_from(number_or(words, LMC, 0)?).ok()?)
}

/// Returns the 32-bit number after the option `name`, or `otherwise` if the option is not given.
fn number_or(words: &ArgMatches<'_>, name: &str, otherwise: u32) -> Option<u32>
    ensures { result ≡ number_or otherwise (first_value (found_of words.now) name.now) }
{
    match words.get_str(name) {
        Some(text) => number_in(text),
        None => Some(otherwise),
    }
}

/// Returns the 32-bit number that `text` writes in decimal, with or without a sign, as the parser reads numbers.
fn number_in(text: &str) -> Option<u32>
    ensures { result ≡ option_and_then (within 0 4294967295) (number_in text.now) }
{
    u32::try_from(text.parse::<i64>().ok()?).ok()
}

/// Returns the rule of routing that `words` ask for, by default `UpDown`, or `None` if their options conflict.
fn rule_of(words: &ArgMatches<'_>) -> Option<RuleAsked>
    ensures { result ≡ rule_asked (first_value (found_of words.now) (codes "routing"))
        (is_some (first_value (found_of words.now) (codes "roots")))
        (is_some (first_value (found_of words.now) (codes "order"))) }
{
    let rooted = words.get_str(ROOTS).is_some();
    let ordered = words.get_str(ORDER).is_some();
    match words.get_str(ROUTING) {
        None | Some(UPDOWN) if !rooted && !ordered => Some(RuleAsked::UpDown),
        Some(BALANCE) if !rooted => Some(balance_by(ordered)),
        Some(SPREAD) => spread_by(rooted, ordered),
        _ => None,
    }
}

/// Returns the rule that spreads, from roots if `rooted`, or in a named order if `ordered`, or `None` if both.
fn spread_by(rooted: bool, ordered: bool) -> Option<RuleAsked>
    ensures { result ≡ spread_asked rooted ordered }
{
    match (rooted, ordered) {
        (false, false) => Some(RuleAsked::Spread),
        (true, false) => Some(RuleAsked::SpreadFromRoots),
        (false, true) => Some(RuleAsked::SpreadInOrder),
        (true, true) => None,
    }
}

/// Returns the rule that spreads with balanced loads, in a named order if `ordered` is true.
fn balance_by(ordered: bool) -> RuleAsked
    ensures { result ≡ balance_asked ordered }
{
    if ordered {
        RuleAsked::BalanceInOrder
    } else {
        RuleAsked::Balance
    }
}

/// Returns the LMC and the rule of routing that `words` ask for, or `None` if their words are wrong.
pub(crate) fn planning_of(words: &ArgMatches<'_>) -> Option<(Lmc, RuleAsked)>
    ensures { result ≡ planning_asked (first_value (found_of words.now)) }
{
    let lmc = lmc_of(words)?;
    let rule = rule_of(words)?;
    Some((lmc, rule))
}

/// Returns the rule whose order `words` ask for, by default the rule that spreads, or `None` if their options conflict.
pub(crate) fn order_of(words: &ArgMatches<'_>) -> Option<RuleAsked>
    ensures { result ≡ order_asked (first_value (found_of words.now)) }
{
    match words.get_str(ROUTING) {
        Some(_) => rule_of(words),
        None => spread_by(
            words.get_str(ROOTS).is_some(),
            words.get_str(ORDER).is_some(),
        ),
    }
}

/// Returns the floor that `words` ask for, by default 1, or `None` if it is not from 1 to 2^32 - 1.
pub(crate) fn floor_of(words: &ArgMatches<'_>) -> Option<Generation>
    ensures { result ≡ floor_asked (first_value (found_of words.now) (codes "floor")) }
{
    Generation::new(number_or(words, FLOOR, 1)?)
}

/// Returns the GUID that `words` name, or `None` if they name none of 1 to 16 hex digits.
pub(crate) fn guid_of(words: &ArgMatches<'_>) -> Option<Guid>
    ensures { result ≡ guid_asked (first_value (found_of words.now) (codes "GUID")) }
{
    Some(Guid::new(hex_number(words.get_str(GUID)?.as_bytes())?))
}

/// Returns the port number that `words` name, or `None` if they name none from 1 to 254.
pub(crate) fn port_of(words: &ArgMatches<'_>) -> Option<PortNum>
    ensures { result ≡ port_asked (first_value (found_of words.now) (codes "PORT")) }
{
    let port = number_in(words.get_str(PORT)?)?;
    if port == 0 || port > 254 {
        return None;
    }
    Some(PortNum::new(port as u8))
}

/// Returns the priority that `words` name, or `None` if they name none from 0 to 15.
pub(crate) fn priority_of(words: &ArgMatches<'_>) -> Option<Priority>
    ensures { result ≡ priority_asked (first_value (found_of words.now) (codes "PRIORITY")) }
{
    let priority = number_in(words.get_str(PRIORITY)?)?;
    if priority > 15 {
        return None;
    }
    Priority::new(priority as u8)
}

/// Returns the SM_Key that `words` name, by default that of OpenSM, or `None` if it is not 1 to 16 hex digits.
pub(crate) fn sm_key_of(words: &ArgMatches<'_>) -> Option<u64>
    ensures { result ≡ sm_key_asked (first_value (found_of words.now) (codes "sm-key")) }
{
    match words.get_str(SM_KEY) {
        Some(word) => hex_number(word.as_bytes()),
        None => Some(OPENSM_KEY),
    }
}

/// Returns the maximum load that passes, by `words`: `Some(None)` for none, and `None` if it is no 32-bit number.
pub(crate) fn max_load_of(words: &ArgMatches<'_>) -> Option<Option<u64>>
    ensures { result ≡ max_load_asked (first_value (found_of words.now) (codes "max-load")) }
{
    match words.get_str(MAX_LOAD) {
        Some(text) => Some(Some(u64::from(number_in(text)?))),
        None => Some(None),
    }
}

/// Returns the packet whose way is printed, by `words`: `Some(None)` for none, and `None` if it is wrong.
pub(crate) fn way_of(words: &ArgMatches<'_>) -> Option<Option<WayAsked>>
    ensures { result ≡ way_asked (first_value (found_of words.now) (codes "way")) }
{
    match words.get_str(WAY) {
        Some(word) => {
            let (node, port, lid) = packet_named(word.as_bytes())?;
            Some(Some(WayAsked { node, port, lid }))
        }
        None => Some(None),
    }
}

/// Returns when a manager does what, by `words`, or `None` if an option for it has no 32-bit number.
pub(crate) fn timing_of(words: &ArgMatches<'_>) -> Option<Timing>
    ensures { result ≡ timing_asked (first_value (found_of words.now)) }
{
    let every = number_or(words, EVERY, DEFAULT_EVERY)?;
    let poll = number_or(words, POLL, DEFAULT_POLL)?;
    Some(Timing {
        every,
        poll,
        is_strict: is_set(words, STRICT),
    })
}

/// Returns what limits the requests of a manager, by `words`, or `None` if an option for it has no 32-bit number.
pub(crate) fn limits_of(words: &ArgMatches<'_>) -> Option<Limits>
    ensures { result ≡ limits_asked (first_value (found_of words.now)) }
{
    let outstanding = number_or(words, OUTSTANDING, DEFAULT_OUTSTANDING)?;
    let tries = number_or(words, TRIES, DEFAULT_TRIES)?;
    let timeout = number_or(words, TIMEOUT, DEFAULT_TIMEOUT)?;
    Some(Limits {
        outstanding,
        tries,
        timeout,
    })
}

/// Returns the newest generation that is known by `words`, by default 0, or `None` if it is no 32-bit number.
pub(crate) fn newest_of(words: &ArgMatches<'_>) -> Option<u32>
    ensures { result ≡ newest_asked (first_value (found_of words.now)) }
{
    number_or(words, NEWEST, 0)
}
