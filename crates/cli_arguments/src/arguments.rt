//! The arguments and options of subcommands.
ghost use Rattle.std.specs.Prelude.{◌≡◌, codes, false};
ghost use Rattle.clap.specs.Walk.{rule_of};
ghost use Rattle.cli_arguments.specs.CommandLine.{all_rule, every_rule, files_rule, flag_rule, floor_rule};
ghost use Rattle.cli_arguments.specs.CommandLine.{lmc_rule, loads_rule, max_load_rule, multicast_rule};
ghost use Rattle.cli_arguments.specs.CommandLine.{newest_rule, option_rule};
ghost use Rattle.cli_arguments.specs.CommandLine.{outstanding_rule, poll_rule, port_rule, priority_rule};
ghost use Rattle.cli_arguments.specs.CommandLine.{routing_rule, strict_rule, text_rule, timeout_rule, tries_rule};

use crate::argument_names::{
    ALL, EVERY, FILE, FLOOR, HELD, LANES, LAST_ORDER, LMC, LOADS, MAX_LOAD, MULTICAST, NEWEST,
    ORDER, OUTSTANDING, POLL, PORT, PRIORITY, ROOTS, ROUTING, SM_KEY, STRICT, TIMEOUT, TRIES, WAY,
};
use clap::{Arg, ArgAction, value_parser};
use std::alloc::Global;

/// Builds a required argument that takes one word.
pub(crate) fn text<'a>(alloc: Global, name: &'a str, help: &'a str) -> Arg<'a>
    ensures rule { rule_of result ≡ text_rule name.now }
    ensures own { result.global ≡ false }
{
    Arg::new(alloc, name)
        .help(help)
        .required(true)
        .action(ArgAction::Set)
}

/// Builds an option that takes one word, which help calls `value_name`.
fn option<'a>(alloc: Global, name: &'a str, value_name: &'a str, help: &'a str) -> Arg<'a>
    ensures rule { rule_of result ≡ option_rule name.now }
    ensures own { result.global ≡ false }
{
    Arg::new(alloc, name)
        .long(name)
        .value_name(value_name)
        .help(help)
        .action(ArgAction::Set)
}

/// Builds an option that takes no word.
fn flag<'a>(alloc: Global, name: &'a str, help: &'a str) -> Arg<'a>
    ensures rule { rule_of result ≡ flag_rule name.now }
    ensures own { result.global ≡ false }
{
    Arg::new(alloc, name)
        .long(name)
        .help(help)
        .action(ArgAction::SetTrue)
}

/// Builds the argument for the number of a port.
pub(crate) fn port<'a>(alloc: Global) -> Arg<'a>
    ensures rule { rule_of result ≡ port_rule }
    ensures own { result.global ≡ false }
{
    text(alloc, PORT, "The number of the port, 1 to 254").value_parser(value_parser!(u8).range(
        1..=254,
    ))
}

/// Builds the argument for the priority of a manager.
pub(crate) fn priority<'a>(alloc: Global) -> Arg<'a>
    ensures rule { rule_of result ≡ priority_rule }
    ensures own { result.global ≡ false }
{
    text(alloc, PRIORITY, "The priority of the manager, 0 to 15").value_parser(value_parser!(
        u8
    ).range(0..=15))
}

/// Builds the option for the SM_Key of a manager.
pub(crate) fn sm_key<'a>(alloc: Global) -> Arg<'a>
    ensures rule { rule_of result ≡ option_rule (codes "sm-key") }
    ensures own { result.global ≡ false }
{
    option(
        alloc,
        SM_KEY,
        "HEX",
        "The SM_Key of the manager, 1 to 16 hex digits; 1, OpenSM's, by default",
    )
}

/// Builds the flag for the multicast tree.
pub(crate) fn multicast<'a>(alloc: Global) -> Arg<'a>
    ensures rule { rule_of result ≡ multicast_rule }
    ensures own { result.global ≡ false }
{
    flag(
        alloc,
        MULTICAST,
        "Also writes one multicast tree, that of the LID 0xC000, with all adapters in it",
    )
}

/// Builds the option for the time between the sweeps of a master.
pub(crate) fn every<'a>(alloc: Global) -> Arg<'a>
    ensures rule { rule_of result ≡ every_rule }
    ensures own { result.global ≡ false }
{
    option(
        alloc,
        EVERY,
        "MS",
        "As master, sweeps MS milliseconds after the last sweep, 1000 to 3600000; 10000 by default",
    )
    .value_parser(value_parser!(u32).range(1000..=3600000))
}

/// Builds the option for the time between the polls of a standby.
pub(crate) fn poll<'a>(alloc: Global) -> Arg<'a>
    ensures rule { rule_of result ≡ poll_rule }
    ensures own { result.global ≡ false }
{
    option(
        alloc,
        POLL,
        "MS",
        "As standby, polls the master every MS milliseconds, 1 to 600000; 1000 by default",
    )
    .value_parser(value_parser!(u32).range(1..=600000))
}

/// Builds the flag for plans only after sweeps that had every answer.
pub(crate) fn strict<'a>(alloc: Global) -> Arg<'a>
    ensures rule { rule_of result ≡ strict_rule }
    ensures own { result.global ≡ false }
{
    flag(
        alloc,
        STRICT,
        "Never plans while a request of sweeps has no answer",
    )
}

/// Builds the option for the time that an answer is waited for.
pub(crate) fn timeout<'a>(alloc: Global) -> Arg<'a>
    ensures rule { rule_of result ≡ timeout_rule }
    ensures own { result.global ≡ false }
{
    option(
        alloc,
        TIMEOUT,
        "MS",
        "Waits MS milliseconds for an answer, 1 to 600000; 500 by default",
    )
    .value_parser(value_parser!(u32).range(1..=600000))
}

/// Builds the option for how often a request is sent.
pub(crate) fn tries<'a>(alloc: Global) -> Arg<'a>
    ensures rule { rule_of result ≡ tries_rule }
    ensures own { result.global ≡ false }
{
    option(
        alloc,
        TRIES,
        "N",
        "Sends a request N times at most, 1 to 101; 4 by default",
    )
    .value_parser(value_parser!(u32).range(1..=101))
}

/// Builds the option for the number of requests that are out at a time.
pub(crate) fn outstanding<'a>(alloc: Global) -> Arg<'a>
    ensures rule { rule_of result ≡ outstanding_rule }
    ensures own { result.global ≡ false }
{
    option(
        alloc,
        OUTSTANDING,
        "N",
        "Has N requests out at a time at most, 1 to 64; 4 by default",
    )
    .value_parser(value_parser!(u32).range(1..=64))
}

/// Builds the option for the newest generation that is known.
pub(crate) fn newest<'a>(alloc: Global) -> Arg<'a>
    ensures rule { rule_of result ≡ newest_rule }
    ensures own { result.global ≡ false }
{
    option(
        alloc,
        NEWEST,
        "G",
        "Sweeps get generations above G, the newest that is known, 0 to 4294967294; 0 by default",
    )
    .value_parser(value_parser!(u32).range(0..=4294967294))
}

/// Builds the option for the floor.
pub(crate) fn floor<'a>(alloc: Global) -> Arg<'a>
    ensures rule { rule_of result ≡ floor_rule }
    ensures own { result.global ≡ false }
{
    option(
        alloc,
        FLOOR,
        "G",
        "Ignores facts older than generation G, 1 to 4294967295",
    )
    .value_parser(value_parser!(u32).range(1..))
}

/// Builds the flag for all lines of each kind.
pub(crate) fn all<'a>(alloc: Global) -> Arg<'a>
    ensures rule { rule_of result ≡ all_rule }
    ensures own { result.global ≡ false }
{
    flag(
        alloc,
        ALL,
        "Prints all lines, not only the first 20 of each kind",
    )
}

/// Builds the option for the file of the order that the last step went by.
pub(crate) fn last_order<'a>(alloc: Global) -> Arg<'a>
    ensures rule { rule_of result ≡ option_rule (codes "last-order") }
    ensures own { result.global ≡ false }
{
    option(
        alloc,
        LAST_ORDER,
        "FILE",
        "The order that the last step printed, one GUID per line: this step stays near it",
    )
}

/// Builds the option for the greatest load that passes.
pub(crate) fn max_load<'a>(alloc: Global) -> Arg<'a>
    ensures rule { rule_of result ≡ max_load_rule }
    ensures own { result.global ≡ false }
{
    option(
        alloc,
        MAX_LOAD,
        "N",
        "Fails if a channel carries more than N pairs of adapter ports, N from 0 to 4294967295",
    )
    .value_parser(value_parser!(u32).range(0..))
}

/// Builds the flag for the load of each channel.
pub(crate) fn loads<'a>(alloc: Global) -> Arg<'a>
    ensures rule { rule_of result ≡ loads_rule }
    ensures own { result.global ≡ false }
{
    flag(
        alloc,
        LOADS,
        "Also prints how many pairs of adapter ports each channel carries",
    )
}

/// Builds the option for the packet whose way is printed.
pub(crate) fn way<'a>(alloc: Global) -> Arg<'a>
    ensures rule { rule_of result ≡ option_rule (codes "way") }
    ensures own { result.global ≡ false }
{
    option(
        alloc,
        WAY,
        "G/p,L",
        "Also prints the way of the packet from port p of node G to the LID L",
    )
}

/// Builds the option for the file of lanes.
pub(crate) fn lanes<'a>(alloc: Global) -> Arg<'a>
    ensures rule { rule_of result ≡ option_rule (codes "lanes") }
    ensures own { result.global ≡ false }
{
    option(
        alloc,
        LANES,
        "FILE",
        "Judges credit loops by virtual lane, with the lanes and service levels in FILE",
    )
}

/// Builds the option for the text of tables whose order is printed.
pub(crate) fn held<'a>(alloc: Global) -> Arg<'a>
    ensures rule { rule_of result ≡ option_rule (codes "held") }
    ensures own { result.global ≡ false }
{
    option(
        alloc,
        HELD,
        "TABLES",
        "Prints an order that these tables follow, as plan prints tables, instead of a rule's",
    )
}

/// Builds the option for the LMC.
pub(crate) fn lmc<'a>(alloc: Global) -> Arg<'a>
    ensures rule { rule_of result ≡ lmc_rule }
    ensures own { result.global ≡ false }
{
    option(
        alloc,
        LMC,
        "N",
        "Plans 2^N LIDs for each adapter port, N from 0, the default, to 7",
    )
    .value_parser(value_parser!(u8).range(0..=7))
}

/// Builds the option for the rule of routing, which takes a word of `routings`.
pub(crate) fn routing<'a>(alloc: Global, routings: &'a [&'a str], help: &'a str) -> Arg<'a>
    ensures rule { rule_of result ≡ routing_rule routings.entry }
    ensures own { result.global ≡ false }
{
    option(alloc, ROUTING, "RULE", help).value_parser(routings)
}

/// Builds the option for the file of roots.
pub(crate) fn roots<'a>(alloc: Global) -> Arg<'a>
    ensures rule { rule_of result ≡ option_rule (codes "roots") }
    ensures own { result.global ≡ false }
{
    option(
        alloc,
        ROOTS,
        "FILE",
        "spread begins at the switches in FILE, one GUID per line, instead of those in the middle",
    )
}

/// Builds the option for the file of an order of switches.
pub(crate) fn order_file<'a>(alloc: Global) -> Arg<'a>
    ensures rule { rule_of result ≡ option_rule (codes "order") }
    ensures own { result.global ≡ false }
{
    option(
        alloc,
        ORDER,
        "FILE",
        "spread and balance order switches as in FILE, one GUID per line; switches not in FILE come last",
    )
}

/// Builds the argument for the files. At least one file is required, and options may stand between the files.
pub(crate) fn files<'a>(alloc: Global) -> Arg<'a>
    ensures rule { rule_of result ≡ files_rule }
    ensures own { result.global ≡ false }
{
    text(alloc, FILE, "Report files and store files")
        .num_args(1..)
        .action(ArgAction::Append)
}
