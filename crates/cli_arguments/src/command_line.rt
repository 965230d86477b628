//! The command line.
ghost use Rattle.std.specs.Prelude.{[], ◌∷◌, IfOk, codes, map};
ghost use Rattle.clap.specs.Simple.{App, Shape, new_shape, with_subcommand};
ghost use Rattle.cli_arguments.specs.CommandLine.{AddsRules, AreRoutings, IsApp, IsOf, IsReadAs, audit_shape};
ghost use Rattle.cli_arguments.specs.CommandLine.{facts_shape, files_rule, join_shape, manage_shape, next_shape};
ghost use Rattle.cli_arguments.specs.CommandLine.{command_line, of_files, of_order, of_planning, of_routing, of_seat};
ghost use Rattle.cli_arguments.specs.CommandLine.{order_shape, plan_shape, program_app, run_shape, serve_shape};
ghost use Rattle.cli_arguments.specs.CommandLine.{of_limits, of_pace, of_report, of_step, of_timing, option_rule};
ghost use Rattle.cli_arguments.specs.CommandLine.{seated_shape, text_rule};
ghost use Rattle.cli_arguments.specs.WellFormed.{IsWellFormed};
ghost use Rattle.cli_arguments.specs.Words.{has_conflict};

use crate::argument_names::{
    AUDIT, BALANCE, FACTS, GUID, JOIN, MANAGE, NEXT, ORDER, PLAN, RUN, SCHEDULE, SERVE, SPREAD,
    TABLES, TOPOLOGY, UPDOWN,
};
use crate::arguments::{
    all, every, files, floor, held, lanes, last_order, lmc, loads, max_load, multicast, newest,
    order_file, outstanding, poll, port, priority, roots, routing, sm_key, strict, text, timeout,
    tries, way,
};
use crate::conflicts::{conflict, has_conflict};
use clap::{ArgMatches, Command, Error};
use std::alloc::{AllocError, Global};

const RULES: [&str; 3] = [UPDOWN, SPREAD, BALANCE];

const VERSION: &str = "0.1.0";

/// The end of a subcommand's help: its exit statuses and an example.
const FACTS_END: &str = "Exit status:\n  0  done\n  2  the command line is wrong\n  \
     3  a file is refused\n  4  a file cannot be opened or read, or the output takes no more\n  \
     5  out of memory\n\nExample:\n  ibsm facts --floor 2 monday.reports tuesday.reports";

const JOIN_END: &str = "Exit status:\n  0  done\n  2  the command line is wrong\n  \
     3  a file is refused\n  4  a file cannot be opened or read, or the output takes no more\n  \
     5  out of memory\n\nExample:\n  ibsm join monday.reports tuesday.reports > both.store";

const PLAN_END: &str = "Exit status:\n  0  done\n  2  the command line is wrong\n  \
     3  a file is refused, or there is no room for the LIDs\n  \
     4  a file cannot be opened or read, or the output takes no more\n  \
     5  out of memory\n\nExample:\n  ibsm plan --lmc 1 fabric.reports > fabric.plan";

const ORDER_END: &str = "Exit status:\n  0  done\n  \
     1  the held tables follow no order, so nothing is printed\n  \
     2  the command line is wrong\n  3  a file is refused\n  \
     4  a file cannot be opened or read, or the output takes no more\n  \
     5  out of memory\n\nExample:\n  ibsm order --routing balance fabric.reports > fabric.order";

const AUDIT_END: &str =
    "Exit status:\n  0  the tables pass, and no channel is busier than --max-load\n  \
     1  they do not pass, or a channel is busier, and what was printed says why\n  \
     2  the command line is wrong\n  3  a file is refused\n  \
     4  a file cannot be opened or read, or the output takes no more\n  \
     5  out of memory\n\nExample:\n  ibsm audit held.tables fabric.reports";

const NEXT_END: &str =
    "Exit status:\n  0  done, and no mixture of both tables can make a credit loop\n  \
     1  done, and what standard error names can come about while they are written\n  \
     2  the command line is wrong\n  3  a file is refused, a LID moves, or there is no room for the LIDs\n  \
     4  a file cannot be opened or read, or the output takes no more\n  \
     5  out of memory\n\nExample:\n  ibsm next held.tables fabric.reports > next.tables";

const RUN_END: &str = "Exit status:\n  0  done\n  2  the command line is wrong\n  \
     3  a file is refused\n  4  a file cannot be opened or read, or the output takes no more\n  \
     5  out of memory\n\nExample:\n  ibsm run triangle.topology bring_up.schedule";

const SERVE_END: &str =
    "It is no subnet administration: it has no path records and no multicast groups, and knows no partitions \
     and no lanes.\n\n\
     Exit status:\n  0  done\n  2  the command line is wrong\n  3  a file is refused\n  \
     4  a file or standard input cannot be opened or read, or the output takes no more\n  \
     5  out of memory\n\nExample:\n  ibsm serve 0000000000000101 1 5";

const MANAGE_END: &str =
    "It decides by itself when to sweep, to plan and to write, and when to yield to another manager. \
     Of subnet administration it tells single records, and answers hosts that join multicast groups if it has \
     their tree; it knows no partitions and no lanes.\n\n\
     Exit status:\n  0  done\n  2  the command line is wrong\n  3  a file is refused\n  \
     4  a file or standard input cannot be opened or read, or the output takes no more\n  \
     5  out of memory\n\nExample:\n  ibsm manage --every 10000 0000000000000101 1 5";

/// What the rules of routing make of a plan, and which one is taken by default.
const PLAN_ROUTING_HELP: &str =
    "updown (default) uses one root; spread uses all cables; balance also counts loads: the best for most fabrics";

/// Whose order the subcommand `order` prints by default.
const ORDER_ROUTING_HELP: &str = "The rule whose order is printed; spread by default";

/// Parses the words of a command line, the program's name first.
///
/// # Errors
///
/// Returns `Ok(Err(..))` if one of these holds:
///
/// - `command_line` refuses the words, or the words ask for help or the version;
/// - options contradict each other;
/// - a manager's GUID or SM_Key is not 1 to 16 hex digits, or the packet whose way is asked for is not a port and a
///   LID;
/// - memory was refused.
///
/// Returns an outer `Err` only if memory was refused.
pub fn matches_of<'a>(
    alloc: Global,
    words: &'a [String],
) -> Result<Result<ArgMatches<'a>, Error>, AllocError>
    ensures read { IfOk result (λ parsed. (routings : _) × AreRoutings routings
        × IsReadAs (command_line routings) (map (λ word. word.bytes.items) words.now) parsed) }
    ensures well_formed { IfOk result (λ parsed. IfOk parsed IsWellFormed) }
{
    let command = command_line(alloc, RULES.as_slice())?;
    let matches = match command.try_get_matches_from(words) {
        Ok(matches) => matches,
        Err(error) => return Ok(Err(error)),
    };
    if has_conflict(&matches) {
        let error = conflict(alloc, &matches)?;
        return Ok(Err(error));
    }
    Ok(Ok(matches))
}

/// Builds the command with all subcommands and their arguments. `routings` are the words for rules of routing.
fn command_line<'a>(alloc: Global, routings: &'a [&'a str]) -> Result<Command<'a>, AllocError>
    ensures { IfOk result (IsApp (command_line routings.entry)) }
{
    let command = with(Ok(program(alloc)), facts(alloc));
    let command = with(command, join(alloc));
    let command = with(command, plan(alloc, routings));
    let command = with(command, order(alloc, routings));
    let command = with(command, audit(alloc));
    let command = with(command, next(alloc, routings));
    let command = with(command, run(alloc, routings));
    let command = with(command, serve(alloc, routings));
    with(command, manage(alloc, routings))
}

/// Adds `subcommand` to `command`. Returns an error if `command` or `subcommand` is an error, or if memory is refused.
fn with<'a>(
    command: Result<Command<'a>, AllocError>,
    subcommand: Result<Command<'a>, AllocError>,
) -> Result<Command<'a>, AllocError>
    ensures { (app : App) (shape : Shape) → IfOk command.entry (IsApp app) → IfOk subcommand.entry (IsOf shape)
        → IfOk result (IsApp (with_subcommand app shape)) }
{
    let subcommand = subcommand?;
    command?.subcommand(subcommand)
}

/// Builds the command of the program, which requires a subcommand, but without its subcommands.
fn program<'a>(alloc: Global) -> Command<'a>
    ensures { IsApp program_app result }
{
    Command::new(alloc, "ibsm")
        .about("InfiniBand subnet managers")
        .version(VERSION)
        .subcommand_required(true)
}

/// Builds the subcommand `name` without its arguments. Its help begins with `about` and closes with `end`.
fn subcommand_head<'a>(alloc: Global, name: &'a str, about: &'a str, end: &'a str) -> Command<'a>
    ensures { IsOf (new_shape name.now) result }
{
    Command::new(alloc, name).about(about).after_help(end)
}

fn facts<'a>(alloc: Global) -> Result<Command<'a>, AllocError>
    ensures { IfOk result (IsOf facts_shape) }
{
    let command = subcommand_head(
        alloc,
        FACTS,
        "Prints the facts of all files together",
        FACTS_END,
    );
    of_files(alloc, command)
}

fn join<'a>(alloc: Global) -> Result<Command<'a>, AllocError>
    ensures { IfOk result (IsOf join_shape) }
{
    let command = subcommand_head(
        alloc,
        JOIN,
        "Writes the facts of all files together to standard output, as a store file",
        JOIN_END,
    );
    of_files(alloc, command)
}

fn plan<'a>(alloc: Global, routings: &'a [&'a str]) -> Result<Command<'a>, AllocError>
    ensures { IfOk result (IsOf (plan_shape routings.entry)) }
{
    let command = subcommand_head(
        alloc,
        PLAN,
        "Prints the LIDs and the forwarding tables that follow from the facts",
        PLAN_END,
    );
    with_planning(alloc, routings, of_files(alloc, command)?)
}

fn order<'a>(alloc: Global, routings: &'a [&'a str]) -> Result<Command<'a>, AllocError>
    ensures { IfOk result (IsOf (order_shape routings.entry)) }
{
    let command = subcommand_head(
        alloc,
        ORDER,
        "Prints the order of switches by which a rule plans, or that held tables follow, for --order",
        ORDER_END,
    );
    let command = command.arg(files(alloc))?;
    let command = with_routing(alloc, routings, ORDER_ROUTING_HELP, command)?;
    command.arg(held(alloc))
}

fn audit<'a>(alloc: Global) -> Result<Command<'a>, AllocError>
    ensures { IfOk result (IsOf audit_shape) }
{
    let command = subcommand_head(
        alloc,
        AUDIT,
        "Audits held tables: do all packets arrive, and can they deadlock?",
        AUDIT_END,
    );
    with_report(alloc, of_tables(alloc, command)?)
}

fn next<'a>(alloc: Global, routings: &'a [&'a str]) -> Result<Command<'a>, AllocError>
    ensures { IfOk result (IsOf (next_shape routings.entry)) }
{
    let command = subcommand_head(
        alloc,
        NEXT,
        "Prints the tables to write next, from the held ones towards the plan, without losing packets meanwhile",
        NEXT_END,
    );
    let command = with_planning(alloc, routings, of_tables(alloc, command)?)?;
    with_step(alloc, command)
}

fn run<'a>(alloc: Global, routings: &'a [&'a str]) -> Result<Command<'a>, AllocError>
    ensures { IfOk result (IsOf (run_shape routings.entry)) }
{
    let command = subcommand_head(
        alloc,
        RUN,
        "Runs a schedule in a simulated fabric, and prints what its lines print",
        RUN_END,
    );
    let command = command
        .arg(text(
            alloc,
            TOPOLOGY,
            "The nodes of the fabric and the links between them",
        ))?
        .arg(text(
            alloc,
            SCHEDULE,
            "The managers and the commands that are run",
        ))?;
    with_planning(alloc, routings, command)
}

fn serve<'a>(alloc: Global, routings: &'a [&'a str]) -> Result<Command<'a>, AllocError>
    ensures { IfOk result (IsOf (serve_shape routings.entry)) }
{
    seated(
        alloc,
        routings,
        SERVE,
        "Runs a subnet manager that is driven by lines on standard input",
        SERVE_END,
    )
}

fn manage<'a>(alloc: Global, routings: &'a [&'a str]) -> Result<Command<'a>, AllocError>
    ensures { IfOk result (IsOf (manage_shape routings.entry)) }
{
    let command = seated(
        alloc,
        routings,
        MANAGE,
        "Runs a subnet manager that decides by itself: standard input tells it time and packets",
        MANAGE_END,
    )?;
    with_pace(alloc, command)
}

/// Builds the subcommand `name` of a manager at a port, with the options of its plans. Its help begins with `about` and
/// closes with `end`.
fn seated<'a>(
    alloc: Global,
    routings: &'a [&'a str],
    name: &'a str,
    about: &'a str,
    end: &'a str,
) -> Result<Command<'a>, AllocError>
    ensures { IfOk result (IsOf (seated_shape name.now routings.entry)) }
{
    let command = subcommand_head(alloc, name, about, end);
    with_planning(alloc, routings, of_seat(alloc, command)?)
}

/// Adds the arguments of a manager at a port: GUID, port and priority, and the options for its SM_Key and for the
/// multicast tree.
fn of_seat<'a>(alloc: Global, command: Command<'a>) -> Result<Command<'a>, AllocError>
    ensures { IfOk result (AddsRules of_seat command.entry) }
{
    command
        .arg(text(alloc, GUID, "The GUID of the port, 1 to 16 hex digits"))?
        .arg(port(alloc))?
        .arg(priority(alloc))?
        .arg(sm_key(alloc))?
        .arg(multicast(alloc))
}

/// Adds the options of a manager that decides by itself: when it does what, what limits its requests, and the newest
/// generation that is known.
fn with_pace<'a>(alloc: Global, command: Command<'a>) -> Result<Command<'a>, AllocError>
    ensures { IfOk result (AddsRules of_pace command.entry) }
{
    let command = with_timing(alloc, command)?;
    with_limits(alloc, command)?.arg(newest(alloc))
}

/// Adds the options for when a manager that decides by itself does what.
fn with_timing<'a>(alloc: Global, command: Command<'a>) -> Result<Command<'a>, AllocError>
    ensures { IfOk result (AddsRules of_timing command.entry) }
{
    command
        .arg(every(alloc))?
        .arg(poll(alloc))?
        .arg(strict(alloc))
}

/// Adds the options that limit the requests of a manager that decides by itself.
fn with_limits<'a>(alloc: Global, command: Command<'a>) -> Result<Command<'a>, AllocError>
    ensures { IfOk result (AddsRules of_limits command.entry) }
{
    command
        .arg(timeout(alloc))?
        .arg(tries(alloc))?
        .arg(outstanding(alloc))
}

/// Adds the argument for the files and the option for the floor.
fn of_files<'a>(alloc: Global, command: Command<'a>) -> Result<Command<'a>, AllocError>
    ensures { IfOk result (AddsRules of_files command.entry) }
{
    command.arg(files(alloc))?.arg(floor(alloc))
}

/// Adds the arguments for the text of tables and for the files.
fn of_tables<'a>(alloc: Global, command: Command<'a>) -> Result<Command<'a>, AllocError>
    ensures { IfOk result (AddsRules (text_rule (codes "TABLES") ∷ files_rule ∷ []) command.entry) }
{
    command
        .arg(text(
            alloc,
            TABLES,
            "The held LIDs and forwarding tables, in the form that plan prints",
        ))?
        .arg(files(alloc))
}

/// Adds the options of an audit: how much the audit prints, which load passes, what is also printed, and the file of
/// lanes.
fn with_report<'a>(alloc: Global, command: Command<'a>) -> Result<Command<'a>, AllocError>
    ensures { IfOk result (AddsRules of_report command.entry) }
{
    command
        .arg(all(alloc))?
        .arg(max_load(alloc))?
        .arg(loads(alloc))?
        .arg(way(alloc))?
        .arg(lanes(alloc))
}

/// Adds the option of a step: the file with the order of the last step.
fn with_step<'a>(alloc: Global, command: Command<'a>) -> Result<Command<'a>, AllocError>
    ensures { IfOk result (AddsRules of_step command.entry) }
{
    command.arg(last_order(alloc))
}

/// Adds the options of a plan: its LMC, its rule of routing, and the roots or the order.
fn with_planning<'a>(
    alloc: Global,
    routings: &'a [&'a str],
    command: Command<'a>,
) -> Result<Command<'a>, AllocError>
    ensures { IfOk result (AddsRules (of_planning routings.entry) command.entry) }
{
    let command = command.arg(lmc(alloc))?;
    with_routing(alloc, routings, PLAN_ROUTING_HELP, command)
}

/// Adds the options that choose a rule of routing (`help` says which), its roots and its order.
fn with_routing<'a>(
    alloc: Global,
    routings: &'a [&'a str],
    help: &'a str,
    command: Command<'a>,
) -> Result<Command<'a>, AllocError>
    ensures { IfOk result (AddsRules (of_routing routings.entry) command.entry) }
{
    let command = command.arg(routing(alloc, routings, help))?;
    with_order(alloc, command)
}

/// Adds the options for the order of switches: roots, or an order.
fn with_order<'a>(alloc: Global, command: Command<'a>) -> Result<Command<'a>, AllocError>
    ensures { IfOk result (AddsRules of_order command.entry) }
{
    command.arg(roots(alloc))?.arg(order_file(alloc))
}

/// Builds the subcommand `name` if it is `audit`, `next`, `run`, `order`, `serve` or `manage`. Builds `plan` for any
/// other name, and for `None`.
pub(crate) fn subcommand<'a>(alloc: Global, name: Option<&str>) -> Result<Command<'a>, AllocError> {
    match name {
        Some(AUDIT) => audit(alloc)?.bin_name("ibsm audit"),
        Some(NEXT) => next(alloc, RULES.as_slice())?.bin_name("ibsm next"),
        Some(RUN) => run(alloc, RULES.as_slice())?.bin_name("ibsm run"),
        Some(ORDER) => order(alloc, RULES.as_slice())?.bin_name("ibsm order"),
        Some(SERVE) => serve(alloc, RULES.as_slice())?.bin_name("ibsm serve"),
        Some(MANAGE) => manage(alloc, RULES.as_slice())?.bin_name("ibsm manage"),
        _ => plan(alloc, RULES.as_slice())?.bin_name("ibsm plan"),
    }
}
