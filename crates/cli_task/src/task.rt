//! The task that the words of the command line ask for.
ghost use Rattle.std.specs.Prelude.{◌≡◌, IfOk, codes, map, option_map};
ghost use Rattle.clap.specs.Matches.{first_value, found_of, matched_of, raw_values};
ghost use Rattle.cli_task.specs.Task.{answer_task, audit_asked, order_task, output_asked, step_asked};
ghost use Rattle.cli_task.specs.Task.{task_asked, task_behind};
ghost use Rattle.cli_task.specs.InputNames.{names_asked, names_in, rule_of_task};
ghost use Rattle.cli_task.specs.Task.{managing_asked, serving_asked};
ghost use Rattle.cli_task.specs.InputNames.{takes_files, texts_asked, texts_before_files, texts_of_rule};

use crate::managing::Managing;
use crate::option_values::{
    floor_of, guid_of, limits_of, max_load_of, newest_of, order_of, planning_of, port_of,
    priority_of, sm_key_of, timing_of, way_of,
};
use arrayvec::ArrayVec;
use attr_codec::Lmc;
use clap::ArgMatches;
use cli_arguments::argument_names::{
    ALL, AUDIT, FACTS, FILE, GUID, HELD, JOIN, LANES, LAST_ORDER, LOADS, MANAGE, MULTICAST, NEXT,
    ORDER, PLAN, ROOTS, RUN, SCHEDULE, SERVE, TABLES, TOPOLOGY,
};
use cli_arguments::is_set;
use sm_cli::{AuditAsked, Invocation, Output, RuleAsked, Serving, StepAsked};
use smp_bytes::Generation;
use std::alloc::{AllocError, Global};

/// A task that the program is asked to do.
#[derive(Clone, Copy, Debug, PartialEq, Eq)]
pub enum Task {
    /// Writing what files say together: facts, a store file, a plan or an order.
    Answer(Invocation),
    /// Writing the order of switches that tables imply in the subnet that files describe.
    OrderOfTables,
    /// Auditing tables in the subnet that files describe.
    Audit(AuditAsked),
    /// Writing the tables that are to be written next.
    Next(StepAsked),
    /// Running a schedule in the fabric of a topology, with managers that plan 2^LMC LIDs for each adapter port by the
    /// given rule.
    Run(Lmc, RuleAsked),
    /// Serving a manager by lines.
    Serve(Serving),
    /// Running a manager that decides by itself, and is told time and packets by lines.
    Manage(Managing),
}

/// The name of the file from which a manager at a port reads its lines.
const LINES: &str = "/dev/stdin";

impl Task {
    /// Returns the rule of routing of the task, or `UpDown`, which takes no text, if the task makes no plan.
    fn rule(&self) -> RuleAsked
        ensures { result ≡ rule_of_task self.now }
    {
        match self {
            Task::Answer(request) => request.output.rule(),
            Task::OrderOfTables | Task::Audit(_) => RuleAsked::UpDown,
            Task::Next(asked) => asked.rule,
            Task::Run(_, rule) => *rule,
            Task::Serve(asked) => asked.rule,
            Task::Manage(asked) => asked.serving.rule,
        }
    }

    /// Returns whether the task takes report and store files.
    fn takes_files(&self) -> bool
        ensures { result ≡ takes_files self.now }
    {
        match self {
            Task::Answer(_) | Task::OrderOfTables | Task::Audit(_) | Task::Next(_) => true,
            Task::Run(..) | Task::Serve(_) | Task::Manage(_) => false,
        }
    }
}

/// Returns the task that the subcommand and the words after it ask for. Returns `None` if the subcommand is missing or
/// unknown, or if one of the words is missing or wrong.
pub fn task_of(matches: &ArgMatches<'_>) -> Option<Task>
    ensures { result ≡ task_asked matches.now }
{
    let (command, words) = matches.subcommand()?;
    task_behind(command, words)
}

/// Returns the task that the subcommand `command` asks for with `words`, or `None` if one of them is missing or wrong.
fn task_behind(command: &str, words: &ArgMatches<'_>) -> Option<Task>
    ensures { result ≡ task_behind (first_value (found_of words.now)) command.now }
{
    match command {
        ORDER => order_task(words),
        AUDIT => Some(Task::Audit(audit_of(words)?)),
        NEXT => Some(Task::Next(step_of(words)?)),
        RUN => {
            let (lmc, rule) = planning_of(words)?;
            Some(Task::Run(lmc, rule))
        }
        SERVE => Some(Task::Serve(serving_of(words)?)),
        MANAGE => Some(Task::Manage(managing_of(words)?)),
        _ => answer_task(command, words),
    }
}

/// Returns the task of the subcommand `order` with `words`, of held tables if named, or `None` if one is wrong.
fn order_task(words: &ArgMatches<'_>) -> Option<Task>
    ensures { result ≡ order_task (first_value (found_of words.now)) }
{
    match words.get_str(HELD) {
        Some(_) => Some(Task::OrderOfTables),
        None => {
            let output = Output::Order(order_of(words)?);
            let floor = Generation::new(1)?;
            Some(Task::Answer(Invocation { output, floor }))
        }
    }
}

/// Returns the task of `facts`, `join` or `plan`, whichever is `command`, with `words`, or `None` if one is wrong.
fn answer_task(command: &str, words: &ArgMatches<'_>) -> Option<Task>
    ensures { result ≡ answer_task (first_value (found_of words.now)) command.now }
{
    let output = output_of(command, words)?;
    let floor = floor_of(words)?;
    Some(Task::Answer(Invocation { output, floor }))
}

/// Returns the options of an audit by `words`, or `None` if one of the words is wrong.
fn audit_of(words: &ArgMatches<'_>) -> Option<AuditAsked>
    ensures { result ≡ audit_asked (first_value (found_of words.now)) }
{
    let max_load = max_load_of(words)?;
    let way = way_of(words)?;
    Some(AuditAsked {
        lanes: words.get_str(LANES).is_some(),
        all: is_set(words, ALL),
        max_load,
        loads: is_set(words, LOADS),
        way,
    })
}

/// Returns the options of a step by `words`, or `None` if one of the words is wrong.
fn step_of(words: &ArgMatches<'_>) -> Option<StepAsked>
    ensures { result ≡ step_asked (first_value (found_of words.now)) }
{
    let (lmc, rule) = planning_of(words)?;
    Some(StepAsked {
        lmc,
        rule,
        has_last: words.get_str(LAST_ORDER).is_some(),
    })
}

/// Returns, by `words`, the manager that is served, or `None` if one of the words is missing or wrong.
fn serving_of(words: &ArgMatches<'_>) -> Option<Serving>
    ensures { result ≡ serving_asked (first_value (found_of words.now)) }
{
    let (lmc, rule) = planning_of(words)?;
    let guid = guid_of(words)?;
    let port = port_of(words)?;
    let priority = priority_of(words)?;
    let sm_key = sm_key_of(words)?;
    Some(Serving {
        guid,
        port,
        priority,
        sm_key,
        lmc,
        rule,
        multicast: is_set(words, MULTICAST),
    })
}

/// Returns, by `words`, the manager that decides by itself, or `None` if one of the words is missing or wrong.
fn managing_of(words: &ArgMatches<'_>) -> Option<Managing>
    ensures { result ≡ managing_asked (first_value (found_of words.now)) }
{
    let serving = serving_of(words)?;
    let timing = timing_of(words)?;
    let limits = limits_of(words)?;
    let newest = newest_of(words)?;
    Some(Managing {
        serving,
        timing,
        limits,
        newest,
    })
}

/// Returns the output of `facts`, `join` or `plan`, whichever is `command`, with `words`, or `None` if one is wrong.
fn output_of(command: &str, words: &ArgMatches<'_>) -> Option<Output>
    ensures { result ≡ output_asked (first_value (found_of words.now)) command.now }
{
    match command {
        FACTS => Some(Output::Facts),
        JOIN => Some(Output::Join),
        PLAN => {
            let (lmc, rule) = planning_of(words)?;
            Some(Output::Plan(lmc, rule))
        }
        _ => None,
    }
}

/// Returns the names of the inputs of `task` in the order in which they are read: the text that its rule takes, its
/// other texts, and its files. Returns `None` if there is no subcommand, or if an input is not named.
pub fn names_of<'a>(
    alloc: Global,
    matches: &ArgMatches<'a>,
    task: &Task,
) -> Result<Option<Vec<&'a str>>, AllocError>
    ensures { IfOk result (λ names.
        option_map (λ found. map (λ name. name.now) found.items) names ≡ names_asked matches.now task.now) }
{
    match matches.subcommand() {
        Some((_, words)) => names_behind(alloc, words, task),
        None => Ok(None),
    }
}

/// Returns the names of the inputs of `task` by `words`, in the order of reading, or `None` if an input is not named.
fn names_behind<'a>(
    alloc: Global,
    words: &ArgMatches<'a>,
    task: &Task,
) -> Result<Option<Vec<&'a str>>, AllocError>
    ensures { IfOk result (λ names. option_map (λ found. map (λ name. name.now) found.items) names
        ≡ names_in (first_value (found_of words.now))
        (option_map raw_values (matched_of (found_of words.now) (codes "FILE"))) task.now) }
{
    let Some(first) = texts_of_rule(words, task.rule()) else {
        return Ok(None);
    };
    let Some(texts) = texts_of(words, task) else {
        return Ok(None);
    };
    let mut names = Vec::from_slice(alloc, &first)?;
    names.extend_from_slice(&texts)?;
    if task.takes_files() {
        let Some(files) = words.get_strs(FILE) else {
            return Ok(None);
        };
        names.extend_from_slice(files)?;
    }
    Ok(Some(names))
}

/// Returns the name of the text that `rule` takes, if it takes one, or `None` if it is not named.
fn texts_of_rule<'a>(words: &ArgMatches<'a>, rule: RuleAsked) -> Option<ArrayVec<&'a str, 1>>
    ensures { option_map (λ found. map (λ name. name.now) found.items) result
        ≡ texts_of_rule (first_value (found_of words.now)) rule }
{
    let mut texts = ArrayVec::new();
    match rule {
        RuleAsked::UpDown | RuleAsked::Spread | RuleAsked::Balance => {}
        RuleAsked::SpreadFromRoots => texts.push(words.get_str(ROOTS)?),
        RuleAsked::SpreadInOrder | RuleAsked::BalanceInOrder => texts.push(words.get_str(ORDER)?),
    }
    Some(texts)
}

/// Returns the names of the text `option`, if `is_asked`, and of the text of tables, or `None` if one is not named.
fn texts_before_files<'a>(
    words: &ArgMatches<'a>,
    is_asked: bool,
    option: &str,
) -> Option<ArrayVec<&'a str, 2>>
    ensures { option_map (λ found. map (λ name. name.now) found.items) result
        ≡ texts_before_files (first_value (found_of words.now)) is_asked option.now }
{
    let mut texts = ArrayVec::new();
    if is_asked {
        texts.push(words.get_str(option)?);
    }
    texts.push(words.get_str(TABLES)?);
    Some(texts)
}

/// Returns the names of the texts that `task` takes besides its rule's, for a manager at a port the file of lines, or
/// `None` if one of these, or the GUID of such a manager, is not named.
fn texts_of<'a>(words: &ArgMatches<'a>, task: &Task) -> Option<ArrayVec<&'a str, 2>>
    ensures { option_map (λ found. map (λ name. name.now) found.items) result
        ≡ texts_asked (first_value (found_of words.now)) task.now }
{
    let mut texts = ArrayVec::new();
    match task {
        Task::Answer(_) => {}
        Task::OrderOfTables => texts.push(words.get_str(HELD)?),
        Task::Audit(asked) => return texts_before_files(words, asked.lanes, LANES),
        Task::Next(asked) => {
            return texts_before_files(words, asked.has_last, LAST_ORDER);
        }
        Task::Run(..) => {
            texts.push(words.get_str(TOPOLOGY)?);
            texts.push(words.get_str(SCHEDULE)?);
        }
        Task::Serve(_) | Task::Manage(_) => {
            words.get_str(GUID)?;
            texts.push(LINES);
        }
    }
    Some(texts)
}
