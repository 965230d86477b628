//! Commands with names, as lines give them. There is a function for each number of words after the first one.
ghost use Rattle.std.specs.Prelude.{◌≡◌};
ghost use Rattle.text_words.specs.Text.{words};
ghost use Rattle.schedule_file.specs.Command.{ask, bare_of, bracketed_number, command_in, floor};
ghost use Rattle.schedule_file.specs.Command.{merge, of_manager, of_one, of_two, packet, ping, plug, poll};
ghost use Rattle.schedule_file.specs.Command.{port_name, show, to_manager, wait, which_of};

use crate::command::{Ask, Command, Fate, Shown, Which};
use crate::manager_name::ManagerName;
use crate::manager_words::{asked_by, generation_of, lid_of, shown_by};
use crate::numbers::{number_up_to, serial};
use smp_bytes::PortNum;
use text_words::{NodeName, enclosed, is_word, split_word};

/// A port, as given by a line: the name of its node and its number.
#[derive(Drop)]
pub(crate) struct PortName {
    pub(crate) node: NodeName,
    pub(crate) port: PortNum,
}

/// A command, as given by its line. The line of a new manager is a `NewManager` instead, and becomes a command once
/// the seat of the manager is known. Whether a manager of which something is shown decides by itself is known then too.
pub(crate) type NamedCommand = Command<ManagerName, PortName>;

/// Parses a command from `word`, the first word of its line, and `line`, the rest, if the grammar has it.
pub(crate) fn named_command(word: &[u8], line: &[u8]) -> Option<NamedCommand>
    ensures { result ≡ command_in word.now (words line.now) }
{
    let Some((one, rest)) = split_word(line) else {
        return bare(word);
    };
    let Some((other, rest)) = split_word(rest) else {
        return of_one(word, one);
    };
    if split_word(rest).is_some() {
        return None;
    }
    of_two(word, one, other)
}

/// Returns the command whose only word is `word`, or `None` if the grammar has no such command.
fn bare(word: &[u8]) -> Option<NamedCommand>
    ensures { result ≡ bare_of word.now }
{
    if is_word(word, "tables") {
        Some(Command::Tables)
    } else if is_word(word, "flight") {
        Some(Command::Flight)
    } else if is_word(word, "traps") {
        Some(Command::Traps)
    } else if is_word(word, "resend") {
        Some(Command::Resend)
    } else {
        None
    }
}

/// Parses the command that has the two words `word` and `arg`. Returns `None` if the grammar has no such command.
fn of_one(word: &[u8], arg: &[u8]) -> Option<NamedCommand>
    ensures { result ≡ of_one word.now arg.now }
{
    if is_word(word, "deliver") {
        packet(Fate::Deliver, arg)
    } else if is_word(word, "lose") {
        packet(Fate::Lose, arg)
    } else if is_word(word, "repeat") {
        packet(Fate::Repeat, arg)
    } else if is_word(word, "drain") {
        Some(Command::Drain(number_up_to(arg, 1_000_000)?))
    } else if is_word(word, "cut") {
        Some(Command::Cut(port_name(arg)?))
    } else {
        to_manager(word, arg)
    }
}

/// Parses the command of two words, `word` and a manager's name, `name`, if the grammar has it.
fn to_manager(word: &[u8], name: &[u8]) -> Option<NamedCommand>
    ensures { result ≡ to_manager word.now name.now }
{
    if let Some(what) = asked_by(word) {
        ask(what, name)
    } else {
        of_manager(word, name)
    }
}

/// Parses the command of `word`, which asks a manager for nothing, and a manager's name, `name`, if there is one.
fn of_manager(word: &[u8], name: &[u8]) -> Option<NamedCommand>
    ensures { result ≡ of_manager word.now name.now }
{
    if is_word(word, "timeout") {
        Some(Command::Timeout(ManagerName::new(name)?))
    } else if is_word(word, "pause") {
        Some(Command::Pause(ManagerName::new(name)?))
    } else if is_word(word, "resume") {
        Some(Command::Resume(ManagerName::new(name)?))
    } else {
        show(shown_by(word)?, name)
    }
}

/// Parses the command of the three words `word`, `one` and `other`, if the grammar has it.
fn of_two(word: &[u8], one: &[u8], other: &[u8]) -> Option<NamedCommand>
    ensures { result ≡ of_two word.now one.now other.now }
{
    if is_word(word, "merge") {
        merge(one, other)
    } else if is_word(word, "poll") {
        poll(one, other)
    } else if is_word(word, "floor") {
        floor(one, other)
    } else if is_word(word, "plug") {
        plug(one, other)
    } else if is_word(word, "ping") {
        ping(one, other)
    } else if is_word(word, "wait") {
        wait(one, other)
    } else {
        None
    }
}

fn ask(what: Ask, name: &[u8]) -> Option<NamedCommand>
    ensures { result ≡ ask what name.now }
{
    Some(Command::Ask(ManagerName::new(name)?, what))
}

fn show(what: Shown, name: &[u8]) -> Option<NamedCommand>
    ensures { result ≡ show what name.now }
{
    Some(Command::Show(ManagerName::new(name)?, what))
}

fn packet(fate: Fate, word: &[u8]) -> Option<NamedCommand>
    ensures { result ≡ packet fate word.now }
{
    Some(Command::Packet(which(word)?, fate))
}

fn merge(one: &[u8], other: &[u8]) -> Option<NamedCommand>
    ensures { result ≡ merge one.now other.now }
{
    let one = ManagerName::new(one)?;
    Some(Command::Merge(one, ManagerName::new(other)?))
}

fn poll(name: &[u8], lid: &[u8]) -> Option<NamedCommand>
    ensures { result ≡ poll name.now lid.now }
{
    let name = ManagerName::new(name)?;
    Some(Command::Ask(name, Ask::Poll(Some(lid_of(lid)?))))
}

fn floor(name: &[u8], generation: &[u8]) -> Option<NamedCommand>
    ensures { result ≡ floor name.now generation.now }
{
    let name = ManagerName::new(name)?;
    Some(Command::Floor(name, generation_of(generation)?))
}

fn plug(one: &[u8], other: &[u8]) -> Option<NamedCommand>
    ensures { result ≡ plug one.now other.now }
{
    let one = port_name(one)?;
    Some(Command::Plug(one, port_name(other)?))
}

fn ping(port: &[u8], lid: &[u8]) -> Option<NamedCommand>
    ensures { result ≡ ping port.now lid.now }
{
    let port = port_name(port)?;
    Some(Command::Ping(port, lid_of(lid)?))
}

fn wait(time: &[u8], most: &[u8]) -> Option<NamedCommand>
    ensures { result ≡ wait time.now most.now }
{
    let time = number_up_to(time, u32::MAX)?;
    Some(Command::Wait(time, number_up_to(most, 10_000)?))
}

/// Parses `word` as the name of a packet in flight: `last`, or a 64-bit serial number in decimal.
fn which(word: &[u8]) -> Option<Which>
    ensures { result ≡ which_of word.now }
{
    if is_word(word, "last") {
        Some(Which::Last)
    } else {
        Some(Which::Serial(serial(word)?))
    }
}

/// Parses a node's name in quotes, directly followed by a port number of up to 255 in brackets.
pub(crate) fn port_name(word: &[u8]) -> Option<PortName>
    ensures { result ≡ port_name word.now }
{
    let (node, port) = enclosed(word, b'"', b'"')?;
    let node = NodeName::new(node)?;
    let port = PortNum::new(bracketed_number(port)?);
    Some(PortName { node, port })
}

/// Parses a decimal number of up to 255 in brackets. Returns `None` for anything else.
fn bracketed_number(word: &[u8]) -> Option<u8>
    ensures { result ≡ bracketed_number word.now }
{
    let (port, rest) = enclosed(word, b'[', b']')?;
    if !rest.is_empty() {
        return None;
    }
    Some(number_up_to(port, 255)? as u8)
}
