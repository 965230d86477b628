ghost use Rattle.std.specs.Prelude.{◌≡◌};
ghost use Rattle.text_words.specs.Text.{words};
ghost use Rattle.schedule_file.specs.Command.{line_of, new_manager};
ghost use Rattle.schedule_file.specs.Manner.{manner_in, manner_of};
ghost use Rattle.text_words.specs.Numbers.{number_up_to};

use crate::manager_name::ManagerName;
use crate::manner::Manner;
use crate::named_command::{NamedCommand, PortName, named_command, port_name};
use crate::numbers::{number_up_to, serial};
use attr_codec::Priority;
use text_words::{is_word, split_word, two_words};

/// What a line of a schedule says: nothing, a new manager or a command.
#[derive(Drop)]
pub(crate) enum ScheduleLine {
    Empty,
    Manager(NewManager),
    Command(NamedCommand),
}

/// A new manager, as given by its line.
#[derive(Drop)]
pub(crate) struct NewManager {
    pub(crate) name: ManagerName,
    pub(crate) at: PortName,
    pub(crate) priority: Priority,
    pub(crate) manner: Manner,
}

/// Parses a line. Returns `None` if the grammar has no such line.
#[tactic(auto, unfolding(crate::specs::Command::line_of))]
pub(crate) fn read_line(line: &[u8]) -> Option<ScheduleLine>
    ensures { result ≡ line_of line.now }
{
    let Some((word, rest)) = split_word(line) else {
        return Some(ScheduleLine::Empty);
    };
    if is_word(word, "manager") {
        Some(ScheduleLine::Manager(new_manager(rest)?))
    } else {
        Some(ScheduleLine::Command(named_command(word, rest)?))
    }
}

/// Parses the line of a new manager, without its first word. Returns `None` if the grammar has no such line.
fn new_manager(line: &[u8]) -> Option<NewManager>
    ensures { result ≡ new_manager (words line.now) }
{
    let (name, line) = split_word(line)?;
    let (at, line) = split_word(line)?;
    let (priority, line) = split_word(line)?;
    Some(NewManager {
        name: ManagerName::new(name)?,
        at: port_name(at)?,
        priority: priority_of(priority)?,
        manner: manner_in(line)?,
    })
}

/// Parses `line`, the words that follow the priority of a new manager: none, or two. Returns `None` for anything else.
fn manner_in(line: &[u8]) -> Option<Manner>
    ensures { result ≡ manner_in (words line.now) }
{
    if split_word(line).is_none() {
        return Some(Manner::Plain);
    }
    let (word, number) = two_words(line)?;
    manner_of(word, number)
}

/// Parses two words after a new manager's priority: `live` and a 64-bit SM_Key, or `decides` and a generation.
fn manner_of(word: &[u8], number: &[u8]) -> Option<Manner>
    ensures { result ≡ manner_of word.now number.now }
{
    if is_word(word, "live") {
        Some(Manner::Live(serial(number)?))
    } else if is_word(word, "decides") {
        Some(Manner::Decides(number_up_to(number, 0xFFFF_FFFE)?))
    } else {
        None
    }
}

/// Parses a priority in decimal. Returns `None` if `word` is not a decimal number, or if the number is above 15.
fn priority_of(word: &[u8]) -> Option<Priority>
    ensures { result ≡ number_up_to 15 word.now }
{
    Priority::new(number_up_to(word, 15)? as u8)
}
