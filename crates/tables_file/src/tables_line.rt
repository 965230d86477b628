ghost use Rattle.std.specs.Prelude.{◌≡◌, ◌≤◌, IfSome};
ghost use Rattle.text_words.specs.Text.{words};
ghost use Rattle.tables_file.specs.TablesLine.{block_line, lid_line, line_of, lmc_line, switch_line};

use attr_codec::Lmc;
use smp_bytes::{Guid, LAST_BLOCK, Lid, PortNum};
use text_words::{bare_guid, count, hex_bytes, is_word, node_port, small, split_word, two_words};

/// The greatest LID of an end port.
const MAX_LID: u16 = Lid::UNICAST_END - 1;

/// What a line of a text of tables says: nothing, a LID, a switch or a block.
#[derive(Clone, Copy)]
pub(crate) enum TextLine {
    Empty,
    Lid(LidLine),
    Switch(SwitchLine),
    Block(BlockLine),
}

/// A LID and the end port that holds it, as given by a line. A number is `None` if it is out of range.
#[derive(Clone, Copy)]
pub(crate) struct LidLine {
    /// The LID, from 1 to 49,151.
    pub(crate) lid: Option<u16>,
    pub(crate) node: Guid,
    /// The port, up to 254.
    pub(crate) port: Option<PortNum>,
    /// The LMC, up to 7; 0 if the line has no LMC.
    pub(crate) lmc: Option<Lmc>,
}

/// A switch and its top, as given by a line.
#[derive(Clone, Copy)]
pub(crate) struct SwitchLine {
    pub(crate) guid: Guid,
    /// The top, up to 49,151; `None` if the top is greater.
    pub(crate) top: Option<u16>,
}

/// A block of a switch, as given by a line.
#[derive(Clone, Copy)]
pub(crate) struct BlockLine {
    /// The number of the block, up to 767; `None` if the number is greater.
    pub(crate) number: Option<u16>,
    pub(crate) entries: [u8; 64],
}

/// Returns what `line` says, or `None` if the grammar has no such line.
#[tactic(auto, unfolding(crate::specs::TablesLine::line_of))]
pub(crate) fn read_line(line: &[u8]) -> Option<TextLine>
    ensures { result ≡ line_of line.now }
{
    let Some((word, rest)) = split_word(line) else {
        return Some(TextLine::Empty);
    };
    if is_word(word, "lid") {
        Some(TextLine::Lid(lid_line(rest)?))
    } else if is_word(word, "switch") {
        Some(TextLine::Switch(switch_line(rest)?))
    } else if is_word(word, "block") {
        Some(TextLine::Block(block_line(rest)?))
    } else {
        None
    }
}

/// Parses the part of a `lid` line after its first word. Returns `None` if the grammar has no such line.
fn lid_line(line: &[u8]) -> Option<LidLine>
    ensures { result ≡ lid_line (words line.now) }
{
    let (lid, line) = split_word(line)?;
    let (port, line) = split_word(line)?;
    let lid = count(lid, MAX_LID)?;
    let (node, port) = node_port(port)?;
    let lmc = lmc_line(line)?;
    Some(LidLine {
        lid,
        node,
        port,
        lmc,
    })
}

/// Parses the part of a `lid` line after the end port: `lmc` and a number, or nothing, which stands for LMC 0.
/// Returns `None` if the grammar has no such line. The inner value is `None` if the number is above 7.
fn lmc_line(line: &[u8]) -> Option<Option<Lmc>>
    ensures { result ≡ lmc_line (words line.now) }
{
    if split_word(line).is_none() {
        return Some(lmc_of(Some(0)));
    }
    let (word, number) = two_words(line)?;
    if !is_word(word, "lmc") {
        return None;
    }
    let number = small(number, 7)?;
    Some(lmc_of(number))
}

/// Returns the LMC with the number `number`, or `None` if `number` is `None`.
fn lmc_of(number: Option<u16>) -> Option<Lmc>
    requires { IfSome number (λ n. n ≤ 7) }
    ensures { result ≡ number }
{
    match number {
        Some(number) => Lmc::new(number as u8),
        None => None,
    }
}

/// Parses the part of a `switch` line after its first word. Returns `None` if the grammar has no such line.
fn switch_line(line: &[u8]) -> Option<SwitchLine>
    ensures { result ≡ switch_line (words line.now) }
{
    let (guid, line) = split_word(line)?;
    let (word, top) = two_words(line)?;
    if !is_word(word, "top") {
        return None;
    }
    let guid = bare_guid(guid)?;
    let top = small(top, MAX_LID)?;
    Some(SwitchLine { guid, top })
}

/// Parses the part of a `block` line after its first word. Returns `None` if the grammar has no such line.
fn block_line(line: &[u8]) -> Option<BlockLine>
    ensures { result ≡ block_line (words line.now) }
{
    let (number, word) = two_words(line)?;
    let number = small(number, LAST_BLOCK)?;
    let entries = hex_bytes(word)?;
    Some(BlockLine { number, entries })
}
