ghost use Rattle.std.specs.Prelude.{◌≡◌};
ghost use Rattle.text_words.specs.Text.{words};
ghost use Rattle.lanes_file.specs.LanesLine.{block_line, lanes_line, level_line, line_of, map_line};

use smp_bytes::{Guid, LAST_BLOCK, PortNum};
use text_words::{
    bare_guid, hex_bytes, is_word, node_port, only_word, plain_port, small, small_byte, split_word,
};

/// What a line says, before ranges and the order of lines are checked.
#[derive(Clone, Copy)]
pub(crate) enum LanesLine {
    Empty,
    Lanes([u8; 16]),
    Map(MapLine),
    /// The level, or `None` if it is above 15.
    Level(Option<u8>),
    Block(LevelsLine),
}

/// A map of a switch, as a line gives it. A port is `None` if it is above 254. Lanes may be above 15.
#[derive(Clone, Copy)]
pub(crate) struct MapLine {
    pub(crate) node: Guid,
    pub(crate) into: Option<PortNum>,
    pub(crate) out: Option<PortNum>,
    pub(crate) lanes: [u8; 16],
}

/// A block of the levels of an end port, as a line gives it. Levels may be out of range.
#[derive(Clone, Copy)]
pub(crate) struct LevelsLine {
    pub(crate) node: Guid,
    /// The port, or `None` if it is above 254.
    pub(crate) port: Option<PortNum>,
    /// The number of the block, or `None` if it is above 767.
    pub(crate) number: Option<u16>,
    pub(crate) levels: [u8; 64],
}

/// Returns what `line` says, or `None` if the grammar has no such line.
#[tactic(auto, unfolding(crate::specs::LanesLine::line_of))]
pub(crate) fn read_line(line: &[u8]) -> Option<LanesLine>
    ensures { result ≡ line_of line.now }
{
    let Some((word, rest)) = split_word(line) else {
        return Some(LanesLine::Empty);
    };
    if is_word(word, "lanes") {
        Some(LanesLine::Lanes(lanes_line(rest)?))
    } else if is_word(word, "sl2vl") {
        Some(LanesLine::Map(map_line(rest)?))
    } else if is_word(word, "level") {
        Some(LanesLine::Level(level_line(rest)?))
    } else if is_word(word, "levels") {
        Some(LanesLine::Block(block_line(rest)?))
    } else {
        None
    }
}

/// Parses the part of a `lanes` line after its first word. Returns `None` if the grammar has no such line.
fn lanes_line(line: &[u8]) -> Option<[u8; 16]>
    ensures { result ≡ lanes_line (words line.now) }
{
    hex_bytes(only_word(line)?)
}

/// Parses the part of an `sl2vl` line after its first word. Returns `None` if the grammar has no such line.
fn map_line(line: &[u8]) -> Option<MapLine>
    ensures { result ≡ map_line (words line.now) }
{
    let (node, line) = split_word(line)?;
    let (into, line) = split_word(line)?;
    let (out, line) = split_word(line)?;
    let lanes = only_word(line)?;
    let node = bare_guid(node)?;
    let into = plain_port(into)?;
    let out = plain_port(out)?;
    let lanes = hex_bytes(lanes)?;
    Some(MapLine {
        node,
        into,
        out,
        lanes,
    })
}

/// Parses the part of a `level` line after its first word. The inner value is `None` if the level is above 15.
fn level_line(line: &[u8]) -> Option<Option<u8>>
    ensures { result ≡ level_line (words line.now) }
{
    small_byte(only_word(line)?, 15)
}

/// Parses the part of a `levels` line after its first word. Returns `None` if the grammar has no such line.
fn block_line(line: &[u8]) -> Option<LevelsLine>
    ensures { result ≡ block_line (words line.now) }
{
    let (port, line) = split_word(line)?;
    let (number, line) = split_word(line)?;
    let levels = only_word(line)?;
    let (node, port) = node_port(port)?;
    let number = small(number, LAST_BLOCK)?;
    let levels = hex_bytes(levels)?;
    Some(LevelsLine {
        node,
        port,
        number,
        levels,
    })
}
