ghost use Rattle.std.specs.Prelude.{◌≡◌, Err};
ghost use Rattle.std.specs.List.{list_any};
ghost use Rattle.lanes_file.specs.Keys.{Key, is_after};
ghost use Rattle.lanes_file.specs.LanesLine.{line_of};
ghost use Rattle.lanes_file.specs.Reading.{block_after, block_with, is_no_lane, is_no_level, item_of, lanes_with};
ghost use Rattle.lanes_file.specs.Reading.{level_with, lines_after, map_after, map_with, start};

use crate::lanes::{LaneMap, LevelBlock};
use crate::lanes_item::LanesItem;
use crate::lanes_line::{LanesLine, LevelsLine, MapLine, read_line};
use crate::lanes_text_fault::{LanesLineFault, LanesTextError};
use smp_bytes::{Guid, PortNum};

/// The greatest lane, and the greatest service level.
const MAX_LANE: u8 = 15;

/// The byte in a block for a LID to which the block gives no service level.
const NO_LEVEL: u8 = 0xFF;

/// What the check of a line needs to know about the lines before it.
#[derive(Clone, Copy)]
pub(crate) struct LinesBefore {
    /// Whether there is a `lanes` line.
    pub(crate) has_lanes: bool,
    /// The node and the two ports of the last `sl2vl` line, or `None` if there is no such line.
    pub(crate) map: Option<((Guid, PortNum), PortNum)>,
    /// Whether there is a `level` line.
    pub(crate) has_level: bool,
    /// The node, the port and the number of the last `levels` line, or `None` if there is no such line.
    pub(crate) block: Option<((Guid, PortNum), u16)>,
}

impl LinesBefore {
    /// Returns the state before the first line.
    pub(crate) fn start() -> Self
        ensures { result ≡ start }
    {
        LinesBefore {
            has_lanes: false,
            map: None,
            has_level: false,
            block: None,
        }
    }

    /// Returns what `line` says, or what is wrong with it. `number` is the number of the line.
    pub(crate) fn item(&self, number: usize, line: &[u8]) -> Result<LanesItem, LanesLineFault>
        ensures { result ≡ item_of number self.now (line_of line.now) }
    {
        match read_line(line) {
            None => wrong(number, LanesTextError::Syntax),
            Some(LanesLine::Empty) => Ok(LanesItem::Nothing),
            Some(LanesLine::Lanes(lanes)) => lanes_item(number, self.has_lanes, lanes),
            Some(LanesLine::Map(line)) => map_item(number, self.map, line),
            Some(LanesLine::Level(level)) => level_item(number, self.has_level, level),
            Some(LanesLine::Block(line)) => block_item(number, self.block, line),
        }
    }

    /// Returns the state after a line that says `item`.
    pub(crate) fn after(&self, item: &LanesItem) -> Self
        ensures { result ≡ lines_after self.now item.now }
    {
        match item {
            LanesItem::Nothing => *self,
            LanesItem::Lanes(_) => LinesBefore {
                has_lanes: true,
                ..*self
            },
            LanesItem::Map(map) => LinesBefore {
                map: Some(((map.node, map.into), map.out)),
                ..*self
            },
            LanesItem::Level(_) => LinesBefore {
                has_level: true,
                ..*self
            },
            LanesItem::Block(block) => LinesBefore {
                block: Some(((block.node, block.port), block.number)),
                ..*self
            },
        }
    }
}

/// Returns the fault `wrong`, at the line with the number `line`.
fn wrong(line: usize, wrong: LanesTextError) -> Result<LanesItem, LanesLineFault>
    ensures { result ≡ Err (record { line = line; wrong = wrong }) }
{
    Err(LanesLineFault { line, wrong })
}

/// Returns what a `lanes` line with the number `number` says, or its fault. `is_second` tells whether one is before it.
fn lanes_item(number: usize, is_second: bool, lanes: [u8; 16]) -> Result<LanesItem, LanesLineFault>
    ensures { result ≡ lanes_with number is_second lanes }
{
    if has_no_lane(&lanes) {
        wrong(number, LanesTextError::Lane)
    } else if is_second {
        wrong(number, LanesTextError::Repeated)
    } else {
        Ok(LanesItem::Lanes(lanes))
    }
}

/// Returns whether one of `lanes` is above 15.
fn has_no_lane(lanes: &[u8]) -> bool
    ensures { result ≡ list_any is_no_lane lanes.now }
{
    lanes.iter().any(|lane| *lane > MAX_LANE)
}

/// Returns what the `sl2vl` line `line` says, or its fault. `last` is the key of the last `sl2vl` line before it.
fn map_item(
    number: usize,
    last: Option<((Guid, PortNum), PortNum)>,
    line: MapLine,
) -> Result<LanesItem, LanesLineFault>
    ensures { result ≡ map_with number last line.node line.into line.out line.lanes }
{
    let (Some(into), Some(out)) = (line.into, line.out) else {
        return wrong(number, LanesTextError::Port);
    };
    let MapLine { node, lanes, .. } = line;
    map_after(
        number,
        last,
        LaneMap {
            node,
            into,
            out,
            lanes,
        },
    )
}

/// Returns what an `sl2vl` line with the map `map` says, or its fault. `last` is the key of the last one before it.
fn map_after(
    number: usize,
    last: Option<((Guid, PortNum), PortNum)>,
    map: LaneMap,
) -> Result<LanesItem, LanesLineFault>
    ensures { result ≡ map_after number last map }
{
    if has_no_lane(&map.lanes) {
        wrong(number, LanesTextError::Lane)
    } else if is_map_after(last, ((map.node, map.into), map.out)) {
        Ok(LanesItem::Map(map))
    } else {
        wrong(number, LanesTextError::Repeated)
    }
}

/// Returns whether the node and the two ports of `key` come after those of `last`. Returns true if `last` is `None`.
fn is_map_after(last: Option<((Guid, PortNum), PortNum)>, key: ((Guid, PortNum), PortNum)) -> bool
    ensures { result ≡ is_after last key }
{
    match last {
        Some(last) => last < key,
        None => true,
    }
}

/// Returns what a `level` line with the number `number` says, or its fault. `is_second` tells whether one is before it.
fn level_item(
    number: usize,
    is_second: bool,
    level: Option<u8>,
) -> Result<LanesItem, LanesLineFault>
    ensures { result ≡ level_with number is_second level }
{
    let Some(level) = level else {
        return wrong(number, LanesTextError::Level);
    };
    if is_second {
        wrong(number, LanesTextError::Repeated)
    } else {
        Ok(LanesItem::Level(level))
    }
}

/// Returns what the `levels` line `line` says, or its fault. `last` is the key of the last `levels` line before it.
fn block_item(
    number: usize,
    last: Option<((Guid, PortNum), u16)>,
    line: LevelsLine,
) -> Result<LanesItem, LanesLineFault>
    ensures { result ≡ block_with number last line.node line.port line.number line.levels }
{
    let Some(port) = line.port else {
        return wrong(number, LanesTextError::Port);
    };
    let Some(block_number) = line.number else {
        return wrong(number, LanesTextError::Block);
    };
    let LevelsLine { node, levels, .. } = line;
    block_after(
        number,
        last,
        LevelBlock {
            node,
            port,
            number: block_number,
            levels,
        },
    )
}

/// Returns what a `levels` line with the block `block` says, or its fault. `last` is the key of the last one before it.
fn block_after(
    number: usize,
    last: Option<((Guid, PortNum), u16)>,
    block: LevelBlock,
) -> Result<LanesItem, LanesLineFault>
    ensures { result ≡ block_after number last block }
{
    if has_no_level(&block.levels) {
        wrong(number, LanesTextError::Level)
    } else if is_block_after(last, ((block.node, block.port), block.number)) {
        Ok(LanesItem::Block(block))
    } else {
        wrong(number, LanesTextError::Repeated)
    }
}

/// Returns whether one of `levels` is above 15 and is not `ff`.
fn has_no_level(levels: &[u8]) -> bool
    ensures { result ≡ list_any is_no_level levels.now }
{
    levels
        .iter()
        .any(|level| *level > MAX_LANE && *level != NO_LEVEL)
}

/// Returns whether `key`, a node, a port and a number, comes after `last`, as it does if `last` is `None`.
fn is_block_after(last: Option<((Guid, PortNum), u16)>, key: ((Guid, PortNum), u16)) -> bool
    ensures { result ≡ is_after last key }
{
    match last {
        Some(last) => last < key,
        None => true,
    }
}
