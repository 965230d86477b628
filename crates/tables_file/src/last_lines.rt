ghost use Rattle.std.specs.Prelude.{◌≡◌};
ghost use Rattle.tables_file.specs.TablesLine.{line_of};
ghost use Rattle.tables_file.specs.Reading.{start, item_of, last_lines_after};
ghost use Rattle.tables_file.specs.Reading.{lid_with, lid_after, lid_behind, is_behind, switch_with, block_with};

use crate::tables_line::{BlockLine, LidLine, SwitchLine, TextLine, read_line};
use crate::tables_text_fault::{TablesLineFault, TablesTextError};
use held_tables::{HeldItem, HeldLid, HeldRange, HeldSwitch};
use smp_bytes::{Guid, Lid};
use subnet_view::EndPort;

/// The first number above all LIDs of end ports.
const LID_END: u32 = Lid::UNICAST_END as u32;

/// What is kept of the lines so far, to check the order of later lines.
#[derive(Clone, Copy)]
pub(crate) struct LastLines {
    /// The first LID of the last `lid` line, with its end port, or `None` if there was no such line.
    pub(crate) lid: Option<HeldLid>,
    /// The GUID of the last switch, or `None` if there was no switch.
    pub(crate) switch: Option<Guid>,
    /// The least number that the next block of the last switch may have.
    pub(crate) block: u32,
}

impl LastLines {
    /// Returns what is kept before the first line: no `lid` line and no switch.
    pub(crate) fn start() -> Self
        ensures { result ≡ start }
    {
        LastLines {
            lid: None,
            switch: None,
            block: 0,
        }
    }

    /// Returns what `line`, whose number is `number`, says after the lines before it, or the fault of the line.
    pub(crate) fn item(&self, number: usize, line: &[u8]) -> Result<HeldItem, TablesLineFault>
        ensures { result ≡ item_of number self.now (line_of line.now) }
    {
        match read_line(line) {
            None => wrong(number, TablesTextError::Syntax),
            Some(TextLine::Empty) => Ok(HeldItem::Nothing),
            Some(TextLine::Lid(line)) => lid(number, self.lid, line),
            Some(TextLine::Switch(line)) => switch(number, self.switch, line),
            Some(TextLine::Block(line)) => self.block(number, line),
        }
    }

    /// Returns what the `block` line with the number `number` says. Fails with `Syntax` if no switch is above the line,
    /// and with `Block` if the block's number is above 767, or too low after the last one.
    fn block(&self, number: usize, line: BlockLine) -> Result<HeldItem, TablesLineFault>
        ensures { result ≡ block_with number self.now line.number line.entries }
    {
        if self.switch.is_none() {
            return wrong(number, TablesTextError::Syntax);
        }
        match line.number {
            Some(block) if u32::from(block) >= self.block => Ok(HeldItem::Block(
                block,
                line.entries,
            )),
            _ => wrong(number, TablesTextError::Block),
        }
    }

    /// Returns what is kept after the next line, which says `item`.
    pub(crate) fn after(&self, item: &HeldItem) -> Self
        ensures { result ≡ last_lines_after self.now item.now }
    {
        match item {
            HeldItem::Nothing => *self,
            HeldItem::Lid(range) => LastLines {
                lid: Some(range.first),
                ..*self
            },
            HeldItem::Switch(held) => LastLines {
                lid: self.lid,
                switch: Some(held.guid),
                block: 0,
            },
            HeldItem::Block(number, _) => LastLines {
                block: u32::from(*number) + 1,
                ..*self
            },
        }
    }
}

/// Returns the fault `wrong` of the line with the number `line`, as a refusal.
fn wrong(line: usize, wrong: TablesTextError) -> Result<HeldItem, TablesLineFault>
    ensures { result ≡ Err (record { line = line; wrong = wrong }) }
{
    Err(TablesLineFault { line, wrong })
}

/// Returns what the `lid` line with the number `number` says, or its fault. `last` is the first LID of the last one.
fn lid(number: usize, last: Option<HeldLid>, line: LidLine) -> Result<HeldItem, TablesLineFault>
    ensures { result ≡ lid_with number last line.lid line.node line.port line.lmc }
{
    let Some(lid) = line.lid else {
        return wrong(number, TablesTextError::Lid);
    };
    let Some(port) = line.port else {
        return wrong(number, TablesTextError::Port);
    };
    let Some(lmc) = line.lmc else {
        return wrong(number, TablesTextError::Lmc);
    };
    if LID_END < u32::from(lid) + u32::from(lmc.width()) {
        return wrong(number, TablesTextError::Lid);
    }
    let node = line.node;
    let first = HeldLid {
        lid: Lid::new(lid),
        port: EndPort { node, port },
    };
    lid_after(number, last, HeldRange { first, lmc })
}

/// Returns `range`, the LIDs of the `lid` line with the number `number`, if it comes after `last`, or the line's fault.
fn lid_after(
    number: usize,
    last: Option<HeldLid>,
    range: HeldRange,
) -> Result<HeldItem, TablesLineFault>
    ensures { result ≡ lid_after number last range }
{
    match last {
        Some(last) => lid_behind(number, last, range),
        None => Ok(HeldItem::Lid(range)),
    }
}

/// Returns `range` if it comes after `last`, and otherwise `Lid` if its first LID is less, and else `Port`.
fn lid_behind(number: usize, last: HeldLid, range: HeldRange) -> Result<HeldItem, TablesLineFault>
    ensures { result ≡ lid_behind number last range }
{
    let held = range.first;
    if held.lid < last.lid {
        wrong(number, TablesTextError::Lid)
    } else if is_behind(last, held) {
        Ok(HeldItem::Lid(range))
    } else {
        wrong(number, TablesTextError::Port)
    }
}

/// Returns whether the LID or the node of `held` is greater than that of `last`, or the nodes are equal and the port
/// is. If the LID is not less, this is whether `held` comes after `last`.
fn is_behind(last: HeldLid, held: HeldLid) -> bool
    ensures { result ≡ is_behind last held }
{
    let is_same_node = last.port.node == held.port.node;
    last.lid < held.lid
        || last.port.node < held.port.node
        || (is_same_node && last.port.port < held.port.port)
}

/// Returns what the `switch` line with the number `number` says. Fails with `Lid` if the top is above 49,151, and with
/// `Switch` if the GUID is not greater than `last`, that of the previous switch.
fn switch(number: usize, last: Option<Guid>, line: SwitchLine) -> Result<HeldItem, TablesLineFault>
    ensures { result ≡ switch_with number last line.guid line.top }
{
    let Some(top) = line.top else {
        return wrong(number, TablesTextError::Lid);
    };
    let guid = line.guid;
    let top = Lid::new(top);
    match last {
        Some(last) if guid <= last => wrong(number, TablesTextError::Switch),
        _ => Ok(HeldItem::Switch(HeldSwitch { guid, top })),
    }
}
