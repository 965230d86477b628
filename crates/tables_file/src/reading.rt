ghost use Rattle.std.specs.Prelude.{◌≡◌, IfOk, option_map};
ghost use Rattle.smp_bytes.specs.Judges.{JudgesButFor};
ghost use Rattle.tables_file.specs.Reading.{first_fault, held_of};
ghost use Rattle.tables_file.specs.Reads.{IsReadAs};
ghost use Rattle.text_words.specs.LinesFault.{is_memory};

use crate::last_lines::LastLines;
use crate::tables_text_fault::{TablesLineFault, TablesTextFault};
use held_tables::Held;
use std::alloc::Global;
use text_words::{LinesFault, split_line};

/// Parses a text of tables, such as a plan's. The text has a line for each end port, in ascending order of first LID,
/// which may give the port's LMC. For each switch, in ascending order of GUID, the text has a line for the switch and
/// lines for its blocks, in ascending order of number. Lines end with LF or CR LF, empty lines are skipped, and `#`
/// begins a comment:
///
/// ```text
/// lid 1 0000000000000010/0
/// lid 2 0000000000000100/1 lmc 1
/// switch 0000000000000010 top 3
/// block 0 ff000303ff..
/// ```
///
/// Takes time linear in the number of bytes and in the number of LIDs.
///
/// # Errors
///
/// Returns the first fault of the lines. Returns `Memory` if memory runs out and no line has a fault.
pub fn parse(alloc: Global, text: &[u8]) -> Result<Held, TablesTextFault>
    ensures judged { JudgesButFor is_memory result (option_map LinesFault.Line (first_fault text.now)) }
    ensures held { IfOk result (λ held. held ≡ held_of text.now) }
{
    match read_lines(alloc, text) {
        Ok(held) => Ok(held),
        Err(TablesTextFault::Line(fault)) => Err(TablesTextFault::Line(fault)),
        Err(TablesTextFault::Memory) => match first_fault(text) {
            Some(fault) => Err(TablesTextFault::Line(fault)),
            None => Err(TablesTextFault::Memory),
        },
    }
}

/// Parses the lines of `text`. Returns the first fault, or `Memory` if memory runs out before that fault.
#[tactic(auto, using(crate::proofs::Folds::reading))]
fn read_lines(alloc: Global, text: &[u8]) -> Result<Held, TablesTextFault>
    ensures { IsReadAs text.now result }
{
    let mut held = Held::new(alloc);
    let mut last_lines = LastLines::start();
    let mut number = 0;
    let mut rest = text;
    while let Some((line, later)) = split_line(rest) {
        number += 1;
        let item = last_lines.item(number, line)?;
        last_lines = last_lines.after(&item);
        held = held.with(item)?;
        rest = later;
    }
    Ok(held)
}

/// Returns the first fault of `text`, or `None` if `text` has no fault. Does not allocate.
#[tactic(auto, using(crate::proofs::Folds::judging))]
fn first_fault(text: &[u8]) -> Option<TablesLineFault>
    ensures { result ≡ first_fault text.now }
{
    let mut last_lines = LastLines::start();
    let mut number = 0;
    let mut rest = text;
    while let Some((line, later)) = split_line(rest) {
        number += 1;
        match last_lines.item(number, line) {
            Ok(item) => last_lines = last_lines.after(&item),
            Err(fault) => return Some(fault),
        }
        rest = later;
    }
    None
}
