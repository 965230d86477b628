ghost use Rattle.std.specs.Prelude.{◌≡◌, IfOk, option_map};
ghost use Rattle.smp_bytes.specs.Judges.{JudgesButFor};
ghost use Rattle.text_words.specs.LinesFault.{is_memory};
ghost use Rattle.lanes_file.specs.Reading.{first_fault, lanes_said};
ghost use Rattle.lanes_file.specs.Reads.{IsReadAs};

use crate::lanes::Lanes;
use crate::lanes_builder::LanesBuilder;
use crate::lanes_text_fault::{LanesLineFault, LanesTextFault};
use crate::lines_before::LinesBefore;
use std::alloc::Global;
use text_words::{LinesFault, split_line};

/// Reads a text of lanes. It has at most one `lanes` line and at most one `level` line. It has an `sl2vl` line for each
/// map of a switch, in ascending order of GUID and ports. It has a `levels` line for each block of the levels of an end
/// port, in ascending order of GUID, port and number. Lines end with LF or CR LF, empty lines are skipped, and `#`
/// begins a comment:
///
/// ```text
/// lanes 00000000000000000000000000000000
/// sl2vl 0000000000000010 1 2 00010000000000000000000000000000
/// level 0
/// levels 0000000000000100/1 0 ffff0001ff..
/// ```
///
/// Takes time linear in the length of the text.
///
/// # Errors
///
/// Returns the first fault of the lines. If they have none, returns `Memory` if memory is refused.
pub fn parse(alloc: Global, text: &[u8]) -> Result<Lanes, LanesTextFault>
    ensures judged { JudgesButFor is_memory result (option_map LinesFault.Line (first_fault text.now)) }
    ensures lanes { IfOk result (λ lanes. lanes ≡ lanes_said text.now) }
{
    match read_lines(alloc, text) {
        Ok(said) => Ok(Lanes::of(said)),
        Err(LanesTextFault::Line(fault)) => Err(LanesTextFault::Line(fault)),
        Err(LanesTextFault::Memory) => match first_fault(text) {
            Some(fault) => Err(LanesTextFault::Line(fault)),
            None => Err(LanesTextFault::Memory),
        },
    }
}

/// Returns what the lines of `text` say, the first fault of the lines, or `Memory`.
#[tactic(auto, using(crate::proofs::Folds::reading))]
fn read_lines(alloc: Global, text: &[u8]) -> Result<LanesBuilder, LanesTextFault>
    ensures { IsReadAs text.now result }
{
    let mut said = LanesBuilder::new(alloc);
    let mut before = LinesBefore::start();
    let mut number = 0;
    let mut rest = text;
    while let Some((line, later)) = split_line(rest) {
        number += 1;
        let item = before.item(number, line)?;
        before = before.after(&item);
        said = said.with(item)?;
        rest = later;
    }
    Ok(said)
}

/// Returns the first fault of `text`, or `None` if `text` has no fault. Does not allocate.
#[tactic(auto, using(crate::proofs::Folds::judging))]
fn first_fault(text: &[u8]) -> Option<LanesLineFault>
    ensures { result ≡ first_fault text.now }
{
    let mut before = LinesBefore::start();
    let mut number = 0;
    let mut rest = text;
    while let Some((line, later)) = split_line(rest) {
        number += 1;
        match before.item(number, line) {
            Ok(item) => before = before.after(&item),
            Err(fault) => return Some(fault),
        }
        rest = later;
    }
    None
}
