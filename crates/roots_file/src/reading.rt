ghost use Rattle.std.specs.Prelude.{◌≡◌, ◌≤◌, Ok, IfOk, length, option_map, take};
ghost use Rattle.std.specs.List.{list_any};
ghost use Rattle.std.specs.Result.{result_err};
ghost use Rattle.smp_bytes.specs.Judges.{JudgesButFor};
ghost use Rattle.text_words.specs.Text.{lines};
ghost use Rattle.roots_file.specs.Line.{root_on};
ghost use Rattle.roots_file.specs.Reading.{names, roots_of, with_line, wrong_below};
ghost use Rattle.roots_file.specs.RootsTextFault.{Reads};
ghost use Rattle.text_words.specs.LinesFault.{is_memory};

use crate::line::root_on;
use crate::roots::Roots;
use crate::roots_text_fault::{RootsLineFault, RootsTextError, RootsTextFault};
use smp_bytes::Guid;
use std::alloc::Global;
use text_words::{LinesFault, split_line};

/// Parses a text of roots. Each line has one GUID, as 1 to 16 hex digits, with or without `0x`. Lines end with LF or CR
/// LF, empty lines are skipped, and `#` begins a comment:
///
/// ```text
/// # the cores
/// 0x0002c903000010a0
/// 2c903000010b0
/// ```
///
/// Takes time linear in the number of bytes and, for each line, logarithmic in the number of roots. If memory runs out,
/// also walks, for each line, the lines above it.
///
/// # Errors
///
/// Returns the first fault of the lines, or `Memory` if they have none and memory runs out.
pub fn parse(alloc: Global, text: &[u8]) -> Result<Vec<Guid>, RootsTextFault>
    ensures judged { JudgesButFor is_memory result
        (option_map LinesFault.Line (result_err (roots_of text.now))) }
    ensures roots { IfOk result (λ roots. roots_of text.now ≡ Ok roots.items) }
{
    match read_lines(alloc, text) {
        Ok(roots) => Ok(roots.into_guids()),
        Err(RootsTextFault::Line(fault)) => Err(RootsTextFault::Line(fault)),
        Err(RootsTextFault::Memory) => match first_fault(text) {
            Some(fault) => Err(RootsTextFault::Line(fault)),
            None => Err(RootsTextFault::Memory),
        },
    }
}

/// Returns the roots that the lines of `text` name, the first fault of the lines, or `Memory`.
#[tactic(auto, using(crate::proofs::Folds::reading))]
fn read_lines(alloc: Global, text: &[u8]) -> Result<Roots, RootsTextFault>
    ensures { Reads result (roots_of text.now) }
{
    let mut roots = Roots::new(alloc);
    let mut number = 0;
    let mut rest = text;
    while let Some((line, later)) = split_line(rest) {
        number += 1;
        roots = with_line(roots, number, line)?;
        rest = later;
    }
    Ok(roots)
}

/// Appends the root that `line`, of number `number`, names if it names one. Fails with its fault, or with `Memory`.
fn with_line(roots: Roots, number: usize, line: &[u8]) -> Result<Roots, RootsTextFault>
    ensures { Reads result (with_line number roots line.now) }
{
    match root_on(line) {
        Ok(None) => Ok(roots),
        Ok(Some(root)) => roots.with(number, root),
        Err(wrong) => Err(RootsTextFault::Line(RootsLineFault {
            line: number,
            wrong,
        })),
    }
}

/// Returns the first fault of the lines of `text`, or `None` if there is none. Does not allocate.
#[tactic(auto, using(crate::proofs::Folds::judging))]
fn first_fault(text: &[u8]) -> Option<RootsLineFault>
    ensures { result ≡ result_err (roots_of text.now) }
{
    let mut above = 0;
    let mut rest = text;
    while let Some((line, later)) = split_line(rest) {
        if let Some(wrong) = wrong_below(text, above, line) {
            let line = above + 1;
            return Some(RootsLineFault { line, wrong });
        }
        above += 1;
        rest = later;
    }
    None
}

/// Returns the fault of `line`, or `None` if it has no fault. `line` comes after the first `above` lines of `text`.
fn wrong_below(text: &[u8], above: usize, line: &[u8]) -> Option<RootsTextError>
    ensures { result ≡ wrong_below (take above (lines text.now)) (root_on line.now) }
{
    match root_on(line) {
        Ok(None) => None,
        Ok(Some(root)) => {
            if is_named(text, above, root) {
                Some(RootsTextError::Repeated)
            } else {
                None
            }
        }
        Err(wrong) => Some(wrong),
    }
}

/// Returns whether one of the first `count` lines of `text` names `root`.
#[tactic(auto, using(crate::proofs::Folds::naming))]
fn is_named(text: &[u8], count: usize, root: Guid) -> bool
    ensures { result ≡ list_any (names root) (take count (lines text.now)) }
{
    let mut rest = text;
    for _ in 0..count {
        let Some((line, later)) = split_line(rest) else {
            return false;
        };
        if names(line, root) {
            return true;
        }
        rest = later;
    }
    false
}

/// Returns whether `line` names `root`.
fn names(line: &[u8], root: Guid) -> bool
    ensures { result ≡ names root line.now }
{
    match root_on(line) {
        Ok(Some(named)) => named == root,
        _ => false,
    }
}
