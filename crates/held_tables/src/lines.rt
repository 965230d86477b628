//! The held LIDs, each with an end port that holds it.
ghost use Rattle.std.specs.Prelude.{◌≡◌, IfOk};
ghost use Rattle.held_tables.specs.Tables.{lines_of};

use crate::held::{Held, HeldLid};
use std::alloc::{AllocError, Global};
use std::collections::BTreeSet;

/// Returns the held LIDs, each with an end port that holds it, in the order of the lines. Of equal lines, only the
/// first is returned. Takes time logarithmic in the number of lines for each line.
pub fn lines_of(alloc: Global, held: &Held) -> Result<Vec<HeldLid>, AllocError>
    ensures { IfOk result (λ lines. lines.items ≡ lines_of held.now) }
{
    let mut lines = Vec::new(alloc);
    let mut told = BTreeSet::new(alloc);
    for line in held.lids() {
        if told.insert((line.lid, (line.port.node, line.port.port)))? {
            lines.push(*line)?;
        }
    }
    Ok(lines)
}
