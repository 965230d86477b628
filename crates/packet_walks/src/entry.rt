//! The entry of a switch for a LID.
ghost use Rattle.std.specs.Prelude.{◌≡◌};
ghost use Rattle.held_tables.specs.Tables.{block_at, entry_at, entry_for, is_block_of};

use crate::hops_by_tables::counted;
use held_tables::{Held, HeldBlock, index_of, top_at};
use smp_bytes::{Guid, Lid, NO_ENTRY};

/// Returns the effective entry of `switch` for `lid`, or 255 if there is none.
pub(crate) fn entry_for(held: &Held, switch: Guid, lid: Lid) -> u8
    ensures { result ≡ entry_for held.now lid switch }
{
    let index = index_of(held, switch);
    counted(lid, top_at(held, index), entry_at(held, index, lid))
}

/// Returns the entry for `lid` of the held switch at `index`, or 255 if `index` is `None` or no block has the entry.
fn entry_at(held: &Held, index: Option<usize>, lid: Lid) -> u8
    ensures { result ≡ entry_at held.now index lid }
{
    let Some(index) = index else {
        return NO_ENTRY;
    };
    match block_at(held, index, lid.block()) {
        Some(block) => block.entries[lid.in_block()],
        None => NO_ENTRY,
    }
}

/// Returns the last held block with the number `number` of the switch at `index`, if there is one.
fn block_at(held: &Held, index: usize, number: u16) -> Option<HeldBlock>
    ensures { result ≡ block_at held.now index number }
{
    held.blocks()
        .iter()
        .rev()
        .copied()
        .find(|block| is_block_of(index, number, block))
}

/// Returns whether `block` has the number `number` and belongs to the switch at `index`.
fn is_block_of(index: usize, number: u16, block: &HeldBlock) -> bool
    ensures { result ≡ is_block_of index number block.now }
{
    block.switch == index && block.number == number
}
