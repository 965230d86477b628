ghost use Rattle.std.specs.Prelude.{◌≡◌, IfOk, length, map, slice_get};
ghost use Rattle.held_tables.specs.Chains.{AreChains};
ghost use Rattle.held_tables.specs.Blocks.{AreBlank, AreBlocks, with_block, with_row};
ghost use Rattle.held_tables.specs.Tables.{number_of};

use crate::chains::{Chains, chains_of};
use crate::held::{Held, HeldBlock};
use smp_bytes::NO_ENTRY;
use std::alloc::{AllocError, Global};

/// Returns a row of 64 entries for each held switch, in the order of the held switches. The row has the entries of
/// the last block of the switch with the number `number`, and 255 for an entry that is not held. `chains` must be the
/// chains of the held blocks' numbers. Takes time linear in the number of held switches, plus the number of held
/// blocks with the number `number`.
pub fn block_rows(
    alloc: Global,
    held: &Held,
    chains: &Chains,
    number: u16,
) -> Result<Vec<[u8; 64]>, AllocError>
    requires { AreChains (map number_of held.now.blocks) chains.now }
    ensures { IfOk result (λ rows. AreBlocks held.now number rows.items) }
{
    let mut rows = no_blocks(alloc, held)?;
    let mut index = chains.first(number);
    while index < held.blocks().len() {
        put_block(&mut rows, held.blocks(), index);
        index = chains.next(index);
    }
    Ok(rows)
}

/// Puts the entries of the block at `index` into the row of its switch. Does nothing if there is no such block or row.
fn put_block(rows: &mut Vec<[u8; 64]>, blocks: &[HeldBlock], index: usize)
    ensures { rows.new.items ≡ with_block rows.old.items (slice_get blocks.now index) }
{
    match blocks.get(index) {
        Some(block) => put_row(rows, block),
        None => {}
    }
}

/// Puts the entries of `block` into the row of its switch. Does nothing if `rows` has no such row.
fn put_row(rows: &mut Vec<[u8; 64]>, block: &HeldBlock)
    ensures { rows.new.items ≡ with_row rows.old.items block.now }
{
    if block.switch < rows.len() {
        rows[block.switch] = block.entries;
    }
}

/// Returns the chains of the held blocks' numbers.
pub fn block_chains(alloc: Global, held: &Held) -> Result<Chains, AllocError>
    ensures { IfOk result (λ chains. AreChains (map number_of held.now.blocks) chains) }
{
    let numbers = numbers(alloc, held)?;
    chains_of(alloc, &numbers)
}

/// Returns the number of each held block, in the order of the blocks.
fn numbers(alloc: Global, held: &Held) -> Result<Vec<u16>, AllocError>
    ensures { IfOk result (λ numbers. numbers.items ≡ map number_of held.now.blocks) }
{
    held.blocks()
        .iter()
        .map(|block| block.number)
        .collect(alloc)
}

/// Returns a row of 64 entries, all 255, for each held switch.
#[tactic(auto, using(crate::proofs::Gathered::no_rows, crate::proofs::Gathered::blank_more))]
fn no_blocks(alloc: Global, held: &Held) -> Result<Vec<[u8; 64]>, AllocError>
    ensures { IfOk result (λ rows. AreBlank (length held.now.switches) rows.items) }
{
    let count = held.switches().len();
    let mut rows = Vec::with_capacity(alloc, count)?;
    for _row in 0..count {
        rows.push([NO_ENTRY; 64])?;
    }
    Ok(rows)
}
