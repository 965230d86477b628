//! Tables put together from the entries of all switches for each LID.
ghost use Rattle.std.specs.Prelude.{◌≡◌, ◌≤◌, ◌<◌, ◌++◌, IfOk, OnOk, map, max, slice_index_or};
ghost use Rattle.fact_store.specs.View.{cells_of};
ghost use Rattle.subnet_view.specs.Reading.{switches};
ghost use Rattle.next_tables.specs.Assembly.{all_blocks, block_in, entry_in, most_blocks, some_blocks, tables_with};
ghost use Rattle.next_tables.specs.NextTables.{next_switch};

use held_tables::{Held, HeldBlock, HeldSwitch};
use packet_walks::Network;
use plan_tables::block_count;
use smp_bytes::{Lid, NO_ENTRY};
use std::alloc::{AllocError, Global};

/// Returns tables with the plan's LIDs. For each usable switch, they have the greater of its tops in `held` and `plan`,
/// and its entries in `columns` up to the block of that top. `columns` has, for each LID, the entries of all usable
/// switches, in ascending order of GUID. A missing entry is 255. `held` and `plan` must have the same facts.
pub fn tables_with(
    alloc: Global,
    held: &Network,
    plan: &Network,
    columns: &[Vec<u8>],
) -> Result<Held, AllocError>
    requires facts { plan.now.facts ≡ held.now.facts }
    ensures { IfOk result (λ made. made ≡ tables_with (cells_of held.now.facts) held.now.held plan.now.held
        (map (λ column. column.items) columns.now)) }
{
    let lids = Vec::from_slice(alloc, plan.held().lids())?;
    let switches = switches_with(alloc, held, plan)?;
    let blocks = all_blocks(alloc, columns, &switches)?;
    Ok(Held::of(lids, switches, blocks))
}

/// Returns the number of blocks that have all LIDs up to the greatest top of a usable switch in `held` or `plan`, at
/// most 1024. `held` and `plan` must have the same facts.
pub fn most_blocks(held: &Network, plan: &Network) -> usize
    requires facts { plan.now.facts ≡ held.now.facts }
    ensures few { result ≤ 1024 }
    ensures count { result ≡ most_blocks (cells_of held.now.facts) held.now.held plan.now.held }
{
    block_count(Some(greater(held.greatest_top(), plan.greatest_top())))
}

/// Returns the greater of `lid` and `other`.
pub fn greater(lid: Lid, other: Lid) -> Lid
    ensures { result ≡ max lid other }
{
    Lid::new(lid.number().max(other.number()))
}

/// Returns the usable switches, in ascending order of GUID, each with the greater of its tops in `held` and `plan`.
fn switches_with(
    alloc: Global,
    held: &Network,
    plan: &Network,
) -> Result<Vec<HeldSwitch>, AllocError>
    requires facts { plan.now.facts ≡ held.now.facts }
    ensures { IfOk result (λ made. made.items
        ≡ map (next_switch held.now.held plan.now.held) (switches (cells_of held.now.facts))) }
{
    let mut made = Vec::with_capacity(alloc, held.switch_count())?;
    for index in 0..held.switch_count() {
        if let Some(guid) = held.switch(index) {
            let top = greater(held.top(index), plan.top(index));
            made.push(HeldSwitch { guid, top })?;
        }
    }
    Ok(made)
}

/// Returns the blocks of each of `switches` in turn, up to that of its top, by the `columns` of entries for each LID.
fn all_blocks(
    alloc: Global,
    columns: &[Vec<u8>],
    switches: &[HeldSwitch],
) -> Result<Vec<HeldBlock>, AllocError>
    ensures { IfOk result (λ blocks. blocks.items
        ≡ all_blocks (map (λ column. column.items) columns.now) 0 switches.now) }
{
    let mut blocks = Vec::new(alloc);
    for (index, switch) in switches.iter().enumerate() {
        let count = block_count(Some(switch.top));
        add_blocks(&mut blocks, columns, index, count)?;
    }
    Ok(blocks)
}

/// Appends the first `count` blocks of the switch at `index`, from `columns`. A missing entry is 255.
fn add_blocks(
    blocks: &mut Vec<HeldBlock>,
    columns: &[Vec<u8>],
    index: usize,
    count: usize,
) -> Result<(), AllocError>
    requires { count ≤ 1024 }
    ensures { OnOk result (blocks.new.items
        ≡ blocks.old.items ++ some_blocks (map (λ column. column.items) columns.now) index count) }
{
    for number in 0..count {
        blocks.push(HeldBlock {
            switch: index,
            number: number as u16,
            entries: block(columns, index, number),
        })?;
    }
    Ok(())
}

/// Returns block `number` of the switch at `index`, from `columns`. A missing entry is 255.
fn block(columns: &[Vec<u8>], index: usize, number: usize) -> [u8; 64]
    requires { number < 1024 }
    ensures { result ≡ block_in (map (λ column. column.items) columns.now) index number }
{
    let mut block = [NO_ENTRY; 64];
    for i in 0..64 {
        block[i] = entry(columns, index, 64 * number + i);
    }
    block
}

/// Returns the entry of the switch at `index` for `lid` in `columns`, or 255 if there is none.
fn entry(columns: &[Vec<u8>], index: usize, lid: usize) -> u8
    ensures { result ≡ entry_in (map (λ column. column.items) columns.now) index lid }
{
    match columns.get(lid) {
        Some(column) => entry_at(column, index),
        None => NO_ENTRY,
    }
}

/// Returns the entry of `column` at `index`, or 255 if there is none.
fn entry_at(column: &[u8], index: usize) -> u8
    ensures { result ≡ slice_index_or column.now index 255 }
{
    column.get(index).copied().unwrap_or(NO_ENTRY)
}
