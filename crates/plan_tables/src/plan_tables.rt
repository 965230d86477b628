//! The tables of a plan, as held tables: LIDs with their end ports, switches and blocks.
ghost use Rattle.std.specs.Prelude.{◌≡◌, ◌≤◌, ◌++◌, [], IfOk, OnOk, length, map};
ghost use Rattle.std.specs.Option.{option_map_or};
ghost use Rattle.held_tables.specs.Held.{lids_of};
ghost use Rattle.plan_tables.specs.PlanTables.{blocks_from, blocks_of, held_plan, owned_lids, owned_range, with_top};

use held_tables::{Held, HeldBlock, HeldLid, HeldSwitch, push_lids};
use lft_blocks::{LidMap, Plan, Table};
use smp_bytes::Lid;
use std::alloc::{AllocError, Global};

/// Returns the tables of `plan`: its LIDs with their end ports, and its switches with their blocks. The top of
/// each switch is the greatest LID of `plan`. If `plan` has no LID, the tables are empty. The plan's text is read
/// as these tables.
pub fn held_plan(alloc: Global, plan: &Plan) -> Result<Held, AllocError>
    ensures { IfOk result (λ held. held ≡ held_plan plan.now) }
{
    match plan.top() {
        Some(top) => under_top(alloc, plan, top),
        None => Ok(Held::new(alloc)),
    }
}

/// Returns the tables of `plan`, with `top` as the top of each switch.
fn under_top(alloc: Global, plan: &Plan, top: Lid) -> Result<Held, AllocError>
    ensures { IfOk result (λ held. held ≡ record {
      lids = owned_lids plan.now.given;
      switches = map (with_top top) plan.now.tables;
      blocks = blocks_of 0 plan.now.tables;
    }) }
{
    let lids = owned_lids(alloc, plan.lids())?;
    let switches = with_top(alloc, top, plan.tables())?;
    let blocks = blocks_of(alloc, plan.tables())?;
    Ok(Held::of(lids, switches, blocks))
}

/// Returns each LID of `map` with its end port, by end port in the order of their first LIDs.
fn owned_lids(alloc: Global, map: &LidMap) -> Result<Vec<HeldLid>, AllocError>
    ensures { IfOk result (λ lids. lids.items ≡ owned_lids map.now) }
{
    let mut lids = Vec::new(alloc);
    for lid in map.lids() {
        push_owned(&mut lids, map, *lid)?;
    }
    Ok(lids)
}

/// Appends to `lids` the LIDs of the end port that owns `lid`, from `lid` on, each with this end port, if there is one.
fn push_owned(lids: &mut Vec<HeldLid>, map: &LidMap, lid: Lid) -> Result<(), AllocError>
    ensures { OnOk result (lids.new.items
        ≡ lids.old.items ++ option_map_or lids_of (owned_range map.now lid) []) }
{
    match map.owner(lid) {
        Some(port) => push_lids(lids, &HeldLid { lid, port }, map.lmc_of(&port)),
        None => Ok(()),
    }
}

/// Returns the switches of `tables`, each with the top `top`.
fn with_top(alloc: Global, top: Lid, tables: &[Table]) -> Result<Vec<HeldSwitch>, AllocError>
    ensures { IfOk result (λ switches. switches.items ≡ map (with_top top) tables.now) }
{
    let mut switches = Vec::with_capacity(alloc, tables.len())?;
    for table in tables {
        let guid = table.guid();
        switches.push(HeldSwitch { guid, top })?;
    }
    Ok(switches)
}

/// Returns the blocks of all `tables`, in the order of `tables`. The switch of the first table has index 0.
fn blocks_of(alloc: Global, tables: &[Table]) -> Result<Vec<HeldBlock>, AllocError>
    ensures { IfOk result (λ blocks. blocks.items ≡ blocks_of 0 tables.now) }
{
    let mut blocks = Vec::new(alloc);
    for (switch, table) in tables.iter().enumerate() {
        push_blocks(&mut blocks, switch, table.blocks())?;
    }
    Ok(blocks)
}

/// Appends the blocks of `table` to `blocks`, as those of the switch at index `switch`. The first block has number 0.
fn push_blocks(
    blocks: &mut Vec<HeldBlock>,
    switch: usize,
    table: &[[u8; 64]],
) -> Result<(), AllocError>
    requires { length table.now ≤ 1024 }
    ensures { OnOk result (blocks.new.items ≡ blocks.old.items ++ blocks_from switch 0 table.now) }
{
    for (number, entries) in table.iter().enumerate() {
        blocks.push(HeldBlock {
            switch,
            number: number as u16,
            entries: *entries,
        })?;
    }
    Ok(())
}
