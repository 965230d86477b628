//! Tables under the rule that spreads.
ghost use Rattle.std.specs.Prelude.{◌≡◌, ◌<◌, ◌≤◌, ◌*◌, All, IfOk, OnOk, length, map, replicate, slice_index};
ghost use Rattle.std.specs.List.{range_with_len};
ghost use Rattle.fact_store.specs.View.{cells_of};
ghost use Rattle.subnet_view.specs.Graph.{guids_of};
ghost use Rattle.spread_routes.specs.Adapters.{adapters_of};
ghost use Rattle.spread_routes.specs.Spread.{spread_at, spread_by};
ghost use Rattle.spread_routes.specs.SwitchOrder.{order_value_of};
ghost use Rattle.spread_routes.specs.Exits.{AreTowards};
ghost use Rattle.lft_blocks.specs.Attachment.{AreWithin};
ghost use Rattle.lft_blocks.specs.LidNumbers.{number_of, numbered, numbering_of};
ghost use Rattle.lft_blocks.specs.Plan.{tables_of};
ghost use Rattle.lft_blocks.specs.TableRow.{AreLidsAt, AreRows, IsRow, attachment_by_index, table_of_row};

use crate::attachment::Attachment;
use crate::lid_numbers::{find_numbering, lid_numbers};
use crate::table::Table;
use crate::table_row::{TableRow, lids_by_switch};
use attr_codec::Lmc;
use smp_bytes::{Guid, Lid};
use spread_routes::{Exits, Spread, SwitchAdapters, SwitchOrder, Towards, adapters_of};
use std::alloc::{AllocError, Global};
use std::mem;
use subnet_view::WiredGraph;

/// Returns the table of each switch of `wired`, with `count` blocks, under the rule that spreads by `order`.
pub(crate) fn spread_tables(
    alloc: Global,
    wired: &WiredGraph,
    attachments: &[Option<Attachment>],
    lmc: Lmc,
    order: &SwitchOrder,
    count: usize,
) -> Result<Vec<Table>, AllocError>
    requires within { AreWithin (length (guids_of wired.now.graph.now)) attachments.now }
    requires few { count ≤ 1024 }
    requires all { length attachments.now ≡ 64 * count }
    ensures { IfOk result (λ tables. tables.items ≡ tables_of
        (attachment_by_index (guids_of wired.now.graph.now) attachments.now)
        (numbered (number_of (numbering_of lmc (cells_of wired.now.wires.now)) (guids_of wired.now.graph.now)
        (attachment_by_index (guids_of wired.now.graph.now) attachments.now))
        (spread_by wired.now.graph.now (adapters_of (cells_of wired.now.wires.now)) (order_value_of order.now))).next
        count (guids_of wired.now.graph.now)) }
{
    let graph = wired.graph;
    let guids = graph.switches();
    let adapters = adapters_of(alloc, wired)?;
    let given = SwitchAdapters {
        graph,
        adapters: &adapters,
    };
    let numbering = find_numbering(alloc, &given, lmc)?;
    let numbers = lid_numbers(alloc, &numbering, attachments)?;
    let spread = Spread::of(alloc, &given, order)?;
    let mut rows = rows(alloc, &spread, attachments, &numbers, guids.len())?;
    tables_of(alloc, guids, &mut rows, count)
}

/// Returns the row of entries of each switch.
fn rows(
    alloc: Global,
    spread: &Spread,
    attachments: &[Option<Attachment>],
    numbers: &[u16],
    switches: usize,
) -> Result<Vec<TableRow>, AllocError>
    requires switches { switches ≡ length spread.now.graph }
    requires within { AreWithin switches attachments.now }
    requires few { length attachments.now ≤ 65536 }
    requires numbers { length numbers.now ≡ length attachments.now }
    ensures { IfOk result (λ rows. AreRows (numbered (slice_index numbers.now) (spread_at spread.now)).next
        (guids_of spread.now.graph) attachments.now switches rows.items) }
{
    let mut rows = no_ways(alloc, switches, attachments.len())?;
    let lids = lids_by_switch(alloc, attachments, switches)?;
    let mut first = 0;
    'block: while first < switches {
        let towards = spread.towards(alloc, first)?;
        write_rows(
            alloc,
            &mut rows,
            spread,
            &towards,
            attachments,
            numbers,
            &lids,
        )?;
        first = towards.end();
    }
    Ok(rows)
}

/// Writes the entries of all switches for the LIDs that are attached to the targets of `towards`.
fn write_rows<'s>(
    alloc: Global,
    rows: &mut [TableRow],
    spread: &'s Spread,
    towards: &Towards,
    attachments: &[Option<Attachment>],
    numbers: &[u16],
    lids: &[Vec<Lid>],
) -> Result<(), AllocError>
    requires towards { AreTowards spread.now towards.now }
    requires numbers { length numbers.now ≡ length attachments.now }
    requires order { towards.now.first ≤ towards.now.end }
    requires rows { AreRows (numbered (slice_index numbers.now) (spread_at spread.now)).next
        (guids_of spread.now.graph) attachments.now towards.now.first rows.old }
    requires lids { AreLidsAt attachments.now (length attachments.now) (length spread.now.graph)
        (map (λ lids. lids.items) lids.now) }
    ensures { OnOk result (AreRows (numbered (slice_index numbers.now) (spread_at spread.now)).next
        (guids_of spread.now.graph) attachments.now towards.now.end rows.new) }
{
    let mut exits = Exits::new(alloc)?;
    for (own, row) in rows.iter_mut().enumerate() {
        write_row(
            row,
            own,
            spread,
            towards,
            attachments,
            numbers,
            lids,
            &mut exits,
        )?;
    }
    Ok(())
}

/// Writes the entries of the switch at the index `own` for the LIDs that are attached to the targets of `towards`.
/// Replaces the contents of `exits`.
fn write_row<'s>(
    row: &mut TableRow,
    own: usize,
    spread: &'s Spread,
    towards: &Towards,
    attachments: &[Option<Attachment>],
    numbers: &[u16],
    lids: &[Vec<Lid>],
    exits: &mut Exits<'s>,
) -> Result<(), AllocError>
    requires own { own < length spread.now.graph }
    requires towards { AreTowards spread.now towards.now }
    requires numbers { length numbers.now ≡ length attachments.now }
    requires row { IsRow (numbered (slice_index numbers.now) (spread_at spread.now)).next
        (guids_of spread.now.graph) attachments.now towards.now.first own row.old }
    requires order { towards.now.first ≤ towards.now.end }
    requires lids { AreLidsAt attachments.now (length attachments.now) (length spread.now.graph)
        (map (λ lids. lids.items) lids.now) }
    ensures { OnOk result (IsRow (numbered (slice_index numbers.now) (spread_at spread.now)).next
        (guids_of spread.now.graph) attachments.now towards.now.end own row.new) }
{
    spread.exits_from(own, towards, exits)?;
    let first = towards.first();
    for target in first..towards.end() {
        row.write(
            attachments,
            &lids[target],
            numbers,
            exits,
            target - first,
            own == target,
        );
    }
    Ok(())
}

/// Returns `switches` rows of `len` entries, each of which is 255.
fn no_ways(alloc: Global, switches: usize, len: usize) -> Result<Vec<TableRow>, AllocError>
    ensures { IfOk result (λ rows. rows.items ≡ replicate switches (replicate len 255)) }
{
    let mut rows = Vec::with_capacity(alloc, switches)?;
    for _ in 0..switches {
        rows.push(TableRow::new(alloc, len)?)?;
    }
    Ok(rows)
}

/// Returns the table of each switch, with the entries of its row in `count` blocks. Takes the rows out of `rows`.
fn tables_of(
    alloc: Global,
    guids: &[Guid],
    rows: &mut [TableRow],
    count: usize,
) -> Result<Vec<Table>, AllocError>
    requires few { count ≤ 1024 }
    requires all { length rows.old ≡ length guids.now }
    requires rows { All (λ row. length row ≡ 64 * count) rows.old }
    ensures { IfOk result (λ tables. tables.items
        ≡ map (table_of_row guids.now rows.old count) (range_with_len 0 (length guids.now))) }
{
    let mut tables = Vec::with_capacity(alloc, guids.len())?;
    for own in 0..guids.len() {
        let row = mem::replace(&mut rows[own], TableRow::empty(alloc));
        let blocks = row.blocks(alloc, count)?;
        tables.push(Table::new(guids[own], blocks))?;
    }
    Ok(tables)
}
