ghost use Rattle.std.specs.Prelude.{◌≡◌, ◌<◌, ◌≤◌, length, map, unwrap_or, IfOk};
ghost use Rattle.std.specs.List.{range_with_len};
ghost use Rattle.updown_routes.specs.Ports.{next_port_at};
ghost use Rattle.lft_blocks.specs.Attachment.{AreWithin, row_of, table_in};

use crate::attachment::Attachment;
use crate::block::blocks;
use crate::table::Table;
use smp_bytes::{Guid, NO_ENTRY};
use std::alloc::{AllocError, Global};
use updown_routes::Routes;

/// Returns the table of each of the switches `guids`, with `count` blocks, according to `routes`.
pub(crate) fn tables(
    alloc: Global,
    routes: &Routes,
    attachments: &[Option<Attachment>],
    guids: &[Guid],
    count: usize,
) -> Result<Vec<Table>, AllocError>
    requires within { AreWithin (length guids.now) attachments.now }
    requires few { count ≤ 1024 }
    ensures { IfOk result (λ tables. tables.items
        ≡ map (table_in attachments.now routes.now guids.now count)
        (range_with_len 0 (length guids.now))) }
{
    let mut tables = Vec::with_capacity(alloc, guids.len())?;
    for own in 0..guids.len() {
        tables.push(table_at(alloc, routes, attachments, guids, count, own)?)?;
    }
    Ok(tables)
}

/// Returns the table of the switch at the index `own` of `guids`, with `count` blocks, according to `routes`.
fn table_at(
    alloc: Global,
    routes: &Routes,
    attachments: &[Option<Attachment>],
    guids: &[Guid],
    count: usize,
    own: usize,
) -> Result<Table, AllocError>
    requires within { AreWithin (length guids.now) attachments.now }
    requires few { count ≤ 1024 }
    requires own { own < length guids.now }
    ensures { IfOk result (λ table.
        table ≡ table_in attachments.now routes.now guids.now count own) }
{
    let row = row(alloc, routes, own, guids.len())?;
    let blocks = blocks(alloc, attachments, &row, own, count)?;
    Ok(Table {
        guid: guids[own],
        blocks,
    })
}

/// Returns the next port from the switch at the index `own` towards each of the first `len` switches, or 255.
fn row(alloc: Global, routes: &Routes, own: usize, len: usize) -> Result<Vec<u8>, AllocError>
    ensures { IfOk result (λ row. row.items ≡ row_of routes.now own len) }
{
    let mut row = Vec::with_capacity(alloc, len)?;
    for to in 0..len {
        row.push(port_towards(routes, own, to))?;
    }
    Ok(row)
}

/// Returns the next port from the switch at the index `own` towards the one at the index `to`, or 255 if there is none.
fn port_towards(routes: &Routes, own: usize, to: usize) -> u8
    ensures { result ≡ unwrap_or (next_port_at routes.now own to) 255 }
{
    match routes.next_port_at(own, to) {
        Some(port) => port.number(),
        None => NO_ENTRY,
    }
}
