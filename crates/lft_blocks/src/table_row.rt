//! The entries of switches, by LID. They are written one target after another.
ghost use Rattle.std.specs.Prelude.{◌≡◌, ◌<◌, ◌≤◌, ◌+◌, ◌*◌, [], All, IfOk, None, length, map, replicate};
ghost use Rattle.std.specs.Prelude.{slice_index, slice_index_or};
ghost use Rattle.spread_routes.specs.Exits.{port_by, with_entries};
ghost use Rattle.lft_blocks.specs.Attachment.{AreWithin};
ghost use Rattle.lft_blocks.specs.TableRow.{AreLidsAt, block_of_row, blocks_of_row, entry_by, attachment_port};

use crate::attachment::Attachment;
use smp_bytes::{Lid, NO_ENTRY};
use spread_routes::Exits;
use std::alloc::{AllocError, Global};
use std::marker::Model;

/// The entries of a switch. The index of an entry is its LID.
#[derive(Drop)]
pub(crate) struct TableRow {
    entries: Vec<u8>,
}

impl Model for TableRow {
    ghost use Rattle.std.specs.Prelude.{List, ℕ};

    ghost Value = { List ℕ };

    ghost view = { λ a. a.entries.items };
}

impl TableRow {
    /// Creates a row of `len` entries, which starts at LID 0. Each entry is 255.
    pub(crate) fn new(alloc: Global, len: usize) -> Result<Self, AllocError>
        ensures { IfOk result (λ row. row ≡ replicate len 255) }
    {
        let entries = vec![in alloc; NO_ENTRY; len]?;
        Ok(TableRow { entries })
    }

    /// Creates an empty row. Does not allocate.
    pub(crate) fn empty(alloc: Global) -> Self
        ensures { result ≡ [] }
    {
        TableRow {
            entries: Vec::new(alloc),
        }
    }

    /// Writes the entries for `lids`, which are attached to `target` of `exits`: the ports of the attachments if
    /// `is_own`, and else those that are chosen by the LIDs' numbers in `numbers`, or 255.
    pub(crate) fn write(
        &mut self,
        attachments: &[Option<Attachment>],
        lids: &[Lid],
        numbers: &[u16],
        exits: &Exits,
        target: usize,
        is_own: bool,
    )
        requires lids { All (λ lid. lid < length self.old) lids.now }
        requires attachments { length self.old ≡ length attachments.now }
        requires numbers { length numbers.now ≡ length self.old }
        requires target { target < 64 }
        ensures { self.new ≡ with_entries (λ lid. entry_by attachments.now is_own lid
            (port_by exits.now target (slice_index numbers.now lid))) self.old lids.now }
    {
        if is_own {
            write_own(&mut self.entries, attachments, lids);
        } else {
            exits.write(target, lids, numbers, NO_ENTRY, &mut self.entries);
        }
    }

    /// Returns the entries in `count` blocks of 64.
    pub(crate) fn blocks(&self, alloc: Global, count: usize) -> Result<Vec<[u8; 64]>, AllocError>
        requires few { count ≤ 1024 }
        requires all { length self.now ≡ 64 * count }
        ensures { IfOk result (λ blocks. blocks.items ≡ blocks_of_row self.now count) }
    {
        let mut blocks = Vec::with_capacity(alloc, count)?;
        for b in 0..count {
            blocks.push(block(&self.entries, b))?;
        }
        Ok(blocks)
    }
}

/// Sets the entry for each of `lids` to the port of its attachment, or to 255 if the LID has none.
fn write_own(entries: &mut [u8], attachments: &[Option<Attachment>], lids: &[Lid])
    requires lids { All (λ lid. lid < length entries.old) lids.now }
    requires attachments { length entries.old ≡ length attachments.now }
    ensures { entries.new ≡ with_entries
        (λ lid. attachment_port (slice_index_or attachments.now lid None)) entries.old lids.now }
{
    for lid in lids {
        entries[usize::from(lid.number())] = own_entry(attachments, *lid);
    }
}

/// Returns block `b` of `entries`.
fn block(entries: &[u8], b: usize) -> [u8; 64]
    requires few { b < 1024 }
    requires within { 64 * b + 64 ≤ length entries.now }
    ensures { result ≡ block_of_row entries.now b }
{
    let mut block = [NO_ENTRY; 64];
    for i in 0..64 {
        block[i] = entries[64 * b + i];
    }
    block
}

/// Returns the port of the attachment of `lid`, or 255 if `lid` has none.
fn own_entry(attachments: &[Option<Attachment>], lid: Lid) -> u8
    requires { lid < length attachments.now }
    ensures { result ≡ attachment_port (slice_index_or attachments.now lid None) }
{
    match attachments[usize::from(lid.number())] {
        Some(attachment) => attachment.port.number(),
        None => NO_ENTRY,
    }
}

/// Returns, for each of `switches` switches, the LIDs that are attached to the switch, in ascending order.
pub(crate) fn lids_by_switch(
    alloc: Global,
    attachments: &[Option<Attachment>],
    switches: usize,
) -> Result<Vec<Vec<Lid>>, AllocError>
    requires few { length attachments.now ≤ 65536 }
    requires within { AreWithin switches attachments.now }
    ensures { IfOk result
        (λ lists. AreLidsAt attachments.now (length attachments.now) switches
        (map (λ lids. lids.items) lists.items)) }
{
    let mut lists = no_lids(alloc, switches)?;
    for lid in 0..attachments.len() {
        if let Some(attachment) = attachments[lid] {
            lists[attachment.switch].push(Lid::new(lid as u16))?;
        }
    }
    Ok(lists)
}

/// Returns `switches` empty lists of LIDs.
fn no_lids(alloc: Global, switches: usize) -> Result<Vec<Vec<Lid>>, AllocError>
    ensures { IfOk result (λ lists. map (λ lids. lids.items) lists.items ≡ replicate switches []) }
{
    let mut lists = Vec::with_capacity(alloc, switches)?;
    for _ in 0..switches {
        lists.push(Vec::new(alloc))?;
    }
    Ok(lists)
}
