ghost use Rattle.std.specs.Prelude.{◌≡◌, ◌≤◌, ◌<◌, length, map, IfOk};
ghost use Rattle.std.specs.List.{range_with_len};
ghost use Rattle.lft_blocks.specs.Entries.{block_count};
ghost use Rattle.lft_blocks.specs.Attachment.{AreWithin, entry_in, block_in};

use crate::attachment::Attachment;
use smp_bytes::{Lid, NO_ENTRY};
use std::alloc::{AllocError, Global};

/// Returns the number of blocks that are needed for all LIDs up to `top`, or 0 if `top` is `None`.
pub fn block_count(top: Option<Lid>) -> usize
    ensures count { result ≡ block_count top }
    ensures few { result ≤ 1024 }
{
    match top {
        Some(top) => usize::from(top.block()) + 1,
        None => 0,
    }
}

/// Returns the first `count` blocks of the switch at the index `own`, whose ports towards switches are `row`.
pub(crate) fn blocks(
    alloc: Global,
    attachments: &[Option<Attachment>],
    row: &[u8],
    own: usize,
    count: usize,
) -> Result<Vec<[u8; 64]>, AllocError>
    requires within { AreWithin (length row.now) attachments.now }
    requires few { count ≤ 1024 }
    ensures { IfOk result (λ blocks.
        blocks.items ≡ map (block_in attachments.now row.now own) (range_with_len 0 count)) }
{
    let mut blocks = Vec::with_capacity(alloc, count)?;
    for b in 0..count {
        blocks.push(block(attachments, row, own, b))?;
    }
    Ok(blocks)
}

/// Returns block `b` of the switch at the index `own`, whose ports towards switches are `row`.
fn block(attachments: &[Option<Attachment>], row: &[u8], own: usize, b: usize) -> [u8; 64]
    requires within { AreWithin (length row.now) attachments.now }
    requires few { b < 1024 }
    ensures { result ≡ block_in attachments.now row.now own b }
{
    let mut block = [NO_ENTRY; 64];
    for i in 0..64 {
        block[i] = entry(attachments, row, own, 64 * b + i);
    }
    block
}

/// Returns the entry for `lid` of the switch at the index `own`, whose ports towards switches are `row`.
fn entry(attachments: &[Option<Attachment>], row: &[u8], own: usize, lid: usize) -> u8
    requires { AreWithin (length row.now) attachments.now }
    ensures { result ≡ entry_in attachments.now row.now own lid }
{
    match attachments.get(lid).copied().flatten() {
        Some(attachment) if attachment.switch == own => attachment.port.number(),
        Some(attachment) => row[attachment.switch],
        None => NO_ENTRY,
    }
}
