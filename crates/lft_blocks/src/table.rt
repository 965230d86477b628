ghost use Rattle.std.specs.Prelude.{◌≡◌, ◌≤◌, length, slice_get};
ghost use Rattle.std.specs.Option.{option_copied};

use crate::block::blocks;
use smp_bytes::Guid;
use std::marker::Model;

/// The forwarding table of a switch, in blocks of 64 entries. A table has at most 1024 blocks, which is enough for all
/// LIDs that a packet can name.
#[derive(Drop)]
pub struct Table {
    pub(crate) guid: Guid,
    pub(crate) blocks: Vec<[u8; 64]>,
}

impl Model for Table {
    ghost use Rattle.std.specs.Prelude.{◌≤◌, length};
    ghost use Rattle.lft_blocks.specs.Plan.{SwitchTable};

    ghost Value = { SwitchTable };

    ghost view = { λ a. record { guid = a.guid; blocks = a.blocks.items } };

    ghost invariant = { λ a. length a.blocks.items ≤ 1024 };
}

impl Table {
    /// Creates the table of the switch `guid` with `blocks`.
    pub(crate) fn new(guid: Guid, blocks: Vec<[u8; 64]>) -> Self
        requires { length blocks.items ≤ 1024 }
        ensures { result ≡ record { guid = guid; blocks = blocks.items } }
    {
        Table { guid, blocks }
    }

    /// Returns the GUID of the switch.
    pub fn guid(&self) -> Guid
        ensures { result ≡ self.now.guid }
    {
        self.guid
    }

    /// Returns block `b`, or `None` if `b` is past the last block.
    pub(crate) fn block(&self, b: usize) -> Option<&[u8; 64]>
        ensures { option_copied result ≡ slice_get self.now.blocks b }
    {
        self.blocks.get(b)
    }

    /// Returns the blocks, starting at block 0.
    pub fn blocks(&self) -> &[[u8; 64]]
        ensures blocks { result.now ≡ self.now.blocks }
        ensures few { length result.now ≤ 1024 }
    {
        &self.blocks
    }
}
