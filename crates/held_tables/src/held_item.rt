ghost use Rattle.std.specs.Prelude.{◌≡◌};

use crate::held::{HeldLid, HeldSwitch};
use attr_codec::Lmc;
use std::marker::Model;

/// The 2^`lmc` consecutive LIDs of an end port, starting with that of `first`. The last LID is at most 49,151.
#[derive(Clone, Copy)]
pub struct HeldRange {
    pub first: HeldLid,
    pub lmc: Lmc,
}

impl Model for HeldRange {
    ghost use Rattle.std.specs.Prelude.{◌+◌, ◌^◌, ◌≤◌};
    ghost use Rattle.held_tables.specs.Held.{LidRange};

    ghost Value = { LidRange };

    ghost view = { λ a. record { first = a.first; lmc = a.lmc } };

    ghost invariant = { λ a. a.first.lid + 2 ^ a.lmc ≤ 0xC000 };

    ghost inverse = { λ r. record { first = r.first; lmc = r.lmc } };
}

/// What a line of a text of tables says.
#[derive(Clone, Copy)]
pub enum HeldItem {
    Nothing,
    Lid(HeldRange),
    Switch(HeldSwitch),
    /// A block of the last switch before the line: its number and its entries.
    Block(u16, [u8; 64]),
}
