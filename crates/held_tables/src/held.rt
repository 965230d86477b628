ghost use Rattle.std.specs.Prelude.{◌≡◌, ◌<◌, ◌++◌, IfOk, OnOk};
ghost use Rattle.held_tables.specs.Held.{lids_of, nothing_held};
ghost use Rattle.held_tables.specs.HeldItem.{held_with};

use crate::held_item::{HeldItem, HeldRange};
use attr_codec::Lmc;
use smp_bytes::{Guid, Lid};
use std::alloc::{AllocError, Global};
use std::marker::Model;
use subnet_view::EndPort;

/// A LID and an end port that holds it.
#[derive(Clone, Copy, Debug, PartialEq, Eq)]
pub struct HeldLid {
    /// The LID, from 1 to 49,151 in the tables of a text or a plan.
    pub lid: Lid,
    /// The end port that holds the LID. Its port number is at most 254 in the tables of a text or a plan.
    pub port: EndPort,
}

/// A switch with the top of its forwarding table: the greatest LID for which it uses the table.
#[derive(Clone, Copy, Debug, PartialEq, Eq)]
pub struct HeldSwitch {
    pub guid: Guid,
    /// The top, at most 49,151 in the tables of a text or a plan.
    pub top: Lid,
}

/// A block of a switch's forwarding table.
#[derive(Clone, Copy, Debug, PartialEq, Eq)]
pub struct HeldBlock {
    /// The index of the block's switch among the held switches.
    pub switch: usize,
    /// The number of the block, at most 767 in the tables of a text or a plan. The block has the entries for 64
    /// consecutive LIDs, starting with 64 times this number.
    pub number: u16,
    /// For each of the 64 LIDs, in ascending order, the outgoing port, or 255 if there is none.
    pub entries: [u8; 64],
}

/// Tables, as a text of tables or a plan gives them: the LIDs that end ports hold, and the forwarding tables of
/// switches.
#[derive(Drop)]
pub struct Held {
    lids: Vec<HeldLid>,
    switches: Vec<HeldSwitch>,
    blocks: Vec<HeldBlock>,
}

impl Model for Held {
    ghost use Rattle.held_tables.specs.Held.{HeldPlan};

    ghost Value = { HeldPlan };

    ghost view = { λ a. record {
      lids = a.lids.items;
      switches = a.switches.items;
      blocks = a.blocks.items;
    } };
}

impl Held {
    /// Returns empty tables, without any LID or switch.
    pub fn new(alloc: Global) -> Self
        ensures { result ≡ nothing_held }
    {
        Held {
            lids: Vec::new(alloc),
            switches: Vec::new(alloc),
            blocks: Vec::new(alloc),
        }
    }

    /// Builds tables from `lids`, which are LIDs with the end ports that hold them, and from switches and blocks.
    pub fn of(lids: Vec<HeldLid>, switches: Vec<HeldSwitch>, blocks: Vec<HeldBlock>) -> Self
        ensures { result ≡ record { lids = lids.items; switches = switches.items; blocks = blocks.items } }
    {
        Held {
            lids,
            switches,
            blocks,
        }
    }

    /// Returns the LIDs, each with an end port that holds it, in the order of their lines.
    pub fn lids(&self) -> &[HeldLid]
        ensures { result.now ≡ self.now.lids }
    {
        &self.lids
    }

    /// Returns the switches in the order of their lines, which is in ascending order of GUID in the tables of a text or
    /// a plan.
    pub fn switches(&self) -> &[HeldSwitch]
        ensures { result.now ≡ self.now.switches }
    {
        &self.switches
    }

    /// Returns the blocks in the order of their lines.
    pub fn blocks(&self) -> &[HeldBlock]
        ensures { result.now ≡ self.now.blocks }
    {
        &self.blocks
    }

    /// Returns the tables with one more line, which says `item`. A block belongs to the last switch before its line,
    /// or has the switch index 0 if there is no switch before it.
    pub fn with(self, item: HeldItem) -> Result<Self, AllocError>
        ensures { IfOk result (λ held. held ≡ held_with self item) }
    {
        let Held {
            mut lids,
            mut switches,
            mut blocks,
        } = self;
        match item {
            HeldItem::Nothing => {}
            HeldItem::Lid(range) => push_range(&mut lids, range)?,
            HeldItem::Switch(switch) => switches.push(switch)?,
            HeldItem::Block(number, entries) => {
                let switch = switches.len().saturating_sub(1);
                blocks.push(HeldBlock {
                    switch,
                    number,
                    entries,
                })?
            }
        }
        Ok(Held {
            lids,
            switches,
            blocks,
        })
    }
}

/// Appends the LIDs of `range` to `lids`, each with the end port that holds it.
fn push_range(lids: &mut Vec<HeldLid>, range: HeldRange) -> Result<(), AllocError>
    ensures { OnOk result (lids.new.items ≡ lids.old.items ++ lids_of range) }
{
    let HeldRange { first, lmc } = range;
    push_lids(lids, &first, lmc)
}

/// Appends to `lids` 2^`lmc` consecutive LIDs, starting with that of `first`, each with the end port of `first`.
/// The LID of `first` must be below 49,152.
pub fn push_lids(lids: &mut Vec<HeldLid>, first: &HeldLid, lmc: Lmc) -> Result<(), AllocError>
    requires { first.now.lid < 0xC000 }
    ensures { OnOk result (lids.new.items
        ≡ lids.old.items ++ lids_of (record { first = first.now; lmc = lmc })) }
{
    for step in 0..lmc.width() {
        lids.push(HeldLid {
            lid: Lid::new(first.lid.number() + step),
            port: first.port,
        })?;
    }
    Ok(())
}
