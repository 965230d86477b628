//! The end ports whose packets may lack a service level, for 64 LIDs at a time.
ghost use Rattle.std.specs.Prelude.{◌≡◌, IfOk};
ghost use Rattle.audit_run.specs.LevelRow.{IsRow, gives_each, is_full, row_of, sender_at};

use audit_counts::Site;
use lanes_file::{Lanes, LevelBlock};
use std::alloc::{AllocError, Global};

/// The first number above all service levels.
const LEVEL_END: u8 = 16;

/// An end port, and the service levels of its packets to 64 LIDs.
#[derive(Clone, Copy, Debug, PartialEq, Eq)]
pub(crate) struct RowSender {
    pub site: Site,
    /// The block of levels for these LIDs, or `None` if the LANES text has no such block.
    pub block: Option<LevelBlock>,
}

/// The end ports whose packets may lack a service level for one of 64 LIDs in a row.
#[derive(Drop)]
pub(crate) struct LevelRow {
    /// The number of the block of LIDs: 64 consecutive LIDs, starting with 64 times this number.
    pub number: u16,
    /// The end ports that have no block with a level for each of these LIDs, in the order of the sites.
    pub senders: Vec<RowSender>,
}

impl LevelRow {
    /// Returns the row of `sites` for the 64 LIDs of block `number`. Does a binary search in `lanes` for each site.
    pub(crate) fn of(
        alloc: Global,
        lanes: &Lanes,
        sites: &[Site],
        number: u16,
    ) -> Result<Self, AllocError>
        ensures senders { IfOk result (λ row. IsRow lanes.now sites.now row.number row.senders.items) }
        ensures number { IfOk result (λ row. row.number ≡ number) }
    {
        let senders = senders_of(alloc, lanes, sites, number)?;
        Ok(LevelRow { number, senders })
    }

    /// Returns the row of `sites` for the block `number`. Takes constant time if `self` has this number already.
    pub(crate) fn turned_to(
        self,
        alloc: Global,
        lanes: &Lanes,
        sites: &[Site],
        number: u16,
    ) -> Result<Self, AllocError>
        requires { IsRow lanes.now sites.now self.number self.senders.items }
        ensures senders { IfOk result (λ row. IsRow lanes.now sites.now row.number row.senders.items) }
        ensures number { IfOk result (λ row. row.number ≡ number) }
    {
        if self.number == number {
            Ok(self)
        } else {
            LevelRow::of(alloc, lanes, sites, number)
        }
    }
}

/// Returns those of `sites` without a level by `lanes` for some LID of the block `number`, with their blocks, if any.
fn senders_of(
    alloc: Global,
    lanes: &Lanes,
    sites: &[Site],
    number: u16,
) -> Result<Vec<RowSender>, AllocError>
    ensures { IfOk result (λ senders. senders.items ≡ row_of lanes.now sites.now number) }
{
    sites
        .iter()
        .map(|site| sender_at(lanes, number, site))
        .filter(|sender| !is_full(&sender.block))
        .collect(alloc)
}

/// Returns `site` with its block `number` in `lanes`, or with `None` if `lanes` has no such block.
fn sender_at(lanes: &Lanes, number: u16, site: &Site) -> RowSender
    ensures { result ≡ sender_at lanes.now number site.now }
{
    RowSender {
        site: *site,
        block: lanes.block(site.port.node, site.port.port, number).copied(),
    }
}

/// Returns whether each byte of `block` is a service level. Returns false if `block` is `None`.
fn is_full(block: &Option<LevelBlock>) -> bool
    ensures { result ≡ is_full block.now }
{
    match block {
        Some(block) => gives_each(block),
        None => false,
    }
}

/// Returns whether each byte of `block` is a service level.
fn gives_each(block: &LevelBlock) -> bool
    ensures { result ≡ gives_each block.now }
{
    (0..64).all(|index| block.levels[index] < LEVEL_END)
}
