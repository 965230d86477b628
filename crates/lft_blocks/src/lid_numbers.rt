//! A number for each LID. By these numbers, LIDs take turns among the ports of a switch.
ghost use Rattle.std.specs.Prelude.{◌≡◌, ◌<◌, IfOk, length};
ghost use Rattle.lft_blocks.specs.Attachment.{AreWithin};
ghost use Rattle.lft_blocks.specs.LidNumbers.{indexed_number, indexed_numbers, number_at, numbering_by};

use crate::attachment::Attachment;
use attr_codec::Lmc;
use spread_routes::{SwitchAdapters, leaf_numbers, most_adapters};
use std::alloc::{AllocError, Global};
use std::marker::Model;

/// The values that the numbers of LIDs are computed from.
#[derive(Drop)]
pub(crate) struct Numbering {
    pub(crate) lmc: Lmc,
    /// The leaf number of each switch, in ascending order of GUID.
    pub(crate) leaf_numbers: Vec<u16>,
    /// The greatest number of adapters at any switch.
    pub(crate) most: u16,
}

impl Model for Numbering {
    ghost use Rattle.lft_blocks.specs.LidNumbers.{Numbering};

    ghost Value = { Numbering };

    ghost view = { λ a. record { lmc = a.lmc; leaf_numbers = a.leaf_numbers.items; most = a.most } };
}

/// Returns the values that the numbers of LIDs are computed from.
pub(crate) fn find_numbering(
    alloc: Global,
    given: &SwitchAdapters,
    lmc: Lmc,
) -> Result<Numbering, AllocError>
    ensures { IfOk result (λ numbering. numbering ≡ numbering_by lmc given.now.graph.now given.now.adapters.now) }
{
    let leaf_numbers = leaf_numbers(alloc, given)?;
    Ok(Numbering {
        lmc,
        leaf_numbers,
        most: most_adapters(given.adapters),
    })
}

/// Returns the number of each LID that has an item in `attachments`, or 0 if the LID has no attachment.
pub(crate) fn lid_numbers(
    alloc: Global,
    by: &Numbering,
    attachments: &[Option<Attachment>],
) -> Result<Vec<u16>, AllocError>
    requires { AreWithin (length by.now.leaf_numbers) attachments.now }
    ensures { IfOk result (λ numbers. numbers.items ≡ indexed_numbers by.now attachments.now) }
{
    let mut numbers = Vec::with_capacity(alloc, attachments.len())?;
    for lid in 0..attachments.len() {
        numbers.push(number_of(by, attachments, lid))?;
    }
    Ok(numbers)
}

/// Returns the number of `lid`, or 0 if `lid` has no attachment.
fn number_of(by: &Numbering, attachments: &[Option<Attachment>], lid: usize) -> u16
    requires { AreWithin (length by.now.leaf_numbers) attachments.now }
    ensures { result ≡ indexed_number by.now attachments.now lid }
{
    match attachments.get(lid).copied().flatten() {
        Some(attachment) => number_at(by, attachment, lid),
        None => 0,
    }
}

/// Returns the number of `lid`, whose attachment is `attachment`.
fn number_at(by: &Numbering, attachment: Attachment, lid: usize) -> u16
    requires { attachment.switch < length by.now.leaf_numbers }
    ensures { result ≡ number_at by.now attachment.switch attachment.port lid }
{
    let width = usize::from(by.lmc.width());
    let leaf = usize::from(by.leaf_numbers[attachment.switch]);
    let port = leaf * usize::from(by.most) + usize::from(attachment.port.number());
    ((port * width + lid % width) % 65536) as u16
}
