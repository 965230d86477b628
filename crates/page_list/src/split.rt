ghost use Rattle.std.specs.Prelude.{◌≡◌, ◌+◌, ◌*◌, ◌<◌, ◌≤◌, Some, length, slice_get};
ghost use Rattle.page_list.specs.Split.{IsSplit};

use crate::page_list::PageList;
use crate::slot::{Slot, slot_near};

/// The pages that contain a part of a list. A search looks in these pages first. The pages are only a hint: whichever
/// they are, a split leaves at most the required number of items on either side.
#[derive(Clone, Copy)]
pub struct Pages {
    first: usize,
    /// The index of the page after the last of these pages.
    end: usize,
}

impl Pages {
    /// Returns the index of the page in the middle.
    fn middle(self) -> usize {
        self.first + self.end.saturating_sub(self.first) / 2
    }
}

/// An item that splits a part of a list in two, and the pages of each half.
#[derive(Clone, Copy)]
pub struct Split<T> {
    pub index: usize,
    pub item: T,
    /// The slot of the item.
    pub slot: Slot,
    pub before: Pages,
    pub after: Pages,
}

impl<T: Copy> PageList<T> {
    /// Returns the pages of the whole list.
    pub fn pages(&self) -> Pages {
        Pages {
            first: 0,
            end: self.starts.len(),
        }
    }

    /// Returns an item at an index from `low` up to, but not including, `high`. On either side of the item, at most
    /// `most` items of this part are left. The part must end within the list, and must have from 1 to 2 * `most` + 1
    /// items. Prefers the first item of the page in the middle of `pages`, so that searches read the same few items.
    /// Otherwise takes the item in the middle of the part. Does at most a binary search among the pages.
    pub fn split(&self, low: usize, high: usize, most: usize, pages: Pages) -> Split<T>
        requires part { low < high }
        requires within { high ≤ length self.now.items }
        requires halves { high ≤ low + 2 * most + 1 }
        ensures item { slice_get self.now.items result.index ≡ Some result.item }
        ensures index { IsSplit low high most result.index }
    {
        let page = pages.middle();
        let is_page = page < self.starts.len();
        let wished = if is_page { self.starts.at(page) } else { high };
        let index = fair_index(low, high, most, wished);
        let at = slot_near(&self.pages, &self.starts, page, index);
        Split {
            index,
            item: self.pages[at.page][at.offset],
            slot: at,
            before: Pages {
                first: pages.first,
                end: if at.offset == 0 { at.page } else { at.page + 1 },
            },
            after: Pages {
                first: at.page,
                end: pages.end,
            },
        }
    }
}

/// Returns `wished` if it is from `low` up to, but not including, `high`, and at most `most` indices of this part are
/// on either side of it. Otherwise returns the index in the middle of the part.
fn fair_index(low: usize, high: usize, most: usize, wished: usize) -> usize
    requires part { low < high }
    requires halves { high ≤ low + 2 * most + 1 }
    ensures { IsSplit low high most result }
{
    let is_within = low <= wished && wished < high;
    if is_within && wished - low <= most && high - wished - 1 <= most {
        wished
    } else {
        low + (high - low) / 2
    }
}
