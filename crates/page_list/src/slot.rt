ghost use Rattle.std.specs.Prelude.{◌≡◌, ◌+◌, ◌<◌, ◌≤◌, Some, length, slice_get, slice_index};

use crate::starts::Starts;

/// Returns the index of a page that begins at index `at` or before it and whose next page begins after `at`. Takes
/// constant time if it is the last page, and otherwise does a binary search.
pub(crate) fn page_of(starts: &Starts, at: usize) -> usize
    requires { slice_get starts.now.items 0 ≡ Some 0 }
    ensures within { result < length starts.now.items }
    ensures begins { slice_index starts.now.items result ≤ at }
    ensures last { result + 1 < length starts.now.items → at < slice_index starts.now.items (result + 1) }
{
    let mut low = 0;
    let mut high = starts.len();
    if starts.at(high - 1) <= at {
        return high - 1;
    }
    while low + 1 < high {
        let middle = low + (high - low) / 2;
        if starts.at(middle) <= at {
            low = middle;
        } else {
            high = middle;
        }
    }
    low
}

ghost use Rattle.page_list.specs.Pages.{items_of, starts_from, IsSlot};

/// The slot of an item in a list: the item's page, and its index in that page. A slot is only a hint: the list looks
/// there first, but insertions move items.
#[derive(Clone, Copy)]
pub struct Slot {
    pub(crate) page: usize,
    pub(crate) offset: usize,
}

impl Slot {
    /// Returns the slot of the first item.
    pub fn first() -> Self {
        Slot { page: 0, offset: 0 }
    }
}

/// Returns the slot of index `i`.
pub(crate) fn slot_of<T>(pages: &[Vec<T>], starts: &Starts, i: usize) -> Slot
    requires some { 0 < length pages.now }
    requires starts { starts.now.items ≡ starts_from 0 pages.now }
    requires upto { i ≤ length (items_of pages.now) }
    ensures { IsSlot pages.now i result.page result.offset }
{
    let page = page_of(starts, i);
    Slot {
        page,
        offset: i - starts.at(page),
    }
}

/// Returns the slot of index `i` as `slot_of` does, but looks in `page` first.
pub(crate) fn slot_near<T>(pages: &[Vec<T>], starts: &Starts, page: usize, i: usize) -> Slot
    requires some { 0 < length pages.now }
    requires starts { starts.now.items ≡ starts_from 0 pages.now }
    requires upto { i ≤ length (items_of pages.now) }
    ensures { IsSlot pages.now i result.page result.offset }
{
    if page < starts.len() {
        let start = starts.at(page);
        if start <= i && i - start < pages[page].len() {
            return Slot {
                page,
                offset: i - start,
            };
        }
    }
    slot_of(pages, starts, i)
}
