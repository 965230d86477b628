ghost use Rattle.std.specs.Prelude.{◌≡◌, ◌+◌, ◌^◌, ◌<◌, ◌≤◌, [], ◌∷◌, ◌++◌, OnOk, OnErr, IfOk, IfSome, length};
ghost use Rattle.std.specs.Prelude.{option_copied, slice_get, slice_set, take, drop, insert};
ghost use Rattle.page_list.specs.Iter.{rest_of};
ghost use Rattle.page_list.specs.Listing.{Listing};

use crate::iter::Iter;
use crate::page::{PAGE, fill, insert_halved, insert_within};
use crate::slot::{Slot, slot_near, slot_of};
use crate::starts::Starts;
use std::alloc::{AllocError, Global};
use std::marker::Model;

/// A list in pages of at most 256 items each. Contracts see the items, and the number of further items for which there
/// is room.
#[derive(Drop)]
pub struct PageList<T> {
    /// The pages that have the items, in the order of the list.
    pub(crate) pages: Vec<Vec<T>>,
    /// The index of each page's first item.
    pub(crate) starts: Starts,
    /// Empty pages, each with room for `PAGE` items.
    spare: Vec<Vec<T>>,
    /// The number of items.
    len: usize,
    /// The number of further items for which memory is reserved.
    room: usize,
}

impl<T> Model for PageList<T> {
    ghost use Rattle.std.specs.Prelude.{length};
    ghost use Rattle.page_list.specs.Listing.{Listing};
    ghost use Rattle.page_list.specs.Pages.{ArePages, items_of};

    ghost Value = { Listing T };

    ghost view = { λ a. record { items = items_of a.pages.items; room = a.room } };

    ghost invariant = { λ a. ArePages a.pages a.starts a.spare a.len a.room };
}

impl<T: Copy> PageList<T> {
    /// Creates an empty list. The list later allocates from `alloc`.
    pub fn new(alloc: Global) -> Self
        ensures { result ≡ record { items = []; room = 0 } }
    {
        PageList {
            pages: Vec::new(alloc),
            starts: Starts::new(alloc),
            spare: Vec::new(alloc),
            len: 0,
            room: 0,
        }
    }

    /// Returns the allocator that the list was created with.
    pub fn allocator(&self) -> Global {
        *self.pages.allocator()
    }

    /// Returns the number of items.
    pub fn len(&self) -> usize
        ensures { result ≡ length self.now.items }
    {
        self.len
    }

    /// Returns the item at index `i`, or `None` if `i` is not an index of the list. Takes constant time if the first or
    /// the last page contains the item. Otherwise does a binary search among the pages.
    pub fn get(&self, i: usize) -> Option<T>
        ensures { result ≡ slice_get self.now.items i }
    {
        self.get_near(i, Slot::first()).copied()
    }

    /// Returns the item at index `i`, or `None` if `i` is not an index of the list. Takes constant time if the page of
    /// `near` or the last page contains the item. Otherwise does a binary search among the pages.
    pub fn get_near(&self, i: usize, near: Slot) -> Option<&T>
        ensures { option_copied result ≡ slice_get self.now.items i }
    {
        if i >= self.len {
            return None;
        }
        let at = slot_near(&self.pages, &self.starts, near.page, i);
        Some(&self.pages[at.page][at.offset])
    }

    /// Returns the index that `slot` stands for, or `None` if the list does not have this page or this index. Takes
    /// constant time.
    pub fn index_at(&self, slot: Slot) -> Option<usize>
        ensures { IfSome result (λ i. i < length self.now.items) }
    {
        if slot.page >= self.starts.len() {
            return None;
        }
        let index = self.starts.at(slot.page).checked_add(slot.offset)?;
        if index < self.len { Some(index) } else { None }
    }

    /// Returns an iterator over the items, from the first to the last.
    pub fn iter(&self) -> Iter<'_, T>
        ensures items { rest_of result ≡ self.now.items }
        ensures countable { length self.now.items < 2 ^ 64 }
    {
        Iter {
            page: &[],
            later: &self.pages,
        }
    }

    /// Replaces the item at index `i` with `item`, and returns the slot of `item`. The list must have an item at index
    /// `i`. Takes constant time if the page of `near` or the last page contains this index. Otherwise does a binary
    /// search among the pages.
    pub fn set_near(&mut self, i: usize, item: T, near: Slot) -> Slot
        requires { i < length self.old.items }
        ensures items { self.new.items ≡ slice_set self.old.items i item }
        ensures room { self.new.room ≡ self.old.room }
    {
        let at = slot_near(&self.pages, &self.starts, near.page, i);
        self.pages[at.page][at.offset] = item;
        at
    }

    /// Inserts `item` at index `i`, before the item that was at `i`, or at the end. `i` must be at most the length of
    /// the list, and the list must have room for one more item.
    pub fn insert(&mut self, i: usize, item: T)
        requires index { i ≤ length self.old.items }
        requires room { 0 < self.old.room }
        ensures items { self.new.items ≡ insert self.old.items i item }
        ensures room { self.old.room ≡ self.new.room + 1 }
    {
        self.insert_near(i, item, Slot::first());
    }

    /// Inserts `item` at index `i`, before the item that was at `i`, or at the end, and returns the slot of `item`. `i`
    /// must be at most the length of the list, and the list must have room for one more item. Looks for the page of
    /// index `i` first in the page of `near`. Moves the later items of the page that has index `i`. Increments the
    /// start indices of at most 64 pages, and one number for each later group of 64. If the page is full, halves it,
    /// which takes time linear in the number of pages.
    pub fn insert_near(&mut self, i: usize, item: T, near: Slot) -> Slot
        requires index { i ≤ length self.old.items }
        requires room { 0 < self.old.room }
        ensures items { self.new.items ≡ insert self.old.items i item }
        ensures room { self.old.room ≡ self.new.room + 1 }
    {
        if self.pages.is_empty() {
            self.open(item);
            return Slot::first();
        }
        let at = slot_near(&self.pages, &self.starts, near.page, i);
        self.starts.shift(at.page + 1);
        self.len += 1;
        self.room -= 1;
        if self.pages[at.page].len() < PAGE {
            insert_within(&mut self.pages[at.page], at.offset, item);
            return at;
        }
        let mut tail = self.spare.take_last();
        let head = insert_halved(&mut self.pages[at.page], &mut tail, at.offset, item);
        self.starts.insert(at.page + 1, i - at.offset + head);
        insert_within(&mut self.pages, at.page + 1, tail);
        slot_in_halves(at)
    }

    /// Reserves memory for `n` further items, each of which may need a page of its own. Returns an error if memory runs
    /// out, or if the length of the list plus `n` is over `usize::MAX`. After an error, the list has no less room than
    /// before.
    pub fn reserve(&mut self, n: usize) -> Result<(), AllocError>
        ensures ok { OnOk result (n ≤ self.new.room) }
        ensures room { self.old.room ≤ self.new.room }
        ensures items { self.new.items ≡ self.old.items }
    {
        if n <= self.room {
            return Ok(());
        }
        if n > usize::MAX - self.len {
            return Err(AllocError);
        }
        let wanted = n.max(self.spare.len());
        self.pages.reserve(wanted)?;
        self.starts.reserve(wanted)?;
        fill(&mut self.spare, *self.pages.allocator(), n)?;
        self.room = n;
        Ok(())
    }

    /// Keeps the first `n` items, and frees the pages after the page of index `n`. Changes nothing if the list has at
    /// most `n` items.
    pub fn truncate(&mut self, n: usize)
        ensures items { self.new.items ≡ take n self.old.items }
        ensures room { self.new.room ≡ self.old.room }
    {
        if n >= self.len {
            return;
        }
        let at = slot_of(&self.pages, &self.starts, n);
        self.pages[at.page].truncate(at.offset);
        self.pages.truncate(at.page + 1);
        self.starts.truncate(at.page + 1);
        self.len = n;
    }

    /// Appends `item`. Opens a new page if the list has no page, or if the last page is at least three quarters full.
    /// Returns an error if memory runs out, or if the list has `usize::MAX` items. After an error, the items are
    /// unchanged.
    pub fn push(&mut self, item: T) -> Result<(), AllocError>
        ensures ok { OnOk result (self.new.items ≡ self.old.items ++ item ∷ []) }
        ensures err { OnErr result (self.new.items ≡ self.old.items) }
    {
        self.reserve(1)?;
        let has_room = match self.pages.last() {
            Some(page) => page.len() < PAGE / 4 * 3,
            None => false,
        };
        if has_room {
            let end = self.len;
            self.insert(end, item);
        } else {
            self.open(item);
        }
        Ok(())
    }

    /// Appends a new page whose only item is `item`.
    fn open(&mut self, item: T)
        requires room { 0 < self.old.room }
        ensures items { self.new.items ≡ self.old.items ++ item ∷ [] }
        ensures room { self.old.room ≡ self.new.room + 1 }
    {
        let mut page = self.spare.take_last();
        page.push_reserved(item);
        self.pages.push_reserved(page);
        self.starts.push(self.len);
        self.len += 1;
        self.room -= 1;
    }
}

/// Returns where an item that was inserted at `at` into a full page is after the page was halved.
fn slot_in_halves(at: Slot) -> Slot
    ensures first { at.offset ≤ 128 → result ≡ at }
    ensures page { 128 < at.offset → at.page + 1 < 2 ^ 64 → result.page ≡ at.page + 1 }
    ensures offset { 128 < at.offset → result.offset + 128 ≡ at.offset }
{
    if at.offset <= PAGE / 2 {
        return at;
    }
    Slot {
        page: at.page.saturating_add(1),
        offset: at.offset - PAGE / 2,
    }
}
