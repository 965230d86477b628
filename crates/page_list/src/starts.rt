ghost use Rattle.std.specs.Prelude.{◌≡◌, ◌+◌, ◌-◌, ◌*◌, ◌<◌, ◌≤◌, ◌^◌, [], ◌∷◌, ◌++◌, OnOk, false, true, ℕ, List};
ghost use Rattle.std.specs.Prelude.{length, map, take, drop, insert, All, slice_index};
ghost use Rattle.std.specs.Vec.{vec_capacity, vec_len};
ghost use Rattle.page_list.specs.Starts.{raised};

use crate::page::insert_within;
use std::alloc::{AllocError, Global};
use std::marker::Model;

/// The number of indices in a group.
const GROUP: usize = 64;

/// The index of each page's first item, from the first page to the last, in groups of 64. Incrementing the indices of
/// a page and of all later pages changes only the indices of that page's group and one number for each later group.
#[derive(Drop)]
pub(crate) struct Starts {
    /// The index of each page's first item, less the number that `added` has for the page's group.
    starts: Vec<usize>,
    /// For each group, the number that is to be added to each index of the group.
    added: Vec<usize>,
}

impl Model for Starts {
    ghost use Rattle.std.specs.Prelude.{ℕ, ◌-◌, ◌*◌, min};
    ghost use Rattle.std.specs.Vec.{vec_capacity, vec_len};
    ghost use Rattle.page_list.specs.Listing.{Listing};
    ghost use Rattle.page_list.specs.Starts.{AreRaised, raised};

    ghost Value = { Listing ℕ };

    ghost view = { λ a. record {
      items = raised a.added.items 0 a.starts.items;
      room = min (vec_capacity a.starts) (64 * vec_len a.added) - vec_len a.starts;
    } };

    ghost invariant = { λ a. AreRaised a.starts a.added };
}

impl Starts {
    /// Creates an empty list with no reserved memory.
    pub(crate) fn new(alloc: Global) -> Self
        ensures { result ≡ record { items = []; room = 0 } }
    {
        Starts {
            starts: Vec::new(alloc),
            added: Vec::new(alloc),
        }
    }

    /// Returns the number of pages.
    pub(crate) fn len(&self) -> usize
        ensures { result ≡ length self.now.items }
    {
        self.starts.len()
    }

    /// Returns the index of the first item of `page`.
    pub(crate) fn at(&self, page: usize) -> usize
        requires { page < length self.now.items }
        ensures { result ≡ slice_index self.now.items page }
    {
        self.starts[page] + self.added[page / GROUP]
    }

    /// Adds 1 to the indices of page `from` and of all later pages. Changes at most the indices of one group, and one
    /// number for each later group.
    pub(crate) fn shift(&mut self, from: usize)
        requires fits { All (λ start. start + 1 < 2 ^ 64) self.old.items }
        ensures items { self.new.items
            ≡ take from self.old.items ++ map (λ start. start + 1) (drop from self.old.items) }
        ensures room { self.new.room ≡ self.old.room }
    {
        let len = self.starts.len();
        if from >= len {
            return;
        }
        let group = from / GROUP;
        let groups = (len - 1) / GROUP + 1;
        let end = if group + 1 < groups {
            (group + 1) * GROUP
        } else {
            len
        };
        count_up(&mut self.starts, from, end);
        count_up(&mut self.added, group + 1, groups);
    }

    /// Inserts `start` as the index of page `page`. Takes time linear in the number of pages and groups.
    pub(crate) fn insert(&mut self, page: usize, start: usize)
        requires page { page ≤ length self.old.items }
        requires room { 0 < self.old.room }
        ensures items { self.new.items ≡ insert self.old.items page start }
        ensures room { self.old.room ≤ self.new.room + 1 }
    {
        settle(&mut self.starts, &mut self.added);
        insert_within(&mut self.starts, page, start);
    }

    /// Appends `start`. Takes constant time if `added` has 0 for the group of the new index. Otherwise takes time
    /// linear in the number of pages and groups.
    pub(crate) fn push(&mut self, start: usize)
        requires room { 0 < self.old.room }
        ensures items { self.new.items ≡ self.old.items ++ start ∷ [] }
        ensures room { self.old.room ≤ self.new.room + 1 }
    {
        let end = self.starts.len();
        if self.added[end / GROUP] > 0 {
            self.insert(end, start);
        } else {
            self.starts.push_reserved(start);
        }
    }

    /// Reserves room for `n` further indices, or returns an error if memory runs out.
    pub(crate) fn reserve(&mut self, n: usize) -> Result<(), AllocError>
        ensures ok { OnOk result (n ≤ self.new.room) }
        ensures room { self.old.room ≤ self.new.room }
        ensures items { self.new.items ≡ self.old.items }
    {
        self.starts.reserve(n)?;
        let groups = (self.starts.len() + n) / GROUP + 1;
        open_groups(&mut self.added, groups)
    }

    /// Keeps the first `n` indices, or all if the list has at most `n`.
    pub(crate) fn truncate(&mut self, n: usize)
        ensures items { self.new.items ≡ take n self.old.items }
        ensures room { self.old.room ≤ self.new.room }
    {
        self.starts.truncate(n);
    }
}

/// Extends `added` to at least `groups` groups, with 0 for each new group. Returns an error if memory runs out.
fn open_groups(added: &mut Vec<usize>, groups: usize) -> Result<(), AllocError>
    ensures ok { OnOk result (groups ≤ vec_len added.new) }
    ensures groups { vec_len added.old ≤ vec_len added.new }
    ensures same { (starts : List ℕ) → raised added.new.items 0 starts ≡ raised added.old.items 0 starts }
{
    if added.len() >= groups {
        return Ok(());
    }
    added.resize(groups, 0)
}

/// Adds 1 to each number at an index from `from` up to, but not including, `until`.
fn count_up(numbers: &mut [usize], from: usize, until: usize)
    requires from { from ≤ until }
    requires until { until ≤ length numbers.old }
    requires fits { All (λ n. n + 1 < 2 ^ 64) (take until numbers.old) }
    ensures { numbers.new ≡ take from numbers.old
        ++ (map (λ n. n + 1) (take (until - from) (drop from numbers.old))
        ++ drop (until - from) (drop from numbers.old)) }
{
    for i in from..until {
        numbers[i] += 1;
    }
}

/// Adds to each index in `numbers` the number of its group in `added`, and then sets the numbers of all groups to 0.
fn settle(numbers: &mut Vec<usize>, added: &mut Vec<usize>)
    requires grouped { length numbers.old.items ≤ 64 * length added.old.items }
    requires fits { All (λ n. n < 2 ^ 64) (raised added.old.items 0 numbers.old.items) }
    ensures sums { numbers.new.items ≡ raised added.old.items 0 numbers.old.items }
    ensures none { (group : ℕ) → slice_index added.new.items group ≡ 0 }
    ensures len { vec_len numbers.new ≡ vec_len numbers.old }
    ensures groups { vec_len added.new ≡ vec_len added.old }
    ensures capacity { vec_capacity numbers.new ≡ vec_capacity numbers.old }
{
    if has_any(added) {
        add_all(numbers, added);
        added.fill(0);
    }
}

/// Returns whether any of `numbers` is not 0.
fn has_any(numbers: &[usize]) -> bool
    ensures { (result ≡ false → (i : ℕ) → slice_index numbers.now i ≡ 0)
        × (result ≡ true → (i : ℕ) × (0 < slice_index numbers.now i)) }
{
    for i in 0..numbers.len() {
        if numbers[i] > 0 {
            return true;
        }
    }
    false
}

/// Adds to the start of each page in `numbers` the number of its group in `added`.
fn add_all(numbers: &mut [usize], added: &[usize])
    requires grouped { length numbers.old ≤ 64 * length added.now }
    requires fits { All (λ n. n < 2 ^ 64) (raised added.now 0 numbers.old) }
    ensures { numbers.new ≡ raised added.now 0 numbers.old }
{
    for i in 0..numbers.len() {
        numbers[i] += added[i / GROUP];
    }
}
