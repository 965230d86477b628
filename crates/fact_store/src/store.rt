ghost use Rattle.std.specs.Prelude.{◌≡◌, ◌+◌, ◌*◌, ◌≤◌, [], ◌∷◌, ◌↔◌, OnOk, OnErr, IfOk, IsNone, IfSome};
ghost use Rattle.std.specs.Prelude.{length, max, slice_get, unwrap_or};
ghost use Rattle.fact_store.specs.Comparisons.{CountsSearch, HasDigits, compared_by_walk};
ghost use Rattle.fact_store.specs.View.{IsNewestGeneration, cell_for, cells_of, no_facts, raised, view};
ghost use Rattle.fact_store.specs.View.{view_at, AreInRange};
ghost use Rattle.fact_store.specs.Merge.{merge, IsMerge};
ghost use Rattle.fact_store.specs.Iter.{cells_left};

use crate::cells::{drop_below, merge_cells, put_kept};
use crate::fingers::Fingers;
use crate::iter::Cells;
use crate::search::find;
use fact_join::Cell;
use page_list::PageList;
use reply_facts::{Key, Sighting, Value};
use smp_bytes::Generation;
use std::alloc::{AllocError, Global};
use std::marker::Model;
use thiserror::Error;

/// Why an operation on a store, or on its contents, failed.
#[derive(Clone, Copy, Debug, PartialEq, Eq, Error)]
pub enum Refused {
    /// Memory was refused.
    #[error("out of memory")]
    Memory,
}

impl From<AllocError> for Refused {
    fn from(_: AllocError) -> Self {
        Refused::Memory
    }
}

/// The greatest number of sightings that `add_all` adds one by one. A report has no more sightings than this.
const SIGHTINGS_PER_REPORT: usize = 4;

/// What is known of a subnet: at most one cell for each key. Together the cells are the view, at the store's floor, of
/// all sightings that were put in. Everything below the floor is forgotten for good.
#[derive(Drop)]
pub struct Store {
    /// The least generation that is not forgotten.
    floor: Generation,
    /// The cells with their keys, in the order of keys.
    cells: PageList<Sighting>,
    /// The slots where the next key is looked for first.
    fingers: Fingers,
}

impl Model for Store {
    ghost use Rattle.fact_store.specs.View.{Facts, view_at};
    ghost use Rattle.fact_store.specs.Coded.{facts_code};
    ghost use Rattle.fact_store.specs.Cells.{AreHeld};

    ghost Value = { Facts };

    ghost coded = { facts_code };

    ghost view = { λ a. view_at a.floor a.cells.items };

    ghost invariant = { λ a. AreHeld a.floor a.cells.items };
}

impl Store {
    /// Creates an empty store at floor 1. Does not allocate. Once the store grows, it allocates from `alloc`.
    pub fn new(alloc: Global) -> Self
        ensures { result ≡ no_facts }
    {
        Store {
            floor: Generation::new(1).unwrap(),
            cells: PageList::new(alloc),
            fingers: Fingers::new(),
        }
    }

    /// Returns the least generation that is not forgotten. It is 1 for a new store.
    pub fn floor(&self) -> Generation
        ensures { result ≡ self.now.floor }
    {
        self.floor
    }

    /// Raises the floor to `floor`: forgets all cells below it, and ignores sightings below it from then on. If the
    /// store's floor is not less than `floor`, nothing changes. Otherwise takes time linear in the number of cells.
    /// Does not allocate.
    pub fn raise_floor(&mut self, floor: Generation)
        ensures { self.new ≡ raised self.old floor }
    {
        if self.floor.number() < floor.number() {
            drop_below(&mut self.cells, floor);
            self.floor = floor;
        }
    }

    /// Adds `sighting`, unless it is below the floor. Looks for its key first at the slots where cells of its kind were
    /// put last, and then at the end. This takes at most five comparisons. If the slot for its key is not found there,
    /// does a binary search. If memory runs out, returns an error, and nothing changes.
    pub fn add(&mut self, sighting: Sighting) -> Result<(), Refused>
        ensures ok { OnOk result (self.new ≡ merge self.old (view (sighting ∷ []))) }
        ensures err { OnErr result (self.new ≡ self.old) }
    {
        self.cells.reserve(1)?;
        put_kept(&mut self.cells, &mut self.fingers, self.floor, sighting);
        Ok(())
    }

    /// Adds all `sightings` that are not below the floor. If memory runs out, returns an error, and nothing changes. If
    /// there are more than four sightings, first puts them into a separate store, and then merges that store.
    pub fn add_all(&mut self, sightings: &[Sighting]) -> Result<(), Refused>
        ensures ok { OnOk result (self.new ≡ merge self.old (view sightings.now)) }
        ensures err { OnErr result (self.new ≡ self.old) }
    {
        if sightings.len() > SIGHTINGS_PER_REPORT {
            self.add_many(sightings)
        } else {
            self.add_few(sightings)
        }
    }

    /// Builds a store of `sightings`, and merges it. This is a separate function because a `Store` is large on the
    /// stack and a report has few sightings.
    fn add_many(&mut self, sightings: &[Sighting]) -> Result<(), Refused>
        ensures ok { OnOk result (self.new ≡ merge self.old (view sightings.now)) }
        ensures err { OnErr result (self.new ≡ self.old) }
    {
        let other = store_of(self.cells.allocator(), self.floor, sightings)?;
        self.merge(&other)?;
        Ok(())
    }

    /// Reserves room for all `sightings`, and then adds, one by one, those that are not below the floor.
    fn add_few(&mut self, sightings: &[Sighting]) -> Result<(), Refused>
        ensures ok { OnOk result (self.new ≡ merge self.old (view sightings.now)) }
        ensures err { OnErr result (self.new ≡ self.old) }
    {
        self.cells.reserve(sightings.len())?;
        for sighting in sightings {
            put_kept(&mut self.cells, &mut self.fingers, self.floor, *sighting);
        }
        Ok(())
    }

    /// Adds all cells of `other`, raises the floor to the greater of the two floors, and forgets the cells below it.
    /// Takes time linear in the number of cells of the two stores. If memory runs out, returns an error, and nothing
    /// changes.
    pub fn merge(&mut self, other: &Store) -> Result<(), Refused>
        ensures ok { OnOk result (self.new ≡ merge self.old other.now) }
        ensures least { OnOk result (IsMerge self.old other.now self.new) }
        ensures err { OnErr result (self.new ≡ self.old) }
    {
        self.merge_steps(other)?;
        Ok(())
    }

    /// Merges `other` as `merge` does, and returns the number of comparisons of two keys.
    pub fn merge_steps(&mut self, other: &Store) -> Result<u128, Refused>
        ensures ok { OnOk result (self.new ≡ merge self.old other.now) }
        ensures least { OnOk result (IsMerge self.old other.now self.new) }
        ensures counted { IfOk result (λ steps.
            steps ≡ compared_by_walk (cells_of self.old) (cells_of other.now)) }
        ensures steps { IfOk result (λ steps.
            steps ≤ 2 * (length (cells_of self.old) + length (cells_of other.now))) }
        ensures err { OnErr result (self.new ≡ self.old) }
    {
        let mut steps = 0;
        let mut cells = merge_cells(&self.cells, &other.cells, &mut steps)?;
        let floor = newer(Some(self.floor), other.floor);
        if self.floor != other.floor {
            drop_below(&mut cells, floor);
        }
        *self = Store {
            floor,
            cells,
            fingers: Fingers::new(),
        };
        Ok(steps)
    }

    /// Merges `other` as `merge` does. If this store has no cells, takes over the contents of `other` instead, and does
    /// not allocate. It walks these contents only if the floor of this store is greater than that of `other`.
    pub fn merge_owned(&mut self, other: Store) -> Result<(), Refused>
        ensures ok { OnOk result (self.new ≡ merge self.old other) }
        ensures err { OnErr result (self.new ≡ self.old) }
    {
        if self.cells.len() == 0 {
            let floor = self.floor;
            *self = other;
            self.raise_floor(floor);
            return Ok(());
        }
        self.merge(&other)
    }

    /// Creates an equal store with the same allocator. Returns an error if memory runs out. Takes time linear in the
    /// number of cells.
    pub fn try_clone(&self) -> Result<Store, Refused>
        ensures ok { IfOk result (λ store. store ≡ self.now) }
    {
        let mut store = Store::new(self.cells.allocator());
        store.merge(self)?;
        Ok(store)
    }

    /// Returns the cell of `key`, or `None` if `key` has no cell. Does a binary search.
    pub fn get(&self, key: Key) -> Option<Cell<Value>>
        ensures found { result ≡ cell_for self.now key }
        ensures in_range { AreInRange self.now }
    {
        self.get_steps(key).0
    }

    /// Returns the cell of `key`, or `None` if `key` has no cell, and the number of comparisons of two keys.
    pub fn get_steps(&self, key: Key) -> (Option<Cell<Value>>, u32)
        ensures found { result.0 ≡ cell_for self.now key }
        ensures counted { CountsSearch key (cells_of self.now) result.1 }
        ensures steps { HasDigits (length (cells_of self.now)) result.1 }
        ensures in_range { AreInRange self.now }
    {
        let search = find(&self.cells, &key);
        let cell = match search.found.index {
            Ok(index) => Some(
                self.cells
                    .get_near(index, search.found.near)
                    .unwrap()
                    .cell(),
            ),
            Err(_) => None,
        };
        (cell, search.steps)
    }

    /// Returns the number of keys with a cell. Takes constant time.
    pub fn count(&self) -> usize
        ensures exact { result ≡ length (cells_of self.now) }
        ensures in_range { AreInRange self.now }
    {
        self.cells.len()
    }

    /// Returns the cell at index `i` with its key, or `None` if the store has at most `i` cells. Cells are in the order
    /// of keys, and counted from 0. Does a binary search among the pages.
    pub fn cell(&self, i: usize) -> Option<Sighting>
        ensures exact { result ≡ slice_get (cells_of self.now) i }
        ensures in_range { AreInRange self.now }
    {
        self.cells.get(i)
    }

    /// Returns an iterator over the cells with their keys, in the order of keys.
    pub fn cells(&self) -> Cells<'_>
        ensures cells { cells_left result ≡ cells_of self.now }
        ensures in_range { AreInRange self.now }
    {
        Cells {
            cells: self.cells.iter(),
        }
    }

    /// Returns the newest generation of any cell, or `None` if there is no cell. Takes time linear in the number of
    /// cells.
    pub fn newest(&self) -> Option<Generation>
        ensures none { IsNone result ↔ (cells_of self.now ≡ []) }
        ensures newest { IfSome result (IsNewestGeneration self.now) }
    {
        let mut newest: Option<Generation> = None;
        for sighting in self.cells.iter() {
            newest = Some(newer(newest, sighting.cell().generation()));
        }
        newest
    }
}

/// Returns the newer of `held` and `other`, or `other` if `held` is `None`.
fn newer(held: Option<Generation>, other: Generation) -> Generation
    ensures { result ≡ max (unwrap_or held 0) other }
{
    match held {
        None => other,
        Some(held) => { if held < other { other } else { held } }
    }
}

/// Creates a store at `floor` with those of `sightings` that are not below it. Returns an error if memory runs out.
fn store_of(alloc: Global, floor: Generation, sightings: &[Sighting]) -> Result<Store, Refused>
    ensures { IfOk result (λ store. store ≡ view_at floor sightings.now) }
{
    let mut store = Store::new(alloc);
    store.raise_floor(floor);
    for sighting in sightings {
        store.add(*sighting)?;
    }
    Ok(store)
}
