ghost use Rattle.std.specs.Prelude.{◌≡◌, ◌+◌, ◌<◌, ◌≤◌, ◌^◌, IfSome, length, slice_get};
ghost use Rattle.std.specs.Option.{option_map_or};
ghost use Rattle.std.specs.declared.cmp.Ordering.TheVariants.{Greater};
ghost use Rattle.fact_store.specs.Cells.{AreCells, IsSearched};
ghost use Rattle.fact_store.specs.Comparisons.{CountsSearch, HasDigits, IsBudget};
ghost use Rattle.reply_facts.specs.Key.{key_cmp};

use crate::fingers::Fingers;
use page_list::{PageList, Slot};
use reply_facts::{Key, Sighting};
use std::cmp::Ordering;

/// Compares the key of `held` with `key`, and adds 1 to `steps`. A store compares keys only by this function.
pub(crate) fn compare(held: &Sighting, key: &Key, steps: &mut u128) -> Ordering
    requires { steps.old < 2 ^ 127 }
    ensures order { result ≡ key_cmp held.now.0 key.now }
    ensures counted { steps.new ≡ steps.old + 1 }
{
    *steps += 1;
    held.key_cmp(key)
}

/// The result of looking for a key's cell. `index` is `Ok` with the index of the cell. If the key has no cell, `index`
/// is `Err` with the index at which its cell would be inserted.
#[derive(Clone, Copy)]
pub(crate) struct Found {
    pub index: Result<usize, usize>,
    /// The slot at which to look for the index first. It is only a hint.
    pub near: Slot,
}

/// Returns the index of the cell of `key` or, if `key` has no cell, the index at which it would be inserted. Tries the
/// slots of `fingers`, then the end of the list, and then a binary search.
pub(crate) fn index_of(cells: &PageList<Sighting>, key: &Key, fingers: &Fingers) -> Found
    requires { AreCells cells.now.items }
    ensures { IsSearched key.now cells.now.items result.index }
{
    if let Some(found) = found_by_fingers(cells, key, fingers) {
        return found;
    }
    let near = fingers.by_kind(key);
    let len = cells.len();
    if len > 0 {
        if let Ordering::Less = order_at(cells, len - 1, near, key) {
            return Found {
                index: Err(len),
                near,
            };
        }
    }
    find(cells, key).found
}

/// Looks for `key` at the finger (the remembered slot) of its kind, and then at the finger of its GUID's hash, if its
/// kind has such fingers. Returns `None` if neither finger gives the index of `key`.
fn found_by_fingers(cells: &PageList<Sighting>, key: &Key, fingers: &Fingers) -> Option<Found>
    requires { AreCells cells.now.items }
    ensures { IfSome result (λ found. IsSearched key.now cells.now.items found.index) }
{
    match found_at_finger(cells, key, fingers.by_kind(key)) {
        Some(found) => Some(found),
        None => found_at_finger(cells, key, fingers.by_guid(key)?),
    }
}

/// Looks for `key` at `finger` as `index_at_finger` does.
fn found_at_finger(cells: &PageList<Sighting>, key: &Key, finger: Slot) -> Option<Found>
    requires { AreCells cells.now.items }
    ensures { IfSome result (λ found. IsSearched key.now cells.now.items found.index) }
{
    let index = index_at_finger(cells, key, finger)?;
    Some(Found {
        index,
        near: finger,
    })
}

/// Returns `Ok` with the index of the cell of `key` if this cell is the one at `finger` or the next one. Returns `Err`
/// with the index after `finger` if `key` is greater than the key at `finger`, and less than the next key, if there is
/// one. Returns `None` otherwise. Makes at most two comparisons.
fn index_at_finger(
    cells: &PageList<Sighting>,
    key: &Key,
    finger: Slot,
) -> Option<Result<usize, usize>>
    requires { AreCells cells.now.items }
    ensures { IfSome result (IsSearched key.now cells.now.items) }
{
    let index = cells.index_at(finger)?;
    let next = index.checked_add(1)?;
    match order_at(cells, index, finger, key) {
        Ordering::Less => {}
        Ordering::Equal => return Some(Ok(index)),
        Ordering::Greater => return None,
    }
    match order_at(cells, next, finger, key) {
        Ordering::Less => None,
        Ordering::Equal => Some(Ok(next)),
        Ordering::Greater => Some(Err(next)),
    }
}

/// Compares the key of the cell at index `i` with `key`. Looks for the cell on the page of `near` first.
fn order_at(cells: &PageList<Sighting>, i: usize, near: Slot, key: &Key) -> Ordering
    ensures { result ≡ option_map_or (λ s. key_cmp s.0 key.now) (slice_get cells.now.items i) Greater }
{
    match cells.get_near(i, near) {
        Some(held) => compare(held, key, &mut 0),
        None => Ordering::Greater,
    }
}

/// The result of a binary search.
#[derive(Clone, Copy)]
pub(crate) struct SearchResult {
    pub found: Found,
    /// The number of cells whose keys were compared with the wanted key.
    pub steps: u32,
}

/// Searches `cells` for the index of the cell of `key` or, if there is none, the index where it would be inserted.
pub(crate) fn find(cells: &PageList<Sighting>, key: &Key) -> SearchResult
    requires { AreCells cells.now.items }
    ensures index { IsSearched key.now cells.now.items result.found.index }
    ensures counted { CountsSearch key.now cells.now.items result.steps }
    ensures digits { HasDigits (length cells.now.items) result.steps }
{
    let mut steps = 0;
    let mut low = 0;
    let mut high = cells.len();
    let mut most = all_ones(high);
    let mut pages = cells.pages();
    let mut near = Slot::first();
    while low < high {
        most /= 2;
        let split = cells.split(low, high, most, pages);
        near = split.slot;
        match compare(&split.item, key, &mut steps) {
            Ordering::Less => {
                low = split.index + 1;
                pages = split.after;
            }
            Ordering::Greater => {
                high = split.index;
                pages = split.before;
            }
            Ordering::Equal => {
                return SearchResult {
                    found: Found {
                        index: Ok(split.index),
                        near,
                    },
                    steps: steps as u32,
                };
            }
        }
    }
    SearchResult {
        found: Found {
            index: Err(low),
            near,
        },
        steps: steps as u32,
    }
}

/// Returns the least number of the form 2^k - 1 that is at least `n`.
fn all_ones(n: usize) -> usize
    ensures least { IsBudget n 0 result }
    ensures enough { n ≤ result }
{
    let mut ones = 0;
    while ones < n {
        ones = ones * 2 + 1;
    }
    ones
}
