ghost use Rattle.std.specs.Prelude.{◌≡◌, ◌+◌, ◌*◌, ◌<◌, ◌≤◌, ◌^◌, [], ◌∷◌, ◌++◌, IfOk, OnOk, length};
ghost use Rattle.std.specs.Option.{option_to_list};
ghost use Rattle.page_list.specs.Iter.{rest_of};
ghost use Rattle.fact_store.specs.Cells.{AreCells, AreHeld, IsSearched};
ghost use Rattle.fact_store.specs.Comparisons.{compared_by_walk};
ghost use Rattle.fact_store.specs.Merge.{join, merge, merge_maps};
ghost use Rattle.reply_facts.specs.Sighting.{IsSighting};
ghost use Rattle.fact_store.specs.Seen.{seen};
ghost use Rattle.fact_store.specs.View.{view, view_at};
ghost use Rattle.fact_store.specs.Floor.{is_kept, kept};

use crate::fingers::Fingers;
use crate::search::{Found, compare, index_of};
use fact_join::Join;
use page_list::{Iter, PageList, Slot};
use reply_facts::Sighting;
use smp_bytes::Generation;
use std::alloc::AllocError;
use std::cmp::Ordering;

/// Returns the join of the cells `first` and `second`.
fn join_cells(first: &Sighting, second: &Sighting) -> Sighting
    requires { first.now.0 ≡ second.now.0 }
    ensures value { result ≡ (first.now.0, join first.now.1 second.now.1) }
    ensures in_range { IsSighting result }
{
    Sighting::new(first.key(), first.cell().join(&second.cell())).unwrap()
}

/// Adds the cell of `sighting`, joined with the cell of its key if there is one. Notes its slot in `fingers`.
pub(crate) fn put(cells: &mut PageList<Sighting>, fingers: &mut Fingers, sighting: Sighting)
    requires cells { AreCells cells.old.items }
    requires room { 0 < cells.old.room }
    ensures cells { AreCells cells.new.items }
    ensures put { seen cells.new.items ≡ merge_maps (seen cells.old.items) (seen (sighting ∷ [])) }
    ensures room { cells.old.room ≤ cells.new.room + 1 }
{
    let key = sighting.key();
    let found = index_of(cells, &key, fingers);
    let slot = put_found(cells, found, sighting);
    fingers.put(&key, slot);
}

/// Adds the cell of `sighting` at the index of `found`, joined with that of its key if there is one. Returns its slot.
fn put_found(cells: &mut PageList<Sighting>, found: Found, sighting: Sighting) -> Slot
    requires cells { AreCells cells.old.items }
    requires in_range { IsSighting sighting }
    requires found { IsSearched sighting.0 cells.old.items found.index }
    requires room { 0 < cells.old.room }
    ensures cells { AreCells cells.new.items }
    ensures put { seen cells.new.items ≡ merge_maps (seen cells.old.items) (seen (sighting ∷ [])) }
    ensures room { cells.old.room ≤ cells.new.room + 1 }
{
    match found.index {
        Ok(index) => {
            let held = *cells.get_near(index, found.near).unwrap();
            cells.set_near(index, join_cells(&held, &sighting), found.near)
        }
        Err(index) => cells.insert_near(index, sighting, found.near),
    }
}

/// Adds the cell of `sighting` if the cell is at `floor` or above it.
pub(crate) fn put_kept(
    cells: &mut PageList<Sighting>,
    fingers: &mut Fingers,
    floor: Generation,
    sighting: Sighting,
)
    requires cells { AreHeld floor cells.old.items }
    requires room { 0 < cells.old.room }
    ensures cells { AreHeld floor cells.new.items }
    ensures put { view_at floor cells.new.items
        ≡ merge (view_at floor cells.old.items) (view (sighting ∷ [])) }
    ensures room { cells.old.room ≤ cells.new.room + 1 }
{
    if is_at_least(&sighting, floor) {
        put(cells, fingers, sighting);
    }
}

/// Returns the merge of the cells of `first` and `second`, by a walk through both lists at once that passes one key a
/// step. Counts the comparisons of keys in `steps`. Returns an error if memory runs out.
pub(crate) fn merge_cells(
    first: &PageList<Sighting>,
    second: &PageList<Sighting>,
    steps: &mut u128,
) -> Result<PageList<Sighting>, AllocError>
    requires first { AreCells first.now.items }
    requires second { AreCells second.now.items }
    requires steps { steps.old ≡ 0 }
    ensures cells { IfOk result (λ cells. AreCells cells.items) }
    ensures merged { IfOk result (λ cells.
        seen cells.items ≡ merge_maps (seen first.now.items) (seen second.now.items)) }
    ensures counted { IfOk result (λ _.
        steps.new ≡ compared_by_walk first.now.items second.now.items) }
    ensures fewer { steps.new ≤ length first.now.items + length second.now.items }
{
    let mut cells = PageList::new(first.allocator());
    let mut left = first.iter();
    let mut right = second.iter();
    let mut a = left.next();
    let mut b = right.next();
    while let (Some(x), Some(y)) = (a, b) {
        match compare(&x, &y.key(), steps) {
            Ordering::Less => {
                cells.push(x)?;
                a = left.next();
            }
            Ordering::Greater => {
                cells.push(y)?;
                b = right.next();
            }
            Ordering::Equal => {
                cells.push(join_cells(&x, &y))?;
                a = left.next();
                b = right.next();
            }
        }
    }
    append(&mut cells, a, left)?;
    append(&mut cells, b, right)?;
    Ok(cells)
}

/// Appends `first`, unless it is `None`, and then `others`. Returns an error if memory runs out.
fn append(
    cells: &mut PageList<Sighting>,
    first: Option<Sighting>,
    others: Iter<'_, Sighting>,
) -> Result<(), AllocError>
    ensures { OnOk result (cells.new.items ≡ cells.old.items ++ option_to_list first ++ rest_of others.entry) }
{
    if let Some(x) = first {
        cells.push(x)?;
    }
    for x in others {
        cells.push(x)?;
    }
    Ok(())
}

/// Returns whether the cell of `sighting` is at `floor` or above it.
pub(crate) fn is_at_least(sighting: &Sighting, floor: Generation) -> bool
    ensures { result ≡ is_kept floor sighting.now.1 }
{
    floor <= sighting.cell().generation()
}

/// Removes the cells below `floor`. Takes time linear in the number of cells.
pub(crate) fn drop_below(cells: &mut PageList<Sighting>, floor: Generation)
    ensures { cells.new.items ≡ kept floor cells.old.items }
{
    let mut left = 0;
    let mut near = Slot::first();
    for i in 0..cells.len() {
        let sighting = *cells.get_near(i, near).unwrap();
        if is_at_least(&sighting, floor) {
            near = cells.set_near(left, sighting, near);
            left += 1;
        }
    }
    cells.truncate(left);
}
