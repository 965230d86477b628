//! The number of disputed facts.
ghost use Rattle.std.specs.Prelude.{◌≡◌};
ghost use Rattle.fact_store.specs.View.{cells_of};
ghost use Rattle.audit_counts.specs.DisputedFacts.{disputed, is_disputed};

use fact_join::Cell;
use fact_store::{Sighting, Store};

/// Returns the number of disputed facts in `store`. Takes time linear in the number of its cells.
pub fn disputed(store: &Store) -> usize
    ensures { result ≡ disputed (cells_of store.now) }
{
    let mut count = store.count();
    for sighting in store.cells() {
        if !is_disputed(&sighting) {
            count -= 1;
        }
    }
    count
}

/// Returns whether the cell of `sighting` is disputed.
fn is_disputed(sighting: &Sighting) -> bool
    ensures { result ≡ is_disputed sighting.now }
{
    match sighting.cell() {
        Cell::Known(..) => false,
        Cell::Disputed(_) => true,
    }
}
