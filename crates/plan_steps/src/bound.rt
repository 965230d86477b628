ghost use Rattle.std.specs.Prelude.{◌≡◌, ◌-◌, ◌^◌, min};
ghost use Rattle.fact_store.specs.View.{cells_of};
ghost use Rattle.plan_steps.specs.Bound.{most_steps};

use fact_store::Store;
use smp_bytes::Lid;
use subnet_view::usable_guid;

/// The number of LIDs from 0 up to the last unicast one.
const NUMBERS: usize = Lid::UNICAST_END as usize;

/// The number of blocks that `NUMBERS` entries fill.
const BLOCKS: usize = NUMBERS / 64;

/// Returns a bound on the number of steps in a phase of a plan of `store`, or 2^64 - 1 if the bound is greater. The
/// bound holds if every end port finds a LID. Does not allocate.
pub fn most_steps(store: &Store) -> usize
    ensures { result ≡ min (most_steps (cells_of store.now)) (2 ^ 64 - 1) }
{
    let mut most = store.count().saturating_add(NUMBERS);
    for sighting in store.cells() {
        if usable_guid(store, &sighting).is_some() {
            most = most.saturating_add(BLOCKS);
        }
    }
    most
}
