//! Finds out, without allocating, whether LIDs run out: searches all cells for each next end port.
ghost use Rattle.std.specs.Prelude.{◌≡◌, ◌≤◌, false, replicate};
ghost use Rattle.std.specs.List.{filter_map};
ghost use Rattle.fact_store.specs.View.{cells_of};
ghost use Rattle.lid_assign.specs.Lids.{is_no_room};
ghost use Rattle.lid_assign.specs.Claims.{kept, kept_range, room};
ghost use Rattle.lid_assign.specs.LidMarks.{AreTaken};

use crate::hand_out::{first, take};
use crate::keep_claims::{claim, claims_first, keep};
use crate::lid_marks::width;
use crate::room::room;
use attr_codec::Lmc;
use fact_store::Store;
use smp_bytes::Lid;
use subnet_view::next_end_port;

/// The number of LIDs up to the last unicast LID, including 0.
const NUMBERS: usize = Lid::UNICAST_END as usize;

/// Returns whether some end port finds no LID. The number of walks through the cells is linear in the number of end
/// ports. Does not allocate.
pub(crate) fn runs_out(store: &Store, lmc: Lmc) -> bool
    ensures { result ≡ is_no_room lmc (cells_of store.now) }
{
    runs_out_below::<NUMBERS>(store, lmc, usize::from(room(store)))
}

/// Returns whether some end port finds no LID.
fn runs_out_below<const N: usize>(store: &Store, lmc: Lmc, most: usize) -> bool
    requires room { most ≡ room (cells_of store.now) }
    requires within { most ≤ N }
    requires small { N ≤ 0xC000 }
    ensures { result ≡ is_no_room lmc (cells_of store.now) }
{
    let mut taken = [false; N];
    keep_in_turn(store, lmc, &mut [false; N][..most], &mut taken[..most]);
    runs_out_after(store, lmc, &mut [false; N][..most], &mut taken[..most])
}

/// Marks the ranges of kept claims in `taken`.
fn keep_in_turn(store: &Store, lmc: Lmc, claimed: &mut [bool], taken: &mut [bool])
    requires claimed { claimed.old ≡ replicate (room (cells_of store.now)) false }
    requires taken { taken.old ≡ replicate (room (cells_of store.now)) false }
    ensures { AreTaken (room (cells_of store.now))
        (filter_map (kept_range lmc) (kept lmc (cells_of store.now))) taken.new }
{
    let mut last = None;
    while let Some(end) = next_end_port(store, last) {
        keep(claim(store, end.1), width(lmc, end.1), claimed, taken);
        last = Some(end);
    }
}

/// Returns whether some end port that keeps no claim finds no LID.
fn runs_out_after(store: &Store, lmc: Lmc, claimed: &mut [bool], taken: &mut [bool]) -> bool
    requires claimed { claimed.old ≡ replicate (room (cells_of store.now)) false }
    requires taken { AreTaken (room (cells_of store.now))
        (filter_map (kept_range lmc) (kept lmc (cells_of store.now))) taken.old }
    ensures { result ≡ is_no_room lmc (cells_of store.now) }
{
    let mut next = first(lmc);
    let mut last = None;
    while let Some(end) = next_end_port(store, last) {
        let kept = claims_first(claim(store, end.1), width(lmc, end.1), claimed);
        if kept.is_none() && take(taken, &mut next, lmc, end.1).is_none() {
            return true;
        }
        last = Some(end);
    }
    false
}
