//! The end ports in the order of `end_ports`, one after another, without allocation.
ghost use Rattle.std.specs.Prelude.{◌≡◌, [], ◌∷◌, Some, MatchOption};
ghost use Rattle.fact_store.specs.View.{cells_of};
ghost use Rattle.subnet_view.specs.EndPort.{comes_before, ports_after};
ghost use Rattle.subnet_view.specs.EndPortAfter.{is_after, is_before, nearer};

use crate::end_port::{EndPort, guid_and_port, sort_key};
use fact_store::Store;
use smp_bytes::Guid;

/// Returns the first end port after `last` in the order of `end_ports`, with its port GUID. If `last` is `None`,
/// returns the first end port of all. Returns `None` if no such end port exists. Walks the cells, with a binary search
/// for each port GUID. Does not allocate.
pub fn next_end_port(store: &Store, last: Option<(Guid, EndPort)>) -> Option<(Guid, EndPort)>
    ensures { MatchOption result (ports_after (cells_of store.now) last ≡ [])
        (λ end. ports_after (cells_of store.now) last
        ≡ end ∷ ports_after (cells_of store.now) (Some end)) }
{
    let mut next = None;
    for sighting in store.cells() {
        if let Some(end) = guid_and_port(store, &sighting) {
            next = nearer(&last, next, end);
        }
    }
    next
}

/// Returns `end` if it comes after `last` and before `next`, and otherwise `next`. `None` sets no bound.
fn nearer(
    last: &Option<(Guid, EndPort)>,
    next: Option<(Guid, EndPort)>,
    end: (Guid, EndPort),
) -> Option<(Guid, EndPort)>
    ensures { result ≡ nearer last.now next end }
{
    if is_after(last, &end) && is_before(&next, &end) {
        Some(end)
    } else {
        next
    }
}

/// Returns whether `end` comes after `last`. Returns `true` if `last` is `None`.
fn is_after(last: &Option<(Guid, EndPort)>, end: &(Guid, EndPort)) -> bool
    ensures { result ≡ is_after last.now end.now }
{
    match last {
        Some(last) => comes_before(last, end),
        None => true,
    }
}

/// Returns whether `end` comes before `next`. Returns `true` if `next` is `None`.
fn is_before(next: &Option<(Guid, EndPort)>, end: &(Guid, EndPort)) -> bool
    ensures { result ≡ is_before next.now end.now }
{
    match next {
        Some(next) => comes_before(end, next),
        None => true,
    }
}

/// Returns whether `a` comes before `b` in the order of end ports.
fn comes_before(a: &(Guid, EndPort), b: &(Guid, EndPort)) -> bool
    ensures { result ≡ comes_before a.now b.now }
{
    sort_key(a).as_slice() < sort_key(b).as_slice()
}
