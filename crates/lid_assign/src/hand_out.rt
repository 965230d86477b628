ghost use Rattle.std.specs.Prelude.{◌≡◌, ◌+◌, ◌<◌, ◌≤◌, ◌^◌, length, option_map, IfOk, MatchOption};
ghost use Rattle.std.specs.List.{filter_map};
ghost use Rattle.lid_assign.specs.Lids.{hand_out};
ghost use Rattle.lid_assign.specs.Claims.{kept_range};
ghost use Rattle.lid_assign.specs.Ranges.{width_of};
ghost use Rattle.lid_assign.specs.LidMarks.{from_on, AreMarkedMore, ArePassed, AreTaken, IsFound, IsLeastUnmarked};
ghost use Rattle.lid_assign.specs.LidMarks.{IsPassed, NoneUnmarked};

use crate::lid_marks::{any_marked, mark};
use attr_codec::Lmc;
use smp_bytes::Lid;
use std::alloc::{AllocError, Global};
use subnet_view::EndPort;

/// The next number to try for switches, and the next for adapter ports. A range is open if it fits and has no number
/// that is taken. No open range of a switch begins below `switch`, and no open range of an adapter port begins below
/// `adapter`.
#[derive(Clone, Copy)]
pub(crate) struct Next {
    switch: usize,
    adapter: usize,
}

/// Returns the end ports of `keepers`, in their order, each with the claim that it keeps, or else the least LID whose
/// range fits and has no number that is taken, or `None` if some end port finds none. `taken` is as long as the room.
pub(crate) fn hand_out(
    alloc: Global,
    lmc: Lmc,
    keepers: &[(EndPort, Option<Lid>)],
    taken: &mut [bool],
) -> Result<Option<Vec<(EndPort, Lid)>>, AllocError>
    requires room { length taken.old ≤ 0xC000 }
    requires taken { AreTaken (length taken.old) (filter_map (kept_range lmc) keepers.now) taken.old }
    ensures { IfOk result (IsFound (λ given. given.items)
        (hand_out (length taken.old) lmc (filter_map (kept_range lmc) keepers.now) keepers.now)) }
{
    let mut given = Vec::with_capacity(alloc, keepers.len())?;
    let mut next = first(lmc);
    for (port, lid) in keepers {
        let lid = match lid {
            Some(lid) => *lid,
            None => match take(taken, &mut next, lmc, *port) {
                Some(lid) => lid,
                None => return Ok(None),
            },
        };
        given.push((*port, lid))?;
    }
    Ok(Some(given))
}

/// Returns the first numbers to try: 1 for switches, and 2^`lmc` for adapter ports.
pub(crate) fn first(lmc: Lmc) -> Next
    ensures { result ≡ record { switch = 1; adapter = 2 ^ lmc } }
{
    Next {
        switch: 1,
        adapter: usize::from(lmc.width()),
    }
}

/// Returns the least number where a range as wide as that of `port` is open, if any, and marks it in `taken`.
pub(crate) fn take(taken: &mut [bool], next: &mut Next, lmc: Lmc, port: EndPort) -> Option<Lid>
    requires room { length taken.old ≤ 0xC000 }
    requires passed { ArePassed lmc taken.old next.old }
    ensures found { MatchOption result
        (NoneUnmarked taken.old (width_of lmc port) 0 (length taken.old))
        (IsLeastUnmarked taken.old (width_of lmc port) 0) }
    ensures marked { AreMarkedMore
        (option_map (from_on (width_of lmc port)) result) taken.old taken.new }
    ensures passed { ArePassed lmc taken.new next.new }
{
    if port.port.number() == 0 {
        take_from(taken, &mut next.switch, 1)
    } else {
        take_from(taken, &mut next.adapter, usize::from(lmc.width()))
    }
}

/// Returns the least number from which a range of `width` numbers is open, if any, and marks the range in `taken`.
fn take_from(taken: &mut [bool], next: &mut usize, width: usize) -> Option<Lid>
    requires some { 1 ≤ width }
    requires few { width ≤ 128 }
    requires room { length taken.old ≤ 0xC000 }
    requires passed { IsPassed taken.old width next.old }
    ensures found { MatchOption result
        (NoneUnmarked taken.old width 0 (length taken.old)) (IsLeastUnmarked taken.old width 0) }
    ensures marked { AreMarkedMore (option_map (from_on width) result) taken.old taken.new }
    ensures passed { IsPassed taken.new width next.new }
{
    let first = least_unmarked(taken, *next, width)?;
    mark(taken, first, width);
    *next = first + width;
    Some(Lid::new(first as u16))
}

/// Returns the least number from `next` on whose range of `width` numbers fits and has no mark, or `None`.
fn least_unmarked(marks: &[bool], mut next: usize, width: usize) -> Option<usize>
    requires some { 1 ≤ width }
    requires few { width ≤ 128 }
    requires room { length marks.now ≤ 0xC000 }
    requires passed { IsPassed marks.now width next }
    ensures { MatchOption result (NoneUnmarked marks.now width next (length marks.now))
        (IsLeastUnmarked marks.now width next) }
{
    while next + width <= marks.len() {
        if !any_marked(marks, next, width) {
            return Some(next);
        }
        next += width;
    }
    None
}
