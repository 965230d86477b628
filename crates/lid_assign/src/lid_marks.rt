//! Marks on numbers, and the ranges that have marks.
ghost use Rattle.std.specs.Prelude.{◌≡◌, ◌+◌, ◌<◌, ◌≤◌, ◌^◌, Some, length};
ghost use Rattle.lid_assign.specs.Ranges.{fits, lmc_at, width_of};
ghost use Rattle.lid_assign.specs.LidMarks.{any_marked, from_on, AreMarkedMore};

use attr_codec::Lmc;
use subnet_view::EndPort;

/// Returns the LMC of `port`: 0 if `port` is port 0 of a switch, and otherwise `lmc`.
pub(crate) fn lmc_at(lmc: Lmc, port: EndPort) -> Lmc
    ensures { result ≡ lmc_at lmc port }
{
    if port.port.number() == 0 {
        Lmc::ZERO
    } else {
        lmc
    }
}

/// Returns the number of LIDs of `port` if the subnet has the LMC `lmc`: from 1 to 128.
pub(crate) fn width(lmc: Lmc, port: EndPort) -> usize
    ensures value { result ≡ width_of lmc port }
    ensures some { 1 ≤ result }
    ensures few { result ≤ 128 }
{
    usize::from(lmc_at(lmc, port).width())
}

/// Returns whether the range of `width` numbers that begins at `first` fits below `room`.
pub(crate) fn fits(room: usize, first: usize, width: usize) -> bool
    requires first { first < 2 ^ 16 }
    requires some { 1 ≤ width }
    requires few { width ≤ 128 }
    ensures { result ≡ fits room (from_on width first) }
{
    1 <= first && first % width == 0 && first + width <= room
}

/// Returns whether any of the `width` numbers that begin at `first` is marked.
pub(crate) fn any_marked(marks: &[bool], first: usize, width: usize) -> bool
    requires { first + width ≤ length marks.now }
    ensures { result ≡ any_marked marks.now (from_on width first) }
{
    for n in first..first + width {
        if marks[n] {
            return true;
        }
    }
    false
}

/// Marks the `width` numbers that begin at `first`.
pub(crate) fn mark(marks: &mut [bool], first: usize, width: usize)
    requires { first + width ≤ length marks.old }
    ensures { AreMarkedMore (Some (from_on width first)) marks.old marks.new }
{
    for n in first..first + width {
        marks[n] = true;
    }
}
