//! Where the held tables bring packets for a LID, for both rules of next tables.
ghost use Rattle.std.specs.Prelude.{◌≡◌, IfOk, ◌<◌, false, map};
ghost use Rattle.next_tables.specs.SettledEntries.{arrives_by, hops_of};
ghost use Rattle.next_tables.specs.OrderedEntries.{delivered_of, flag, leads_in};

use packet_walks::ends_by_switch::{end_of, ends, onward};
use packet_walks::{NextHop, SwitchStep, is_at};
use std::alloc::{AllocError, Global};
use subnet_view::EndPort;

/// Returns the next hop of each of `steps`.
pub(crate) fn hops(alloc: Global, steps: &[SwitchStep]) -> Result<Vec<NextHop>, AllocError>
    ensures { IfOk result (λ hops. hops.items ≡ hops_of steps.now) }
{
    steps.iter().map(|step| step.hop).collect(alloc)
}

/// Returns whether the walk that goes on with the hop `step` arrives at `port`, by the `ends` of the switches' walks.
pub(crate) fn arrives_by(port: &EndPort, ends: &[NextHop], step: NextHop) -> bool
    ensures { result ≡ arrives_by port.now ends.now step }
{
    is_at(port, &end_of(onward(ends, step)))
}

/// Returns, for each switch, whether the held tables deliver the packet at `port` from there.
pub(crate) fn delivered(
    alloc: Global,
    port: &EndPort,
    held: &[SwitchStep],
) -> Result<Vec<bool>, AllocError>
    ensures { IfOk result (λ delivered. delivered.items ≡ delivered_of port.now held.now) }
{
    let hops = hops(alloc, held)?;
    let ends = ends(hops);
    arrivals(alloc, port, &ends, held)
}

/// Returns, for each of `steps`, whether the walk that goes on with its hop arrives at `port`, by the `ends` of walks.
fn arrivals(
    alloc: Global,
    port: &EndPort,
    ends: &[NextHop],
    steps: &[SwitchStep],
) -> Result<Vec<bool>, AllocError>
    ensures { IfOk result (λ found. found.items ≡ map (λ x. arrives_by port.now ends.now x.hop) steps.now) }
{
    steps
        .iter()
        .map(|step| arrives_by(port, ends, step.hop))
        .collect(alloc)
}

/// Returns whether `hop` ends at `port`, or leads to a switch from which the held tables deliver the packet.
pub(crate) fn leads_in(port: &EndPort, delivered: &[bool], hop: &NextHop) -> bool
    ensures { result ≡ leads_in port.now delivered.now hop.now }
{
    match hop {
        NextHop::To(to) => flag(delivered, *to),
        NextHop::Ends(end) => is_at(port, &Some(*end)),
    }
}

/// Returns the flag at `index`, or false if there is none.
pub(crate) fn flag(flags: &[bool], index: usize) -> bool
    ensures { result ≡ flag flags.now index }
{
    flags.get(index).copied().unwrap_or(false)
}
