ghost use Rattle.std.specs.Prelude.{◌≡◌, ◌≤◌, false, length, option_map, replicate, IfOk, OnOk};
ghost use Rattle.std.specs.List.{filter_map};
ghost use Rattle.reply_facts.specs.Known.{claim_of};
ghost use Rattle.fact_store.specs.View.{cells_of};
ghost use Rattle.subnet_view.specs.EndPort.{end_ports};
ghost use Rattle.lid_assign.specs.Claims.{room, kept, kept_range};
ghost use Rattle.lid_assign.specs.LidMarks.{fitting, from_on, unmarked, AreMarkedMore, AreTaken};

use crate::lid_marks::{any_marked, fits, mark, width};
use attr_codec::Lmc;
use fact_store::Store;
use smp_bytes::Lid;
use std::alloc::{AllocError, Global};
use subnet_view::EndPort;

/// Returns the end ports in the order of `end_ports`, each with the claim that it keeps, or `None` if it keeps no
/// claim. Marks the ranges of fitting claims in `claimed`, and the ranges of kept claims in `taken`.
pub(crate) fn keep_claims(
    alloc: Global,
    store: &Store,
    lmc: Lmc,
    ports: &[EndPort],
    claimed: &mut [bool],
    taken: &mut [bool],
) -> Result<Vec<(EndPort, Option<Lid>)>, AllocError>
    requires ports { ports.now ≡ end_ports (cells_of store.now) }
    requires claimed { claimed.old ≡ replicate (room (cells_of store.now)) false }
    requires taken { taken.old ≡ replicate (room (cells_of store.now)) false }
    ensures kept { IfOk result (λ keepers. keepers.items ≡ kept lmc (cells_of store.now)) }
    ensures taken { OnOk result (AreTaken (room (cells_of store.now))
        (filter_map (kept_range lmc) (kept lmc (cells_of store.now))) taken.new) }
{
    let mut keepers = Vec::with_capacity(alloc, ports.len())?;
    for port in ports {
        let lid = keep(claim(store, *port), width(lmc, *port), claimed, taken);
        keepers.push((*port, lid))?;
    }
    Ok(keepers)
}

/// Returns the LID that `port` claims, or `None` if the claim is not known. Does a binary search among the cells.
pub(crate) fn claim(store: &Store, port: EndPort) -> Option<Lid>
    ensures { result ≡ claim_of (cells_of store.now) port.node port.port }
{
    store.claim(port.node, port.port)
}

/// Returns `claim` if its range of `width` numbers fits and has no mark in `claimed`, and otherwise `None`. Marks the
/// range in `claimed` if the range fits, and in `taken` if the claim is returned.
pub(crate) fn keep(
    claim: Option<Lid>,
    width: usize,
    claimed: &mut [bool],
    taken: &mut [bool],
) -> Option<Lid>
    requires some { 1 ≤ width }
    requires few { width ≤ 128 }
    requires alike { length taken.old ≡ length claimed.old }
    ensures kept { result ≡ unmarked claimed.old width claim }
    ensures claimed { AreMarkedMore
        (option_map (from_on width) (fitting (length claimed.old) width claim)) claimed.old claimed.new }
    ensures taken { AreMarkedMore (option_map (from_on width) result) taken.old taken.new }
{
    let lid = claims_first(claim, width, claimed)?;
    mark(taken, usize::from(lid.number()), width);
    Some(lid)
}

/// Returns `claim` as `keep` does, and marks its range in `claimed` if the range fits.
pub(crate) fn claims_first(claim: Option<Lid>, width: usize, claimed: &mut [bool]) -> Option<Lid>
    requires some { 1 ≤ width }
    requires few { width ≤ 128 }
    ensures kept { result ≡ unmarked claimed.old width claim }
    ensures claimed { AreMarkedMore
        (option_map (from_on width) (fitting (length claimed.old) width claim)) claimed.old claimed.new }
{
    let lid = claim?;
    let first = usize::from(lid.number());
    if !fits(claimed.len(), first, width) {
        return None;
    }
    let is_claimed = any_marked(claimed, first, width);
    mark(claimed, first, width);
    if is_claimed { None } else { Some(lid) }
}
