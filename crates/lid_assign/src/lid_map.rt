ghost use Rattle.std.specs.Prelude.{◌≡◌, ◌+◌, ◌<◌, ◌≤◌, ◌^◌, length, vec_len, IfOk, IfSome, max, unwrap_or};
ghost use Rattle.lid_assign.specs.Ranges.{range_at, width_of};
ghost use Rattle.lid_assign.specs.Lids.{owner_of, lid_of, lmc_of, top_of, top_among, end_of, last_of, rising_lids};
ghost use Rattle.lid_assign.specs.LidMap.{AreOwners, AreOwnersMore, AreLidMarks, AreBelow, ByPort, marked_from};

use crate::lid_marks::{lmc_at, width};
use attr_codec::Lmc;
use smp_bytes::{Guid, Lid, PortNum};
use std::alloc::{AllocError, Global};
use std::collections::BTreeMap;
use std::marker::Model;
use subnet_view::EndPort;

/// A map from end ports to LIDs. The range of an end port begins at its LID: one number for a switch, and 2^LMC
/// numbers for an adapter's port. Contracts see the LMC, and the end ports in the order of `end_ports`, each with its
/// LID.
#[derive(Drop)]
pub struct LidMap {
    lmc: Lmc,
    /// The end ports in the order of `end_ports`, each with its LID.
    given: Vec<(EndPort, Lid)>,
    /// For each number up to the greatest number in a range, the end port whose range has the number, or `None`.
    owners: Vec<Option<EndPort>>,
    /// The LID of each end port, by node and port.
    by_port: BTreeMap<(Guid, PortNum), Lid>,
    /// The greatest number in the range of an end port, or `None` if there are no end ports.
    top: Option<Lid>,
    /// The LIDs that are assigned, each once, in ascending order.
    rising: Vec<Lid>,
}

impl Model for LidMap {
    ghost use Rattle.lid_assign.specs.LidMap.{IsIndexed};
    ghost use Rattle.lid_assign.specs.Lids.{Given};

    ghost Value = { Given };

    ghost view = { λ a. record { lmc = a.lmc; ports = a.given.items } };

    ghost invariant = { λ a. IsIndexed (record { lmc = a.lmc; ports = a.given.items })
        a.owners.items a.by_port a.top a.rising.items };
}

impl LidMap {
    /// Creates a map with the LMC `lmc` from the end ports in the order of `end_ports`, each with its LID.
    pub(crate) fn new(
        alloc: Global,
        lmc: Lmc,
        given: Vec<(EndPort, Lid)>,
    ) -> Result<Self, AllocError>
        requires { AreBelow 0xC000 lmc given.items }
        ensures { IfOk result (λ map. map ≡ record { lmc = lmc; ports = given.items }) }
    {
        let top = top(lmc, &given);
        let owners = owners(alloc, lmc, &given, end(&top))?;
        let by_port = by_port(alloc, &given)?;
        let rising = rising(alloc, &lid_marks(alloc, lmc, &given, end(&top))?)?;
        Ok(LidMap {
            lmc,
            given,
            owners,
            by_port,
            top,
            rising,
        })
    }

    /// Returns the LMC of `port`: 0 if `port` is port 0 of a switch, and otherwise the map's LMC.
    pub fn lmc_of(&self, port: &EndPort) -> Lmc
        ensures { result ≡ lmc_of self.now port.now }
    {
        lmc_at(self.lmc, *port)
    }

    /// Returns the end ports in the order of `end_ports`, each with its LID.
    pub fn given(&self) -> &[(EndPort, Lid)]
        ensures { result.now ≡ self.now.ports }
    {
        &self.given
    }

    /// Returns the end port whose range has the number `lid`, or `None` if no range has it. Takes constant time.
    pub fn owner(&self, lid: Lid) -> Option<EndPort>
        ensures owner { result ≡ owner_of self.now lid }
        ensures unicast { IfSome result (λ port. lid < 0xC000) }
    {
        self.owners
            .get(usize::from(lid.number()))
            .copied()
            .flatten()
    }

    /// Returns the LID of `port`, which is the first number of its range, or `None` if `port` has no LID. Takes time
    /// logarithmic in the number of end ports.
    pub fn lid_of(&self, port: EndPort) -> Option<Lid>
        ensures { result ≡ lid_of self.now port }
    {
        self.by_port.get(&(port.node, port.port)).copied()
    }

    /// Returns the LIDs that are assigned, each once, in ascending order.
    pub fn lids(&self) -> &[Lid]
        ensures { result.now ≡ rising_lids self.now }
    {
        &self.rising
    }

    /// Returns the greatest number in the range of an end port, or `None` if there are no end ports. Takes constant
    /// time.
    pub fn top(&self) -> Option<Lid>
        ensures { result ≡ top_of self.now }
    {
        self.top
    }
}

/// Returns, for each number below `end`, the end port whose range has the number, or `None` if no range has it. Writes
/// the entries of the first end port last, so that if several ranges have a number, the first end port is its owner.
fn owners(
    alloc: Global,
    lmc: Lmc,
    given: &[(EndPort, Lid)],
    end: usize,
) -> Result<Vec<Option<EndPort>>, AllocError>
    requires { AreBelow end lmc given.now }
    ensures owners { IfOk result (λ owners.
        AreOwners (record { lmc = lmc; ports = given.now }) owners.items) }
{
    let mut owners = vec![in alloc; None; end]?;
    for one in given.iter().rev() {
        own(&mut owners, lmc, one);
    }
    Ok(owners)
}

/// Writes the end port of `given` at each number of its range.
fn own(owners: &mut Vec<Option<EndPort>>, lmc: Lmc, given: &(EndPort, Lid))
    requires { given.now.1 + width_of lmc given.now.0 ≤ vec_len owners.old }
    ensures owned { AreOwnersMore given.now.0 (range_at lmc given.now.0 given.now.1)
        owners.old.items owners.new.items }
    ensures len { vec_len owners.new ≡ vec_len owners.old }
{
    let first = usize::from(given.1.number());
    for n in first..first + width(lmc, given.0) {
        owners[n] = Some(given.0);
    }
}

/// Returns, for each number below `end`, whether it is the LID of an end port.
fn lid_marks(
    alloc: Global,
    lmc: Lmc,
    given: &[(EndPort, Lid)],
    end: usize,
) -> Result<Vec<bool>, AllocError>
    requires { AreBelow end lmc given.now }
    ensures marks { IfOk result (λ marks. AreLidMarks given.now marks.items) }
    ensures len { IfOk result (λ marks. length marks.items ≡ end) }
{
    let mut marks = vec![in alloc; false; end]?;
    for (_, lid) in given.iter().rev().copied() {
        marks[usize::from(lid.number())] = true;
    }
    Ok(marks)
}

/// Returns the marked numbers, in ascending order.
fn rising(alloc: Global, marks: &[bool]) -> Result<Vec<Lid>, AllocError>
    requires { length marks.now ≤ 2 ^ 16 }
    ensures { IfOk result (λ lids. lids.items ≡ marked_from marks.now 0) }
{
    let mut lids = Vec::new(alloc);
    for (lid, is_given) in marks.iter().enumerate() {
        if *is_given {
            lids.push(Lid::new(lid as u16))?;
        }
    }
    Ok(lids)
}

/// Returns one more than `top`, or 0 if `top` is `None`.
fn end(top: &Option<Lid>) -> usize
    ensures { result ≡ end_of top.now }
{
    match top {
        Some(top) => usize::from(top.number()) + 1,
        None => 0,
    }
}

/// Returns the LID of each end port, by node and port. Writes the entry of the first end port last, so that the first
/// LID of an end port counts.
fn by_port(
    alloc: Global,
    given: &[(EndPort, Lid)],
) -> Result<BTreeMap<(Guid, PortNum), Lid>, AllocError>
    ensures { IfOk result (λ lids. ByPort given.now lids) }
{
    let mut lids = BTreeMap::new(alloc);
    for (port, lid) in given.iter().rev().copied() {
        lids.insert((port.node, port.port), lid)?;
    }
    Ok(lids)
}

/// Returns the greatest number in the range of an end port, or `None` if there are no end ports.
fn top(lmc: Lmc, given: &[(EndPort, Lid)]) -> Option<Lid>
    requires { AreBelow 0xC000 lmc given.now }
    ensures { result ≡ top_among lmc given.now }
{
    let mut top = None;
    for (port, lid) in given.iter().rev().copied() {
        top = Some(greater(top, last(lmc, port, lid)));
    }
    top
}

/// Returns the last number of the range of `port` that begins at `lid`.
fn last(lmc: Lmc, port: EndPort, lid: Lid) -> Lid
    requires { lid + width_of lmc port ≤ 0xC000 }
    ensures { result ≡ last_of lmc (port, lid) }
{
    Lid::new(lid.number() + width(lmc, port) as u16 - 1)
}

/// Returns the greater of `top` and `lid`, or `lid` if `top` is `None`.
fn greater(top: Option<Lid>, lid: Lid) -> Lid
    ensures { result ≡ max lid (unwrap_or top 0) }
{
    match top {
        None => lid,
        Some(top) => { if top < lid { lid } else { top } }
    }
}
