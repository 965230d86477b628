//! Who holds each LID.
ghost use Rattle.std.specs.Prelude.{◌≡◌, [], ◌∷◌, IfOk, slice_index_or, slice_set};
ghost use Rattle.held_tables.specs.declared.owners.Owner.TheVariants.{Several};
ghost use Rattle.held_tables.specs.Owners.{AreOwners, is_several, is_sole, has_several_owners, owner_more, sole_among};
ghost use Rattle.held_tables.specs.Tables.{holders, is_same_end};

use crate::held::HeldLid;
use smp_bytes::Lid;
use std::alloc::{AllocError, Global};
use subnet_view::EndPort;

/// Who holds a LID, according to a list of lines, each a LID and an end port. The lines must differ.
#[derive(Clone, Copy, Debug, PartialEq, Eq)]
pub enum Owner {
    /// No end port.
    Nobody,
    /// This end port alone.
    Sole(EndPort),
    /// More than one end port.
    Several,
}

/// One more than the greatest LID that an end port can hold.
const LIDS: usize = Lid::UNICAST_END as usize;

/// Returns who holds each LID below 49,152, according to `lines`. A line that occurs twice counts as two end ports.
/// Takes time linear in the number of `lines`, plus 49,152.
pub fn lid_owners(alloc: Global, lines: &[HeldLid]) -> Result<Vec<Owner>, AllocError>
    ensures { IfOk result (λ owners. AreOwners lines.now owners.items) }
{
    let mut owners = vec![in alloc; Owner::Nobody; LIDS]?;
    for line in lines {
        add_owner(&mut owners, line);
    }
    Ok(owners)
}

/// Records in `owners`, if it has an item for the LID of `line`, that the end port of `line` holds it.
fn add_owner(owners: &mut Vec<Owner>, line: &HeldLid)
    ensures { owners.new.items ≡ slice_set owners.old.items line.now.lid
        (owner_more (slice_index_or owners.old.items line.now.lid Several) line.now.port) }
{
    let lid = usize::from(line.lid.number());
    if lid < owners.len() {
        owners[lid] = owner_more(owners[lid], line.port);
    }
}

/// Returns who holds a LID after `port` is added to `owner`: `port` alone after `Nobody`, and otherwise `Several`.
fn owner_more(owner: Owner, port: EndPort) -> Owner
    ensures { result ≡ owner_more owner port }
{
    match owner {
        Owner::Nobody => Owner::Sole(port),
        _ => Owner::Several,
    }
}

/// Returns the end ports that hold `lid` according to `lines`. Each item of `owners` must say who holds its LID
/// according to `lines`. Takes constant time if `owners` has an item for `lid` and this item is not `Several`.
/// Otherwise takes time linear in the number of `lines`.
pub fn owners_of(
    alloc: Global,
    lines: &[HeldLid],
    owners: &[Owner],
    lid: Lid,
) -> Result<Vec<EndPort>, AllocError>
    requires { AreOwners lines.now owners.now }
    ensures { IfOk result (λ ports. ports.items ≡ holders lines.now lid) }
{
    match owner_at(owners, lid) {
        Owner::Nobody => Ok(Vec::new(alloc)),
        Owner::Sole(port) => one(alloc, port),
        Owner::Several => all_owners_of(alloc, lines, lid),
    }
}

/// Returns who holds `lid` according to `owners`, or `Several` if `owners` has no item for `lid`.
fn owner_at(owners: &[Owner], lid: Lid) -> Owner
    ensures { result ≡ slice_index_or owners.now lid Several }
{
    match owners.get(usize::from(lid.number())) {
        Some(owner) => *owner,
        None => Owner::Several,
    }
}

/// Returns the only end port that holds `lid`, according to `owners`. Returns `None` if no end port holds `lid` or
/// several do, or if `owners` has no item for `lid`. Takes constant time.
pub fn sole_owner(owners: &[Owner], lid: Lid) -> Option<EndPort>
    ensures { result ≡ sole_among (slice_index_or owners.now lid Several) }
{
    match owner_at(owners, lid) {
        Owner::Sole(port) => Some(port),
        _ => None,
    }
}

/// Returns the list that has only `port`.
fn one(alloc: Global, port: EndPort) -> Result<Vec<EndPort>, AllocError>
    ensures { IfOk result (λ ports. ports.items ≡ port ∷ []) }
{
    let mut ports = Vec::with_capacity(alloc, 1)?;
    ports.push(port)?;
    Ok(ports)
}

/// Returns the end ports that hold `lid` according to `lines`. Takes time linear in the number of `lines`.
fn all_owners_of(alloc: Global, lines: &[HeldLid], lid: Lid) -> Result<Vec<EndPort>, AllocError>
    ensures { IfOk result (λ owners. owners.items ≡ holders lines.now lid) }
{
    lines
        .iter()
        .filter(|line| line.lid == lid)
        .map(|line| line.port)
        .collect(alloc)
}

/// Returns whether more than one of `lines` is for `lid`. Each item of `owners` must say who holds its LID according
/// to `lines`. Takes constant time if `owners` has an item for `lid`, and otherwise time linear in the number of
/// `lines`.
pub fn has_several_owners(lines: &[HeldLid], owners: &[Owner], lid: Lid) -> bool
    requires { AreOwners lines.now owners.now }
    ensures { result ≡ has_several_owners lines.now lid }
{
    match owners.get(usize::from(lid.number())) {
        Some(owner) => is_several(owner),
        None => is_told_twice_by(lines, lid),
    }
}

/// Returns whether `owner` is `Several`.
fn is_several(owner: &Owner) -> bool
    ensures { result ≡ is_several owner.now }
{
    match owner {
        Owner::Several => true,
        _ => false,
    }
}

/// Returns whether more than one of `lines` is for `lid`. Takes time linear in the number of `lines`.
fn is_told_twice_by(lines: &[HeldLid], lid: Lid) -> bool
    ensures { result ≡ has_several_owners lines.now lid }
{
    1 < lines.iter().filter(|line| line.lid == lid).count()
}

/// Returns whether, according to `lines`, no end port other than that of `line` holds the LID of `line`. Each item of
/// `owners` must say who holds its LID according to `lines`. Takes constant time if `owners` has an item for the LID
/// and this item is not `Several`. Otherwise takes time linear in the number of `lines`.
pub fn is_sole_owner(lines: &[HeldLid], owners: &[Owner], line: &HeldLid) -> bool
    requires { AreOwners lines.now owners.now }
    ensures { result ≡ is_sole line.now.port (holders lines.now line.now.lid) }
{
    match owner_at(owners, line.lid) {
        Owner::Nobody => true,
        Owner::Sole(port) => is_same_end(&line.port, &port),
        Owner::Several => is_sole_of_all(lines, line),
    }
}

/// Returns whether no other end port of `lines` holds the LID of `line`. Takes time linear in the number of `lines`.
fn is_sole_of_all(lines: &[HeldLid], line: &HeldLid) -> bool
    ensures { result ≡ is_sole line.now.port (holders lines.now line.now.lid) }
{
    lines
        .iter()
        .filter(|other| other.lid == line.lid)
        .map(|other| other.port)
        .all(|owner| is_same_end(&line.port, &owner))
}

/// Returns whether `port` and `other` are the same end port.
pub fn is_same_end(port: &EndPort, other: &EndPort) -> bool
    ensures { result ≡ is_same_end port.now other.now }
{
    other.node == port.node && other.port == port.port
}
