//! The ends of the path that a request asks for.
ghost use Rattle.std.specs.Prelude.{◌≡◌};
ghost use Rattle.lid_assign.specs.Lids.{owner_of};
ghost use Rattle.sa_answers.specs.Ends.{both_ends, end_asked, end_by_gid, end_by_guid, end_by_lid, end_of, has_guid};
ghost use Rattle.sa_answers.specs.Told.{value_of};

use crate::told::Told;
use smp_bytes::{Guid, Lid};
use subnet_view::EndPort;

/// The prefix of link-local GIDs, fe80::/64 (addressing).
pub(crate) const LINK_LOCAL_PREFIX: u64 = 0xFE80_0000_0000_0000;

/// Who is asked for at an end of a path.
#[derive(Clone, Copy, Debug, PartialEq, Eq)]
pub enum EndAsked {
    /// The request names nobody.
    Nobody,
    /// No end port with a LID is as the request says.
    Unknown,
    /// An end port, and one of its LIDs.
    Known(EndPort, Lid),
}

/// What a request says of an end: its GID, if `by_gid`, and its LID, if `by_lid`.
#[derive(Clone, Copy, Debug, PartialEq, Eq)]
pub struct EndSaid {
    pub by_gid: bool,
    pub prefix: u64,
    pub guid: Guid,
    pub by_lid: bool,
    pub lid: Lid,
}

/// Returns who is asked for at an end. If the request has its GID and its LID, both must be of one end port.
pub(crate) fn end_asked(told: &Told<'_>, said: EndSaid) -> EndAsked
    ensures { result ≡ end_asked (value_of told.now) said }
{
    if said.by_gid {
        let named = end_by_gid(told, said.prefix, said.guid);
        if said.by_lid {
            both_ends(named, end_by_lid(told, said.lid))
        } else {
            end_of(named)
        }
    } else if said.by_lid {
        end_of(end_by_lid(told, said.lid))
    } else {
        EndAsked::Nobody
    }
}

/// Returns the end port that was found, if there is one.
fn end_of(found: Option<(EndPort, Lid)>) -> EndAsked
    ensures { result ≡ end_of found }
{
    match found {
        None => EndAsked::Unknown,
        Some((port, lid)) => EndAsked::Known(port, lid),
    }
}

/// Returns the end port that was found by its GID and by its LID, with this LID, if both are one.
fn both_ends(by_gid: Option<(EndPort, Lid)>, by_lid: Option<(EndPort, Lid)>) -> EndAsked
    ensures { result ≡ both_ends by_gid by_lid }
{
    let Some((named, _)) = by_gid else {
        return EndAsked::Unknown;
    };
    let Some((port, lid)) = by_lid else {
        return EndAsked::Unknown;
    };
    if named.node == port.node && named.port == port.port {
        EndAsked::Known(port, lid)
    } else {
        EndAsked::Unknown
    }
}

/// Returns the end port with this GID, and its first LID.
pub(crate) fn end_by_gid(told: &Told<'_>, prefix: u64, guid: Guid) -> Option<(EndPort, Lid)>
    ensures { result ≡ end_by_gid (value_of told.now) prefix guid }
{
    if prefix == LINK_LOCAL_PREFIX {
        end_by_guid(told, guid)
    } else {
        None
    }
}

/// Returns the end port with this port GUID, and its first LID. Looks at each end port in turn.
pub(crate) fn end_by_guid(told: &Told<'_>, guid: Guid) -> Option<(EndPort, Lid)>
    ensures { result ≡ end_by_guid (value_of told.now) guid }
{
    told.plan
        .lids()
        .given()
        .iter()
        .copied()
        .find(|x| has_guid(told, guid, x))
}

/// Returns whether the end port has this port GUID.
fn has_guid(told: &Told<'_>, guid: Guid, x: &(EndPort, Lid)) -> bool
    ensures { result ≡ has_guid (value_of told.now) guid x.now }
{
    told.store.port_guid(x.0.node, x.0.port) == Some(guid)
}

/// Returns the end port that has this LID.
fn end_by_lid(told: &Told<'_>, lid: Lid) -> Option<(EndPort, Lid)>
    ensures { result ≡ end_by_lid (value_of told.now) lid }
{
    match told.plan.lids().owner(lid) {
        None => None,
        Some(port) => Some((port, lid)),
    }
}
