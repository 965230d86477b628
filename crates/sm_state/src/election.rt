//! The choice among the managers that a sweep saw.
ghost use Rattle.std.specs.Prelude.{◌≡◌, Some, find, if◌then◌else◌};
ghost use Rattle.sm_state.specs.Conduct.{is_heard};
ghost use Rattle.sm_state.specs.Election.{any_outranks, better, greatest_of, greatest_in, heir_of, next_best};
ghost use Rattle.sm_state.specs.Election.{is_above, is_heard_in, successor_of};
ghost use Rattle.sm_state.specs.Election.{is_candidate, is_heard_master, outranks, polled_of, says, sweep_verdict};

use crate::{Event, SmState, wins};
use attr_codec::SmInfo;
use smp_bytes::{Guid, PortNum};

/// A manager that the last sweep saw.
#[derive(Clone, Copy, Debug)]
pub struct SeenManager {
    /// The GUID of the manager's node.
    pub guid: Guid,
    /// The port of that node at which the sweep asked for SMInfo.
    pub port: PortNum,
    /// The SMInfo that the manager answered with.
    pub info: SmInfo,
}

/// Returns `Outranked` if one of `seen` outranks the manager whose SMInfo is `own`, and otherwise `Unrivalled`.
pub fn sweep_verdict(own: &SmInfo, seen: &[SeenManager]) -> Event
    ensures { result ≡ sweep_verdict own.now seen.now }
{
    if any_outranks(own, seen) {
        Event::Outranked
    } else {
        Event::Unrivalled
    }
}

fn any_outranks(own: &SmInfo, seen: &[SeenManager]) -> bool
    ensures { result ≡ any_outranks own.now seen.now }
{
    seen.iter().any(|other| outranks(own, &other.info))
}

/// Returns the manager to hand over to: the greatest manager of `seen` that `own` hears, that reports Standby or
/// Master, and that wins over `own`. If several are equal, returns the first. Returns `None` if there is no such
/// manager. Takes time linear in the length of `seen`.
pub fn successor(own: &SmInfo, seen: &[SeenManager]) -> Option<SeenManager>
    ensures { result ≡ successor_of own.now seen.now }
{
    let mut best = None;
    for other in seen {
        best = next_best(is_candidate(own, other), best, *other);
    }
    best
}

/// Returns the greatest manager of `seen` that `own` hears and that reports `state`; ties go to the first. Returns `None`
/// if there is no such manager. Takes time linear in the length of `seen`.
pub fn greatest_in(state: SmState, own: &SmInfo, seen: &[SeenManager]) -> Option<SeenManager>
    ensures { result ≡ greatest_in state own.now seen.now }
{
    let mut best = None;
    for other in seen {
        best = next_best(is_heard_in(state, own, other), best, *other);
    }
    best
}

/// Returns the manager that gets the subnet from `own` if `own` does not keep it, whichever of the two wins: the
/// greatest master in `seen` that `own` hears or, if it hears no master, the greatest standby that it hears. Ties go to
/// the first. Returns `None` if `own` hears neither. Takes time linear in the length of `seen`.
pub fn heir(own: &SmInfo, seen: &[SeenManager]) -> Option<SeenManager>
    ensures { result ≡ heir_of own.now seen.now }
{
    greatest_in(SmState::Master, own, seen).or(greatest_in(SmState::Standby, own, seen))
}

/// Returns the manager to poll: the first master in `seen` that `own` hears. If `own` hears no master, returns the
/// greatest manager in `seen` that outranks `own`; ties go to the first. Returns `None` if no manager in `seen`
/// outranks `own`. Takes time linear in the length of `seen`.
pub fn polled(own: &SmInfo, seen: &[SeenManager]) -> Option<SeenManager>
    ensures { result ≡ polled_of own.now seen.now }
{
    first_master(own, seen).or(greatest_above(own, seen))
}

/// Returns the first master in `seen` that `own` hears, or `None` if `own` hears no master.
fn first_master(own: &SmInfo, seen: &[SeenManager]) -> Option<SeenManager>
    ensures { result ≡ find (is_heard_master own.now) seen.now }
{
    seen.iter()
        .copied()
        .find(|other| is_heard_master(own, other))
}

/// Returns the greatest manager in `seen` that outranks `own` (ties go to the first), or `None` if none outranks `own`.
fn greatest_above(own: &SmInfo, seen: &[SeenManager]) -> Option<SeenManager>
    ensures { result ≡ greatest_of (is_above own.now) seen.now }
{
    let mut best = None;
    for other in seen {
        best = next_best(outranks(own, &other.info), best, *other);
    }
    best
}

/// Returns the better of `best` and `other` if `passes`, and otherwise `best`.
fn next_best(passes: bool, best: Option<SeenManager>, other: SeenManager) -> Option<SeenManager>
    ensures { result ≡ next_best passes best other }
{
    if passes {
        Some(better(best, other))
    } else {
        best
    }
}

/// Returns `other` if `best` is `None` or `other` wins over `best`, and otherwise `best`.
fn better(best: Option<SeenManager>, other: SeenManager) -> SeenManager
    ensures { result ≡ better best other }
{
    match best {
        None => other,
        Some(best) => {
            if wins(&other.info, &best.info) {
                other
            } else {
                best
            }
        }
    }
}

/// Returns whether `own` may hand over to `other`: it hears `other`, which is Standby or Master and wins over `own`.
fn is_candidate(own: &SmInfo, other: &SeenManager) -> bool
    ensures { result ≡ is_candidate own.now other.now }
{
    let is_ready = says(SmState::Standby, &other.info) || says(SmState::Master, &other.info);
    is_heard(own, &other.info) && is_ready && wins(&other.info, own)
}

/// Returns whether the manager whose SMInfo is `own` hears `other`, and `other` reports Master.
fn is_heard_master(own: &SmInfo, other: &SeenManager) -> bool
    ensures { result ≡ is_heard_master own.now other.now }
{
    is_heard_in(SmState::Master, own, other)
}

/// Returns whether the manager whose SMInfo is `own` hears `other`, and `other` reports `state`.
fn is_heard_in(state: SmState, own: &SmInfo, other: &SeenManager) -> bool
    ensures { result ≡ is_heard_in state own.now other.now }
{
    is_heard(own, &other.info) && says(state, &other.info)
}

/// Returns whether `other` outranks `own`: it is heard, and is a master, or wins over `own` and is not Not-active.
fn outranks(own: &SmInfo, other: &SmInfo) -> bool
    ensures { result ≡ outranks own.now other.now }
{
    is_heard(own, other)
        && (says(SmState::Master, other) || (!says(SmState::NotActive, other) && wins(other, own)))
}

/// Returns whether the manager `own` hears `other`: the SM_Key of `own` is 0, or the two SM_Keys are equal.
fn is_heard(own: &SmInfo, other: &SmInfo) -> bool
    ensures { result ≡ is_heard own.now other.now }
{
    own.sm_key == 0 || other.sm_key == own.sm_key
}

/// Returns whether `info` reports `state`. A reserved number reports none of the states.
fn says(state: SmState, info: &SmInfo) -> bool
    ensures { result ≡ says state info.now }
{
    info.state == state.number()
}
