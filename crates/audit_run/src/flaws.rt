//! Which flaws an audit finds.
ghost use Rattle.std.specs.Prelude.{◌≡◌, ◌↔◌, ◌++◌, [], ◌∷◌, IfOk, IsTrue, OnOk, if◌then◌else◌};
ghost use Rattle.audit_run.specs.AuditRun.{AreFlaws, IsFoundCarried, IsFoundFree, IsFoundLeveled, IsFoundToRise};

use crate::flaw::Flaw;
use crate::lane_findings::LaneFindings;
use audit_report::Audit;
use std::alloc::{AllocError, Global};

/// Returns which flaws the tables have by `audit`, by what was `found` by lane and by the greatest load `bound`.
pub(crate) fn flaws_of(
    alloc: Global,
    bound: Option<u64>,
    audit: &Audit,
    found: &Option<LaneFindings>,
) -> Result<Vec<Flaw>, AllocError>
    ensures { IfOk result (λ flaws.
        AreFlaws (IsFoundFree bound audit.now.facts audit.now.held found.now) flaws.items) }
{
    let mut flaws = Vec::new(alloc);
    note_unless(&mut flaws, audit.all_arrive(), Flaw::Missed)?;
    note_unless(&mut flaws, audit.has_tables(), Flaw::Tableless)?;
    note_unless(&mut flaws, audit.has_nodes(), Flaw::Unusable)?;
    note_unless(&mut flaws, audit.has_lids(), Flaw::Lidless)?;
    note_unless(&mut flaws, audit.is_within(bound), Flaw::Overloaded)?;
    note_unless(&mut flaws, is_leveled(found), Flaw::Unleveled)?;
    note_unless(&mut flaws, is_carried(found), Flaw::LaneDrop)?;
    note_unless(&mut flaws, can_rise(audit, found), Flaw::CreditLoop)?;
    Ok(flaws)
}

/// Appends `flaw` to `flaws` unless `is_free` is true.
fn note_unless(flaws: &mut Vec<Flaw>, is_free: bool, flaw: Flaw) -> Result<(), AllocError>
    ensures { OnOk result (flaws.new.items ≡ flaws.old.items ++ (if is_free then [] else (flaw ∷ []))) }
{
    if !is_free {
        flaws.push(flaw)?;
    }
    Ok(())
}

/// Returns whether no packet between adapter ports was found without a service level.
fn is_leveled(found: &Option<LaneFindings>) -> bool
    ensures { IsTrue result ↔ IsFoundLeveled found.now }
{
    match found {
        None => true,
        Some(found) => found.is_leveled(),
    }
}

/// Returns whether no packet was found that is dropped for want of a lane.
fn is_carried(found: &Option<LaneFindings>) -> bool
    ensures { IsTrue result ↔ IsFoundCarried found.now }
{
    match found {
        None => true,
        Some(found) => found.is_carried(),
    }
}

/// Returns whether no credit loop was found: by lane, if it was looked for by lane, and otherwise by `audit`.
fn can_rise(audit: &Audit, found: &Option<LaneFindings>) -> bool
    ensures { IsTrue result ↔ IsFoundToRise audit.now.facts audit.now.held found.now }
{
    match found {
        None => audit.can_rise(),
        Some(found) => found.can_rise(),
    }
}
