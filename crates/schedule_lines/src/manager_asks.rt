//! Requests to managers.
ghost use Rattle.std.specs.Prelude.{◌≡◌, IfOk, OnErr, OnOk};
ghost use Rattle.sm_manager.specs.Fault.{is_memory};
ghost use Rattle.sm_manager.specs.Manager.{outstanding};
ghost use Rattle.smp_bytes.specs.Judges.{JudgesButFor};
ghost use Rattle.schedule_lines.specs.ManagerAsks.{after_asked, asked_fault};

use schedule_file::Ask;
use sm_manager::{Manager, ManagerFault};
use std::alloc::{AllocError, Global};

/// Makes the request `what` to `manager`. If the manager refuses the request, or memory runs out, returns the reason
/// and leaves the manager unchanged.
pub fn ask_manager(manager: &mut Manager, what: Ask) -> Result<(), ManagerFault>
    ensures judged { JudgesButFor is_memory result (asked_fault what manager.old) }
    ensures ok { OnOk result (manager.new ≡ after_asked what manager.old) }
    ensures err { OnErr result (manager.new ≡ manager.old) }
{
    match what {
        Ask::Sweep => manager.begin_sweep(),
        Ask::Write => manager.write_steps(),
        Ask::Handover => manager.handover(),
        Ask::Yield => manager.yield_up(),
        Ask::Rediscover => manager.rediscover(),
        Ask::Poll(lid) => manager.poll(lid),
    }
}

/// Returns the TransactionIDs of the outstanding requests of `manager`, in ascending order. Returns an error if
/// memory runs out.
pub fn waiting(alloc: Global, manager: &Manager) -> Result<Vec<u64>, AllocError>
    ensures { IfOk result (λ waiting. waiting.items ≡ outstanding manager.now) }
{
    let mut waiting = Vec::new(alloc);
    while let Some(transaction) = manager.outstanding(waiting.len()) {
        waiting.push(transaction)?;
    }
    Ok(waiting)
}
