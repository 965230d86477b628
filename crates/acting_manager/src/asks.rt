//! Calls of the manager. A call that it refuses changes nothing; only want of memory is an error.
ghost use Rattle.std.specs.Prelude.{◌≡◌, IfOk, None, OnOk, Option, is_none, is_ok};
ghost use Rattle.smp_bytes.specs.Judges.{JudgesButFor};
ghost use Rattle.sm_manager.specs.CallLists.{Call, after_call};
ghost use Rattle.sm_manager.specs.Election.{handover_fault, poll_fault, rediscover_fault, yield_fault};
ghost use Rattle.sm_manager.specs.Fault.{is_memory};
ghost use Rattle.sm_manager.specs.Manager.{begin_fault};
ghost use Rattle.sm_manager.specs.Packets.{HasSender, after_packet, after_timeout};
ghost use Rattle.sm_manager.specs.PlanFaults.{writing_fault};
ghost use Rattle.sm_manager.specs.declared.fault.ManagerFault.{ManagerFault as Refusal};

use sm_manager::{Manager, ManagerFault};
use smp_bytes::Lid;
use std::alloc::AllocError;

/// Returns whether the manager did not refuse the call that gave `called`, or an error if memory ran out.
fn is_done<T: Drop>(called: Result<T, ManagerFault>) -> Result<bool, AllocError>
    ensures ok { IfOk result (λ done. done ≡ is_ok called) }
    ensures judged { (why : Option Refusal) → JudgesButFor is_memory called why
        → IfOk result (λ done. done ≡ is_none why) }
{
    match called {
        Ok(_) => Ok(true),
        Err(ManagerFault::Memory) => Err(AllocError),
        Err(_) => Ok(false),
    }
}

/// Has `manager` begin a sweep. Returns whether it does.
pub(crate) fn begin_sweep(manager: &mut Manager) -> Result<bool, AllocError>
    ensures manager { OnOk result (manager.new ≡ after_call manager.old Call.BeginSweep) }
    ensures done { IfOk result (λ done. done ≡ is_none (begin_fault manager.old)) }
{
    is_done(manager.begin_sweep())
}

/// Has `manager` begin to write the plan of its facts. Returns whether it does.
pub(crate) fn write_steps(manager: &mut Manager) -> Result<bool, AllocError>
    ensures manager { OnOk result (manager.new ≡ after_call manager.old Call.WriteSteps) }
    ensures done { IfOk result (λ done. done ≡ is_none (writing_fault manager.old)) }
{
    is_done(manager.write_steps())
}

/// Has `manager` poll the master that the last sweep saw. Returns whether it does.
pub(crate) fn poll(manager: &mut Manager) -> Result<bool, AllocError>
    ensures manager { OnOk result (manager.new ≡ after_call manager.old (Call.Poll None)) }
    ensures done { IfOk result (λ done. done ≡ is_none (poll_fault manager.old None)) }
{
    is_done(manager.poll(None))
}

/// Has `manager` hand over to its successor. Returns whether it does.
pub(crate) fn hand_over(manager: &mut Manager) -> Result<bool, AllocError>
    ensures manager { OnOk result (manager.new ≡ after_call manager.old Call.Handover) }
    ensures done { IfOk result (λ done. done ≡ is_none (handover_fault manager.old)) }
{
    is_done(manager.handover())
}

/// Has `manager` hand over to its heir. Returns whether it does.
pub(crate) fn yield_up(manager: &mut Manager) -> Result<bool, AllocError>
    ensures manager { OnOk result (manager.new ≡ after_call manager.old Call.Yield) }
    ensures done { IfOk result (λ done. done ≡ is_none (yield_fault manager.old)) }
{
    is_done(manager.yield_up())
}

/// Has `manager` discover anew, if it is standby. Returns whether it does.
pub(crate) fn rediscover(manager: &mut Manager) -> Result<bool, AllocError>
    ensures manager { OnOk result (manager.new ≡ after_call manager.old Call.Rediscover) }
    ensures done { IfOk result (λ done. done ≡ is_none (rediscover_fault manager.old)) }
{
    is_done(manager.rediscover())
}

/// Hands `manager` the packet `bytes`, which came from the LID `from`. Returns whether the manager takes it.
pub(crate) fn take_packet(
    manager: &mut Manager,
    bytes: &[u8; 256],
    from: Option<Lid>,
) -> Result<bool, AllocError>
    requires { HasSender bytes.now from }
    ensures manager { OnOk result (manager.new ≡ after_call manager.old (Call.Packet bytes.now from)) }
    ensures done { IfOk result (λ done. done ≡ is_none (after_packet manager.old bytes.now from).fault) }
{
    is_done(manager.on_packet(bytes, from))
}

/// Has `manager` give up the request with the TransactionID `transaction`. Returns whether there is one.
pub(crate) fn time_out(manager: &mut Manager, transaction: u64) -> Result<bool, AllocError>
    ensures manager { OnOk result (manager.new ≡ after_call manager.old (Call.Timeout transaction)) }
    ensures done { IfOk result (λ done. done ≡ is_none (after_timeout manager.old transaction).fault) }
{
    is_done(manager.on_timeout(transaction))
}
