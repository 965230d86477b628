//! The lines of refused calls. Each line has the name of the innermost fault.
ghost use Rattle.std.specs.Prelude.{◌≡◌, ◌↔◌, Err};
ghost use Rattle.byte_io.specs.Writes.{Writes};
ghost use Rattle.fabric_sim.specs.FabricFault.{fabric_fault_name};
ghost use Rattle.sm_manager.specs.Fault.{manager_fault_name};
ghost use Rattle.schedule_lines.specs.Prints.{PrintsUnless};
ghost use Rattle.schedule_lines.specs.Refusals.{refusal_line};

use crate::line_parts::write_between;
use crate::run_fault::RunFault;
use byte_io::{Sink, WriteFault};
use fabric_sim::FabricFault;
use sm_manager::ManagerFault;

/// Prints that the fabric refused a call with `fault`. If `fault` is `Memory`, prints nothing and returns `Memory`,
/// which ends the run.
pub fn refuse_fabric<W: Sink>(sink: &mut W, fault: FabricFault) -> Result<(), RunFault>
    ensures prints { PrintsUnless W.written W.has_failed result sink.old sink.new
        (refusal_line (fabric_fault_name fault)) }
    ensures memory { (result ≡ Err RunFault.Memory) ↔ (fault ≡ FabricFault.Memory) }
    ensures unprinted { fault ≡ FabricFault.Memory → sink.new ≡ sink.old }
{
    if fault == FabricFault::Memory {
        return Err(RunFault::Memory);
    }
    write_refusal(sink, fault.name())?;
    Ok(())
}

/// Prints that a manager refused a call with `fault`. If `fault` is `Memory`, prints nothing and returns `Memory`,
/// which ends the run.
pub fn refuse_manager<W: Sink>(sink: &mut W, fault: ManagerFault) -> Result<(), RunFault>
    ensures prints { PrintsUnless W.written W.has_failed result sink.old sink.new
        (refusal_line (manager_fault_name fault)) }
    ensures memory { (result ≡ Err RunFault.Memory) ↔ (fault ≡ ManagerFault.Memory) }
    ensures unprinted { fault ≡ ManagerFault.Memory → sink.new ≡ sink.old }
{
    if fault == ManagerFault::Memory {
        return Err(RunFault::Memory);
    }
    write_refusal(sink, fault.name())?;
    Ok(())
}

/// Prints the line of a refused call: `refused`, and then `name`, the name of the fault.
fn write_refusal<W: Sink>(sink: &mut W, name: &str) -> Result<(), WriteFault>
    ensures writes { Writes W.written W.has_failed result sink.old sink.new
        (refusal_line name.now) }
{
    write_between(sink, b"refused ", name.as_bytes(), b"\n")
}
