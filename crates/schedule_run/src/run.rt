//! The run of a schedule.
ghost use Rattle.std.specs.Prelude.{◌≡◌, ◌⊎◌, ◌+◌, Err, false, length, IfErr, OnOk, OnErr, IsTrue};
ghost use Rattle.std.specs.Io.KnownBytes.{Appends};
ghost use Rattle.sm_cli.specs.Asked.{texts_for};
ghost use Rattle.schedule_run.specs.Run.{HasRun, IsRunFault, fault_of_run};
ghost use Rattle.byte_io.specs.Prints.{PrintsSome};

use crate::commands::run_commands;
use crate::texts::TopologyAndSchedule;
use attr_codec::Lmc;
use byte_io::{Sink, Source};
use lft_blocks::Planning;
use schedule_lines::RunFault;
use sm_cli::{Fault, RuleAsked, read_inputs};
use std::alloc::Global;

/// Runs a schedule in the simulated fabric of a topology, with managers that plan 2^LMC LIDs for each adapter port by
/// the rule `asked`. The inputs must be the text that the rule takes, if the rule takes one, the topology and the
/// schedule (`read_inputs`). Reads them to their ends, and judges the topology, the schedule and then any roots. Then
/// runs the commands, one after the other, and flushes their output.
///
/// Writes `run_text` of the topology and the schedule: the lines of all commands in turn. If an input is refused,
/// writes nothing. If memory is refused while the commands are run, writes a beginning of that text. If a write fails,
/// how much was written is unspecified. If the fabric or a manager refuses a call, writes a line with the fault's name
/// and goes on. Only lack of memory and a failed write end the run. `docs/FORMATS.md` has the table of the commands.
///
/// Allocates for the texts, the fabric, the packets in flight, and the facts of managers.
pub fn run_schedule<S: Source, W: Sink>(
    alloc: Global,
    inputs: &mut [S],
    lmc: Lmc,
    asked: RuleAsked,
    sink: &mut W,
) -> Result<(), Fault>
    requires { length inputs.old ≡ texts_for asked + 2 }
    ensures done { OnOk result (HasRun S.state lmc asked inputs.old inputs.new
        (Appends (W.written sink.old) (W.written sink.new))) }
    ensures flushed { OnOk result (IsTrue (W.is_flushed sink.new)) }
    ensures sink_works { OnOk result (W.has_failed sink.new ≡ false) }
    ensures refused { IfErr result (IsRunFault S.state lmc asked
        inputs.old inputs.new
        (PrintsSome W.written W.has_failed sink.old sink.new) (W.has_failed sink.new)) }
    ensures nothing_written { OnErr result ((result ≡ Err Fault.Write)
        ⊎ (result ≡ Err Fault.Memory) ⊎ (sink.new ≡ sink.old)) }
{
    let (rule, setting) = read_inputs(alloc, asked, &TopologyAndSchedule, inputs)?;
    let planning = Planning::new(lmc, rule, false);
    match run_commands(alloc, &setting.topology, &setting.schedule, &planning, sink) {
        Ok(()) => Ok(()),
        Err(fault) => Err(fault_of_run(fault)),
    }
}

/// Returns `fault`, the fault of a run of commands, as a fault of the program.
fn fault_of_run(fault: RunFault) -> Fault
    ensures { result ≡ fault_of_run fault }
{
    match fault {
        RunFault::Write => Fault::Write,
        RunFault::Memory => Fault::Memory,
    }
}
