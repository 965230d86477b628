//! Serving a manager by lines.
ghost use Rattle.std.specs.Prelude.{◌≡◌, ◌⊎◌, ◌+◌, Err, false, length, IfErr, OnErr, OnOk, IsTrue};
ghost use Rattle.std.specs.Io.KnownBytes.{Appends};
ghost use Rattle.record_file.specs.declared.file_fault.FileFault.TheVariants.{Read};
ghost use Rattle.byte_io.specs.Prints.{PrintsSome};
ghost use Rattle.serve_task.specs.RunServe.{HasServedLines, IsServeFault, fault_of_serving};
ghost use Rattle.sm_cli.specs.Asked.{texts_for};

use crate::no_files::NoFiles;
use crate::seating::Seating;
use byte_io::{Sink, Source};
use lft_blocks::Planning;
use record_file::FileFault;
use serve_run::{ServeFault, serve};
use sm_cli::{Fault, Serving, read_inputs};
use sm_manager::Manager;
use sm_state::Conduct;
use std::alloc::Global;

/// Serves a manager by lines, as `serve` does. `seating` says whether it does what lines say or decides by itself. The
/// manager begins without facts. The inputs must be the text that the manager's rule takes, if the rule takes a text,
/// and the lines. The text is read first.
///
/// Writes `served_by` of that manager and the lines. Writes nothing if the text is refused. If memory is refused or a
/// write fails while the manager is served, how much was written is as `serve` says. Roots may be any GUIDs, since no
/// switch is known yet.
pub fn run_serve<S: Source, W: Sink>(
    alloc: Global,
    inputs: &mut [S],
    asked: Serving,
    seating: Seating,
    sink: &mut W,
) -> Result<(), Fault>
    requires { length inputs.old ≡ texts_for asked.rule + 1 }
    ensures done { OnOk result (HasServedLines S.state asked seating inputs.old inputs.new
        (Appends (W.written sink.old) (W.written sink.new))) }
    ensures flushed { OnOk result (IsTrue (W.is_flushed sink.new)) }
    ensures sink_works { OnOk result (W.has_failed sink.new ≡ false) }
    ensures refused { IfErr result (IsServeFault S.state asked seating inputs.old inputs.new
        (PrintsSome W.written W.has_failed sink.old sink.new)
        (Appends (W.written sink.old) (W.written sink.new)) (W.has_failed sink.new)) }
    ensures nothing_written { OnErr result ((result ≡ Err Fault.Write) ⊎ (result ≡ Err Fault.Memory)
        ⊎ (result ≡ Err (Fault.File (texts_for asked.rule) Read)) ⊎ (sink.new ≡ sink.old)) }
{
    let first = asked.rule.texts();
    let (texts, lines) = inputs.split_at_mut(first);
    let (rule, _none) = read_inputs(alloc, asked.rule, &NoFiles, texts)?;
    let planning = Planning::new(asked.lmc, rule, asked.multicast);
    let conduct = Conduct::Live(asked.sm_key);
    let manager = Manager::new(
        alloc,
        asked.guid,
        asked.port,
        asked.priority,
        conduct,
        planning,
    );
    match serve(alloc, seating.seat(alloc, manager), &mut lines[0], sink) {
        Ok(()) => Ok(()),
        Err(fault) => Err(fault_of_serving(first, fault)),
    }
}

/// Returns `fault`, the fault of serving, as one of the program. `lines` is the index of the input of lines.
fn fault_of_serving(lines: usize, fault: ServeFault) -> Fault
    ensures { result ≡ fault_of_serving lines fault }
{
    match fault {
        ServeFault::Read => Fault::File {
            input: lines,
            fault: FileFault::Read,
        },
        ServeFault::Write => Fault::Write,
        ServeFault::Memory => Fault::Memory,
    }
}
