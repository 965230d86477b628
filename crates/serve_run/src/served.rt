//! Handling of one line for a manager that does what lines say. The line is answered, the queued packets are written,
//! and the answer ends.
ghost use Rattle.std.specs.Prelude.{OnOk, IsTrue, Some};
ghost use Rattle.sm_manager.specs.Packets.{after_packet, after_timeout, noted_trap};
ghost use Rattle.sm_manager.specs.Manager.{outstanding};
ghost use Rattle.schedule_lines.specs.Prints.{PrintsUnless};
ghost use Rattle.serve_run.specs.Lives.{Lives};
ghost use Rattle.serve_run.specs.Served.{after_called, after_giving_up, after_heard, after_line, asked, end_line};
ghost use Rattle.serve_run.specs.Served.{served};

use crate::managers::show_managers;
use crate::outgoing::send_all;
use byte_io::Sink;
use schedule_file::Ask;
use schedule_lines::{RunFault, ask_manager, refuse_manager, show_manager, show_trap, waiting};
use serve_lines::ServeLine;
use sm_manager::Manager;
use smp_bytes::Lid;
use std::alloc::Global;

/// Handles `line`: answers the line, writes all queued packets, ends the answer, and flushes.
pub(crate) fn serve_line<W: Sink>(
    alloc: Global,
    manager: &mut Manager,
    line: ServeLine,
    sink: &mut W,
) -> Result<(), RunFault>
    ensures serves { Lives W.written W.has_failed manager.new result sink.old sink.new
        (served manager.old line) }
    ensures flushed { OnOk result (IsTrue (W.is_flushed sink.new)) }
{
    do_line(alloc, manager, line, sink)?;
    send_all(manager, sink)?;
    end_answer(sink)
}

/// Prints the line that ends an answer, and flushes.
#[tactic(auto, using(byte_io::proofs::Writing::wrote))]
pub(crate) fn end_answer<W: Sink>(sink: &mut W) -> Result<(), RunFault>
    ensures prints { PrintsUnless W.written W.has_failed result sink.old sink.new end_line }
    ensures flushed { OnOk result (IsTrue (W.is_flushed sink.new)) }
{
    sink.write(b".\n")?;
    sink.flush()?;
    Ok(())
}

/// Prints `text`.
#[tactic(auto, using(byte_io::proofs::Writing::wrote))]
pub(crate) fn print<W: Sink>(sink: &mut W, text: &[u8]) -> Result<(), RunFault>
    ensures prints { PrintsUnless W.written W.has_failed result sink.old sink.new text.now }
{
    sink.write(text)?;
    Ok(())
}

/// Does what `line` asks for, and prints the result. The packets that are then queued stay in the queue.
fn do_line<W: Sink>(
    alloc: Global,
    manager: &mut Manager,
    line: ServeLine,
    sink: &mut W,
) -> Result<(), RunFault>
    ensures does { Lives W.written W.has_failed manager.new result sink.old sink.new
        (after_line manager.old line) }
{
    match line {
        ServeLine::Ask(what) => ask(manager, what, sink),
        ServeLine::Floor(floor) => {
            manager.raise_floor(floor);
            Ok(())
        }
        ServeLine::Packet(bytes, from) => take_in(manager, &bytes, from, sink),
        ServeLine::Timeout(transaction) => time_out(manager, transaction, sink),
        ServeLine::GiveUp => give_up(alloc, manager, sink),
        ServeLine::Show(what) => show_manager(sink, None, manager, what),
        ServeLine::Managers => show_managers(sink, manager.seen_managers()),
        ServeLine::Empty => Ok(()),
        ServeLine::Wrong => print(sink, b"syntax\n"),
    }
}

/// Makes the request `what` to `manager`. If the manager refuses the request, prints the refusal.
fn ask<W: Sink>(manager: &mut Manager, what: Ask, sink: &mut W) -> Result<(), RunFault>
    ensures does { Lives W.written W.has_failed manager.new result sink.old sink.new
        (after_called (asked manager.old what)) }
{
    match ask_manager(manager, what) {
        Ok(()) => Ok(()),
        Err(fault) => refuse_manager(sink, fault),
    }
}

/// Hands `manager` a packet from the LID `from`. Prints the refusal, if it is refused, or a trap that is repressed.
fn take_in<W: Sink>(
    manager: &mut Manager,
    bytes: &[u8; 256],
    from: Lid,
    sink: &mut W,
) -> Result<(), RunFault>
    ensures does { Lives W.written W.has_failed manager.new result sink.old sink.new
        (after_heard (after_packet manager.old bytes.now (Some from)) (noted_trap manager.old bytes.now)) }
{
    match manager.on_packet(bytes, Some(from)) {
        Ok(trap) => show_trap(sink, None, trap),
        Err(fault) => refuse_manager(sink, fault),
    }
}

/// Times out the request of `manager` with the TransactionID `transaction`. Prints the refusal, if it is refused.
fn time_out<W: Sink>(manager: &mut Manager, transaction: u64, sink: &mut W) -> Result<(), RunFault>
    ensures does { Lives W.written W.has_failed manager.new result sink.old sink.new
        (after_called (after_timeout manager.old transaction)) }
{
    match manager.on_timeout(transaction) {
        Ok(()) => Ok(()),
        Err(fault) => refuse_manager(sink, fault),
    }
}

/// Times out each outstanding request of `manager`, in ascending order of TransactionID. Prints refusals.
fn give_up<W: Sink>(alloc: Global, manager: &mut Manager, sink: &mut W) -> Result<(), RunFault>
    ensures does { Lives W.written W.has_failed manager.new result sink.old sink.new
        (after_giving_up manager.old (outstanding manager.old)) }
{
    let waiting = waiting(alloc, manager)?;
    for transaction in &waiting {
        time_out(manager, *transaction, sink)?;
    }
    Ok(())
}
