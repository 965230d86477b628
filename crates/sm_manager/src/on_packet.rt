ghost use Rattle.std.specs.Prelude.{◌≡◌, ◌-◌, None, IfOk, OnOk, OnErr};
ghost use Rattle.sm_manager.specs.Packets.{HasSender, IsFaultWithoutRoom, is_for_sweep};
ghost use Rattle.sm_manager.specs.Packets.{sweep_answered, after_packet, packet_taken, noted_trap};
ghost use Rattle.smp_bytes.specs.Judges.{JudgesButFor};
ghost use Rattle.sm_manager.specs.Fault.{is_memory, refusal_of};
ghost use Rattle.sweep.specs.Replies.{judged};

use crate::fault::ManagerFault;
use crate::handover::end_sweep;
use crate::manager::Manager;
use crate::noted_managers::note_seen;
use crate::outgoing::send_queued;
use crate::sm_info_answers::is_info_request;
use crate::traps::Trap;
use fact_store::ReportFault;
use smp_bytes::{Lid, Method, Smp, SmpClass};
use sweep::{REQUESTS_PER_REPLY, Sweep, SweepFault};

impl Manager {
    /// Handles a packet that came to the manager's port. `from` is the LID of the sender. It must not be `None` if
    /// the packet came by LIDs.
    ///
    /// If the packet is a reply to the sweep, the facts in the reply are added, or the manager that the reply shows
    /// is noted, and the next requests are queued. If that ends the sweep, the state changes according to the
    /// managers that the sweep saw. An answer to a poll, a control or a step of a writing ends that request. After
    /// the last step of a phase, the next phase is queued. A request for SMInfo is answered, and a control is obeyed
    /// if the table of states has a move for it. Under the live conduct, a trap by LIDs is repressed. Returns the
    /// content of the trap if `bytes` are such a trap, and otherwise `None`.
    ///
    /// # Errors
    ///
    /// Returns `Sweep` with the fault of the bytes if they are not a packet, and `Sweep` with the sweep's fault if
    /// the sweep refuses the reply. Returns `Unasked` if the packet looks like a reply to a sweep and no sweep has
    /// begun, or if the packet is neither such a reply nor a request for SMInfo, a trap that is repressed, or the
    /// answer to an outstanding request. Returns `SequenceSpent` if no numbers are left for what is to be sent, and
    /// `Memory` if memory runs out.
    pub fn on_packet(
        &mut self,
        bytes: &[u8; 256],
        from: Option<Lid>,
    ) -> Result<Option<Trap>, ManagerFault>
        requires { HasSender bytes.now from }
        ensures judged { JudgesButFor is_memory result (after_packet self.old bytes.now from).fault }
        ensures ok { OnOk result (self.new ≡ (after_packet self.old bytes.now from).manager) }
        ensures err { OnErr result (self.new ≡ self.old) }
        ensures trap { IfOk result (λ trap. trap ≡ noted_trap self.old bytes.now) }
    {
        let smp = match Smp::parse(bytes) {
            Ok(smp) => smp,
            Err(fault) => {
                return Err(ManagerFault::Sweep(SweepFault::Bad(ReportFault::Smp(fault))));
            }
        };
        let trap = self.noted_trap(&smp);
        match self.take(&smp, from) {
            Ok(()) => Ok(trap),
            Err(fault) => Err(fault),
        }
    }

    /// Handles the packet `smp`. `from` is the LID of the sender.
    fn take(&mut self, smp: &Smp, from: Option<Lid>) -> Result<(), ManagerFault>
        requires { HasSender smp.now from }
        ensures judged { JudgesButFor is_memory result (packet_taken self.old smp.now from None).fault }
        ensures ok { OnOk result (self.new ≡ (packet_taken self.old smp.now from None).manager) }
        ensures err { OnErr result (self.new ≡ self.old) }
    {
        if is_info_request(smp) {
            self.serve(smp, from)
        } else if self.represses(smp) {
            self.repress(smp, from)
        } else if is_for_sweep(smp) {
            self.take_reply(smp)
        } else {
            self.take_answer(smp)
        }
    }

    /// Takes the reply `smp` to the sweep: adds its facts, or notes the manager that it shows, and queues the next
    /// requests. Fails with `Unasked`, `Sweep` or `Memory`.
    fn take_reply(&mut self, smp: &Smp) -> Result<(), ManagerFault>
        ensures judged { JudgesButFor is_memory result
            (sweep_answered self.old smp.now self.old.sweep).fault }
        ensures ok { OnOk result (self.new
            ≡ (sweep_answered self.old smp.now self.old.sweep).manager) }
        ensures err { OnErr result (self.new ≡ self.old) }
    {
        let Some(sweep) = &mut self.sweep else {
            return Err(ManagerFault::Unasked);
        };
        if self.outgoing.reserve(REQUESTS_PER_REPLY).is_err() || self.seen.reserve(1).is_err() {
            return Err(fault_without_room(sweep, smp));
        }
        match sweep.on_reply_into(smp, &mut self.store) {
            Ok(answer) => {
                note_seen(&mut self.seen, &answer);
                send_queued(sweep, &mut self.outgoing);
                if sweep.is_done() {
                    end_sweep(&mut self.standing, &self.seen);
                }
                Ok(())
            }
            Err(fault) => Err(refusal_of(fault)),
        }
    }
}

/// Returns the manager's fault for a refusal by the sweep: `Memory` for the sweep's `Memory`, and otherwise `Sweep`.
fn refusal_of(fault: SweepFault) -> ManagerFault
    ensures { result ≡ refusal_of fault }
{
    match fault {
        SweepFault::Memory => ManagerFault::Memory,
        SweepFault::NotOutstanding | SweepFault::Bad(_) | SweepFault::SequenceSpent => {
            ManagerFault::Sweep(fault)
        }
    }
}

/// Returns the fault for the reply `smp` without memory for further requests: the sweep's fault, or `Memory`.
fn fault_without_room(sweep: &Sweep, smp: &Smp) -> ManagerFault
    ensures { IsFaultWithoutRoom (judged sweep.now smp.now) result }
{
    match sweep.judge(smp) {
        Ok(_) => ManagerFault::Memory,
        Err(fault) => ManagerFault::Sweep(fault),
    }
}

/// Returns whether `smp` may answer a sweep: a GetResp along a directed route whose TransactionID's high half is not 0.
fn is_for_sweep(smp: &Smp) -> bool
    ensures { result ≡ is_for_sweep smp.now }
{
    smp.method() == Method::GET_RESP
        && smp.class() == SmpClass::DirectedRoute
        && smp.transaction_id() > 0xFFFF_FFFF
}
