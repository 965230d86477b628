ghost use Rattle.std.specs.Prelude.{◌≡◌, ◌-◌, OnOk, OnErr};
ghost use Rattle.sm_manager.specs.Packets.{after_timeout, sweep_gave_up};
ghost use Rattle.smp_bytes.specs.Judges.{JudgesButFor};
ghost use Rattle.sm_manager.specs.Fault.{is_memory};
ghost use Rattle.sweep.specs.Replies.{judged};

use crate::fault::ManagerFault;
use crate::handover::end_sweep;
use crate::manager::Manager;

impl Manager {
    /// Handles the timeout of the request with the TransactionID `transaction`, which is then no longer outstanding.
    /// If three or more polls in a row were lost, a standby moves to Discovering. If the timeout ends the sweep, the
    /// state changes according to the managers that the sweep saw. If the timeout ends a phase of a writing, the next
    /// phase is queued.
    ///
    /// # Errors
    ///
    /// Returns `Unasked` if no outstanding request has the TransactionID `transaction`. Returns `SequenceSpent` or
    /// `Memory` only if the next phase of a writing is due and cannot be sent.
    pub fn on_timeout(&mut self, transaction: u64) -> Result<(), ManagerFault>
        ensures judged { JudgesButFor is_memory result (after_timeout self.old transaction).fault }
        ensures ok { OnOk result (self.new ≡ (after_timeout self.old transaction).manager) }
        ensures err { OnErr result (self.new ≡ self.old) }
    {
        if transaction > 0xFFFF_FFFF {
            return self.give_up(transaction);
        }
        match self.requests.index_of(transaction) {
            Some(index) => self.end_request(index, None),
            None => Err(ManagerFault::Unasked),
        }
    }

    /// Handles the timeout of the last sweep's request with the TransactionID `transaction`, or fails with `Unasked`.
    fn give_up(&mut self, transaction: u64) -> Result<(), ManagerFault>
        ensures judged { JudgesButFor is_memory result
            (sweep_gave_up self.old transaction self.old.sweep).fault }
        ensures ok { OnOk result (self.new
            ≡ (sweep_gave_up self.old transaction self.old.sweep).manager) }
        ensures err { OnErr result (self.new ≡ self.old) }
    {
        let Some(sweep) = &mut self.sweep else {
            return Err(ManagerFault::Unasked);
        };
        match sweep.on_timeout(transaction) {
            Ok(()) => {
                if sweep.is_done() {
                    end_sweep(&mut self.standing, &self.seen);
                }
                Ok(())
            }
            Err(_) => Err(ManagerFault::Unasked),
        }
    }
}
