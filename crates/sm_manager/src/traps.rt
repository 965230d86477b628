//! The answers to traps.
ghost use Rattle.std.specs.Prelude.{◌≡◌, Err, OnErr, OnOk};
ghost use Rattle.sm_manager.specs.Packets.{noted_trap};
ghost use Rattle.sm_manager.specs.Traps.{represses, repress_out, repressing, trap_in};

use crate::fault::ManagerFault;
use crate::manager::Manager;
use crate::outgoing::Outgoing;
use crate::sm_info_answers::is_info_request;
use smp_bytes::wire::u16_at;
use smp_bytes::{Lid, Method, Smp, SmpClass};

/// The method of a trap (management methods, Trap).
const TRAP: Method = Method(0x05);

/// The method of the answer that ends a trap (management methods, TrapRepress).
const TRAP_REPRESS: Method = Method(0x07);

/// The offset of IssuerLID in a packet that carries a Notice (subnet management, Notice).
const ISSUER_LID: usize = 70;

/// The content of a trap that a manager represses.
#[derive(Clone, Copy, Debug, PartialEq, Eq)]
pub struct Trap {
    /// The LID of the port that issued the notice.
    pub issuer: Lid,
}

impl Trap {
    /// Reads the content of the trap `smp`. Does not check that `smp` is a trap.
    pub(crate) fn of(smp: &Smp) -> Trap
        ensures { result ≡ trap_in smp.now }
    {
        Trap {
            issuer: Lid::new(u16_at(smp.bytes(), ISSUER_LID)),
        }
    }
}

impl Manager {
    /// Returns whether the manager represses `smp`: its conduct is live, and `smp` is a trap that came by LIDs.
    pub(crate) fn represses(&self, smp: &Smp) -> bool
        ensures { result ≡ represses self.now smp.now }
    {
        self.standing.conduct.is_live()
            && smp.method() == TRAP
            && smp.class() == SmpClass::LidRouted
    }

    /// Returns the content of `smp` if it is a trap that the manager represses, and otherwise `None`.
    pub(crate) fn noted_trap(&self, smp: &Smp) -> Option<Trap>
        ensures { result ≡ noted_trap self.now smp.now }
    {
        if !is_info_request(smp) && self.represses(smp) {
            Some(Trap::of(smp))
        } else {
            None
        }
    }

    /// Queues the answer to the trap `smp` to its sender `from`, which then no longer repeats it. Fails with `Memory`.
    pub(crate) fn repress(&mut self, smp: &Smp, from: Option<Lid>) -> Result<(), ManagerFault>
        ensures ok { OnOk result (self.new ≡ repressing self.old smp.now from) }
        ensures err { OnErr result (self.new ≡ self.old) }
        ensures memory { OnErr result (result ≡ Err ManagerFault.Memory) }
    {
        self.outgoing.reserve(1)?;
        self.outgoing.push_back_reserved(repress_out(smp, from));
        Ok(())
    }
}

/// Builds the answer to the trap `smp`, addressed to `from`, the LID of the sender.
fn repress_out(smp: &Smp, from: Option<Lid>) -> Outgoing
    ensures { result ≡ repress_out smp.now from }
{
    let packet = Smp::lid_routed(
        TRAP_REPRESS,
        smp.attribute_id(),
        smp.attribute_modifier(),
        smp.transaction_id(),
        &smp.attribute_data(),
    );
    Outgoing { packet, to: from }
}
