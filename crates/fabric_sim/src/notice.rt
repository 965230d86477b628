//! The trap by which a switch reports that the state of a link at one of its ports has changed.
ghost use Rattle.std.specs.Prelude.{◌≡◌};
ghost use Rattle.fabric_sim.specs.Notice.{link_notice, link_trap};

use smp_bytes::wire::{put_u8, put_u16, put_u24};
use smp_bytes::{AttributeId, Lid, Method, Smp};

/// The method of a trap (management methods).
pub(crate) const TRAP: Method = Method(0x05);

/// The method that represses a trap (management methods).
pub(crate) const TRAP_REPRESS: Method = Method(0x07);

/// The attribute of a trap.
const NOTICE: AttributeId = AttributeId(0x0002);

/// A generic notice of the type Urgent.
const URGENT: u8 = 0x81;

/// The type of a producer that is a switch.
const SWITCH: u32 = 2;

/// The trap number for a change of a link's state.
const LINK_STATE_CHANGE: u16 = 128;

/// Builds the trap of the switch with the LID `lid` and the TransactionID `number`.
pub(crate) fn link_trap(lid: Lid, number: u64) -> Smp
    ensures { result ≡ link_trap lid number }
{
    Smp::lid_routed(TRAP, NOTICE, 0, number, &link_notice(lid))
}

/// Builds the notice of the switch with the LID `lid`.
fn link_notice(lid: Lid) -> [u8; 64]
    ensures { result ≡ link_notice lid }
{
    let mut notice = [0; 64];
    put_u8(&mut notice, 0, URGENT);
    put_u24(&mut notice, 1, SWITCH);
    put_u16(&mut notice, 4, LINK_STATE_CHANGE);
    put_u16(&mut notice, 6, lid.number());
    put_u16(&mut notice, 10, lid.number());
    notice
}
