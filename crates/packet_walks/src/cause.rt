//! Why packets are dropped.
ghost use Rattle.std.specs.Prelude.{◌≡◌};
ghost use Rattle.packet_walks.specs.HopsByTables.{cause_by};

use smp_bytes::{Lid, NO_ENTRY};

/// Why a packet is dropped at a node. At a switch, this is the first of `AboveTop`, `NoEntry`, `NoPort` and `NoLink`
/// that applies.
#[derive(Clone, Copy, Debug, PartialEq, Eq)]
pub enum Cause {
    /// The LID is above the top of the switch.
    AboveTop,
    /// The effective entry is 255, as it is for LID 0 and for a LID whose block is not held.
    NoEntry,
    /// The effective entry is above the port count of the switch.
    NoPort,
    /// The outgoing port has no wire.
    NoLink,
    /// The packet reached a port that does not hold the packet's LID, at a node that is not a usable switch.
    Foreign,
}

/// Returns why a switch with `ports` ports, the top `top` and the entry `entry` does not forward a packet for `lid`.
pub(crate) fn cause_by(ports: u8, top: Lid, lid: Lid, entry: u8) -> Cause
    ensures { result ≡ cause_by ports top lid entry }
{
    if top < lid {
        Cause::AboveTop
    } else if entry == NO_ENTRY {
        Cause::NoEntry
    } else if ports < entry {
        Cause::NoPort
    } else {
        Cause::NoLink
    }
}
