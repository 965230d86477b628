ghost use Rattle.std.specs.Prelude.{◌≡◌};
ghost use Rattle.packet_walks.specs.HopsByTables.{is_at};

use crate::cause::Cause;
use held_tables::is_same_end;
use smp_bytes::Guid;
use subnet_view::EndPort;

/// The end of a packet that does not loop forever.
#[derive(Clone, Copy, Debug, PartialEq, Eq)]
pub enum End {
    /// The packet is delivered at this port.
    Taken(EndPort),
    /// The packet is dropped at the node with this GUID, for this cause.
    Lost(Guid, Cause),
}

/// Returns whether `end` is a delivery at `port`.
pub fn is_at(port: &EndPort, end: &Option<End>) -> bool
    ensures { result ≡ is_at port.now end.now }
{
    match end {
        Some(End::Taken(at)) => is_same_end(port, at),
        _ => false,
    }
}
