ghost use Rattle.std.specs.Prelude.{◌≡◌, Some, length};
ghost use Rattle.fact_store.specs.View.{cell_for, cells_of};
ghost use Rattle.subnet_view.specs.EndPort.{end_ports};
ghost use Rattle.lid_assign.specs.LidFault.{no_room};
ghost use Rattle.lid_assign.specs.Lids.{is_no_room};
ghost use Rattle.lid_assign.specs.Claims.{room};
ghost use Rattle.lid_assign.specs.Room.{usable_cap};

use crate::lid_fault::NoRoom;
use crate::without_memory::runs_out;
use attr_codec::Lmc;
use fact_store::{Sighting, Store};
use smp_bytes::Lid;
use subnet_view::{count_end_ports, usable_guid};

/// Returns the room and the number of end ports if some end port of the view finds no LID. Otherwise returns `None`.
/// Walks the cells at most four times in two cases. In the first, the number of end ports is at least the room. In the
/// second, one more than this number, times 2^`lmc`, is at most the room. Under LMC 0 one of the two cases always
/// applies. Otherwise the number of walks is linear in the number of end ports. Does not allocate.
pub fn no_room(store: &Store, lmc: Lmc) -> Option<NoRoom>
    ensures { result ≡ no_room lmc (cells_of store.now) }
{
    if lacks_room(store, lmc) {
        Some(room_and_end_ports(store))
    } else {
        None
    }
}

/// Returns whether some end port of the view finds no LID.
fn lacks_room(store: &Store, lmc: Lmc) -> bool
    ensures { result ≡ is_no_room lmc (cells_of store.now) }
{
    let endports = count_end_ports(store);
    let room = usize::from(room(store));
    if endports >= room {
        endports > 0
    } else if (endports + 1) * usize::from(lmc.width()) <= room {
        false
    } else {
        runs_out(store, lmc)
    }
}

/// Returns the number of end ports and the room.
pub(crate) fn room_and_end_ports(store: &Store) -> NoRoom
    ensures { result ≡ record
        { endports = length (end_ports (cells_of store.now)); room = room (cells_of store.now) } }
{
    NoRoom {
        endports: count_end_ports(store),
        room: room(store),
    }
}

/// Returns the room for LIDs. Walks the cells, with at most two binary searches for each switch.
pub(crate) fn room(store: &Store) -> u16
    ensures { result ≡ room (cells_of store.now) }
{
    let mut least = Lid::UNICAST_END;
    for sighting in store.cells() {
        if let Some(cap) = usable_cap(store, &sighting) {
            least = least.min(cap);
        }
    }
    least
}

/// Returns the table size of the node whose type `sighting` reports, if this node is a usable switch.
fn usable_cap(store: &Store, sighting: &Sighting) -> Option<u16>
    requires { cell_for store.now sighting.now.0 ≡ Some sighting.now.1 }
    ensures { result ≡ usable_cap (cells_of store.now) sighting.now }
{
    store.cap(usable_guid(store, sighting)?)
}
