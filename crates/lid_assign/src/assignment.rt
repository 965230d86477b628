ghost use Rattle.std.specs.Prelude.{◌≡◌, IfOk, unwrap_or};
ghost use Rattle.lid_assign.specs.declared.lid_fault.LidFault.TheVariants.{Memory};
ghost use Rattle.fact_store.specs.View.{cells_of};
ghost use Rattle.subnet_view.specs.EndPort.{end_ports};
ghost use Rattle.lid_assign.specs.Lids.{lids, handed_out};
ghost use Rattle.lid_assign.specs.LidFault.{is_memory, lid_fault, no_room};
ghost use Rattle.lid_assign.specs.LidMarks.{IsFound};
ghost use Rattle.smp_bytes.specs.Judges.{JudgesButFor};

use crate::hand_out::hand_out;
use crate::keep_claims::keep_claims;
use crate::lid_fault::LidFault;
use crate::lid_map::LidMap;
use crate::room::{no_room, room, room_and_end_ports};
use attr_codec::Lmc;
use fact_store::Store;
use smp_bytes::Lid;
use std::alloc::{AllocError, Global};
use subnet_view::{EndPort, Subnet, end_ports};

/// Assigns a LID to each end port of the view. A switch has a range of one number, its LID. An adapter's port has a
/// range of 2^`lmc` numbers, which begins at its LID. A range fits if it begins at a multiple of its width other than
/// 0, and ends below the room. The room is the least table size of a usable switch, but at most 49152, where unicast
/// LIDs end. An end port keeps its claim if the claim's range fits, and has no number in common with a fitting range
/// that an earlier end port claims. Each other end port, in the order of `end_ports`, takes the least number whose
/// range fits and has no number that is taken. Unless memory runs out, walks the cells at most four times.
///
/// # Errors
///
/// Returns `NoRoom` if some end port finds no LID. Returns `Memory` if each end port would find a LID but memory runs
/// out.
pub fn assign(alloc: Global, store: &Store, lmc: Lmc) -> Result<LidMap, LidFault>
    ensures judged { JudgesButFor is_memory result (lid_fault (no_room lmc (cells_of store.now))) }
    ensures lids { IfOk result (λ map. map ≡ lids lmc (cells_of store.now)) }
{
    match end_ports(alloc, store) {
        Ok(ports) => assign_to(alloc, store, lmc, &ports),
        Err(_) => Err(out_of_memory(store, lmc)),
    }
}

/// Assigns a LID to each end port of `subnet`, as `assign` does. Does not look for the end ports.
///
/// # Errors
///
/// Returns `NoRoom` if some end port finds no LID. Returns `Memory` if each end port would find a LID but memory runs
/// out.
pub fn assign_in(alloc: Global, subnet: &Subnet, lmc: Lmc) -> Result<LidMap, LidFault>
    ensures judged { JudgesButFor is_memory result (lid_fault (no_room lmc (cells_of subnet.now))) }
    ensures lids { IfOk result (λ map. map ≡ lids lmc (cells_of subnet.now)) }
{
    assign_to(alloc, subnet.store(), lmc, subnet.end_ports())
}

/// Assigns a LID to each of `ports`, as `assign` does.
fn assign_to(alloc: Global, store: &Store, lmc: Lmc, ports: &[EndPort]) -> Result<LidMap, LidFault>
    requires { ports.now ≡ end_ports (cells_of store.now) }
    ensures judged { JudgesButFor is_memory result (lid_fault (no_room lmc (cells_of store.now))) }
    ensures lids { IfOk result (λ map. map ≡ lids lmc (cells_of store.now)) }
{
    match handed_out(alloc, store, lmc, ports) {
        Ok(Some(given)) => Ok(LidMap::new(alloc, lmc, given)?),
        Ok(None) => Err(LidFault::NoRoom(room_and_end_ports(store))),
        Err(_) => Err(out_of_memory(store, lmc)),
    }
}

/// Returns the fault to report if memory runs out before the LIDs are known. The fault is `NoRoom` if some end port
/// finds no LID, and otherwise `Memory`.
pub fn out_of_memory(store: &Store, lmc: Lmc) -> LidFault
    ensures { result ≡ unwrap_or (lid_fault (no_room lmc (cells_of store.now))) Memory }
{
    match no_room(store, lmc) {
        Some(no_room) => LidFault::NoRoom(no_room),
        None => LidFault::Memory,
    }
}

/// Returns `ports`, each with its LID, or `None` if some end port finds no LID.
fn handed_out(
    alloc: Global,
    store: &Store,
    lmc: Lmc,
    ports: &[EndPort],
) -> Result<Option<Vec<(EndPort, Lid)>>, AllocError>
    requires { ports.now ≡ end_ports (cells_of store.now) }
    ensures { IfOk result (IsFound (λ given. given.items) (handed_out lmc (cells_of store.now))) }
{
    let room = usize::from(room(store));
    let mut claimed = vec![in alloc; false; room]?;
    let mut taken = vec![in alloc; false; room]?;
    let keepers = keep_claims(alloc, store, lmc, ports, &mut claimed, &mut taken)?;
    hand_out(alloc, lmc, &keepers, &mut taken)
}
