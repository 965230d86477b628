//! Tests of what a manager does about another manager, by the table of states.
use attr_codec::{Attribute, Lmc, Priority, SmInfo};
use lft_blocks::{Planning, Rule};
use sm_manager::Manager;
use sm_state::{Conduct, SmState};
use smp_bytes::{AttributeId, Guid, Lid, Method, Path, PortNum, Smp, Status};
use std::alloc::Global;

mod controls;
mod live;
mod ranks;
mod sweeps;
mod texts;

/// The statuses of answers: done, invalid field, and method not supported.
const DONE: Status = Status(0);

const INVALID_FIELD: Status = Status(0x001C);

const NO_METHOD: Status = Status(0x0008);

/// Returns a plain manager of priority 3 at port 1 of an adapter, with the port GUID 0x101.
fn manager(alloc: Global) -> Manager {
    manager_by(alloc, Conduct::Plain)
}

/// Returns a manager of priority 3 at port 1 of an adapter, with the port GUID 0x101 and the conduct `conduct`.
fn manager_by(alloc: Global, conduct: Conduct) -> Manager {
    let planning = Planning::new(Lmc::ZERO, Rule::UpDown, false);
    let info = info_in(SmState::Discovering);
    let port = PortNum::new(1);
    Manager::new(alloc, info.guid, port, info.priority, conduct, planning)
}

/// Returns the SMInfo of the manager in `state`, once it has begun one sweep.
fn info_in(state: SmState) -> SmInfo {
    SmInfo {
        guid: Guid::new(0x101),
        sm_key: 0,
        act_count: 1,
        priority: Priority::new(3).unwrap(),
        state: state.number(),
    }
}

/// Returns the LID of the other manager.
fn sender() -> Lid {
    Lid::new(9)
}

/// Returns whether `manager` accepts `packet` from the other manager.
fn takes(manager: &mut Manager, packet: &Smp) -> bool {
    manager.on_packet(packet.bytes(), Some(sender())).is_ok()
}
