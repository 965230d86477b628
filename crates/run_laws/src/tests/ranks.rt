//! Tests of which manager, among those that a sweep saw, outranks the manager that swept. The manager that swept has
//! priority 3 and the port GUID 0x101.
use super::*;

/// For each case, the priority, port GUID and state of the other manager, and the state after its sweep of the manager
/// that swept.
const ROWS: [(u8, u64, SmState, SmState); 12] = [
    // A manager that wins is Standby or Discovering.
    (4, 0x1FF, SmState::Standby, SmState::Standby),
    (4, 0x1FF, SmState::Discovering, SmState::Standby),
    (3, 0x100, SmState::Standby, SmState::Standby),
    (3, 0x100, SmState::Discovering, SmState::Standby),
    // A manager that wins is Not-active.
    (4, 0x1FF, SmState::NotActive, SmState::Master),
    (3, 0x100, SmState::NotActive, SmState::Master),
    // The other manager does not win.
    (2, 0x100, SmState::Standby, SmState::Master),
    (3, 0x102, SmState::Discovering, SmState::Master),
    // Neither of two managers with the same priority and the same port GUID wins.
    (3, 0x101, SmState::Standby, SmState::Master),
    (3, 0x101, SmState::Discovering, SmState::Master),
    // A master outranks, whether or not it wins.
    (3, 0x101, SmState::Master, SmState::Standby),
    (2, 0x102, SmState::Master, SmState::Standby),
];

/// Returns the attribute that an adapter with one port, or the manager at it, reports: NodeInfo, with the GUID 0x100 or
/// 0x200, PortInfo, or the SMInfo of `other`.
fn told(attribute: AttributeId, is_far: bool, other: &SmInfo) -> [u8; 64] {
    if attribute == AttributeId::SM_INFO {
        return other.encode();
    }
    let mut data = [0; 64];
    if attribute == AttributeId::NODE_INFO {
        let guid = if is_far { 2 } else { 1 };
        data[2] = 1; // a channel adapter
        data[3] = 1; // ports
        data[18] = guid;
        data[26] = guid;
        data[27] = 1; // the port GUID is one more
        data[36] = 1; // the port by which the request came
    } else {
        data[23] = 2; // a manager sits there
        data[32] = 2; // Initialize
    }
    data
}

/// Returns whether a manager sweeps. The manager asks its own node and port, the adapter across and the port there,
/// and the manager at that port.
pub(super) fn sweeps(manager: &mut Manager, other: &SmInfo) -> bool {
    if manager.begin_sweep().is_err() {
        return false;
    }
    for _ in 0..5 {
        let Some(out) = manager.take_outgoing() else {
            return false;
        };
        let asked = out.packet;
        let data = told(asked.attribute_id(), asked.hop_count() > 0, other);
        if !takes(manager, &asked.answer(DONE, &data)) {
            return false;
        }
    }
    true
}

/// Returns whether a new manager is in `state` once its sweep has found `other`.
fn is_then(alloc: Global, other: &SmInfo, state: SmState) -> bool {
    let mut manager = manager(alloc);
    sweeps(&mut manager, other) && manager.state() == state
}

/// Returns the SMInfo of the other manager, with this priority, port GUID and state.
pub(super) fn other(priority: u8, guid: u64, state: SmState) -> SmInfo {
    let mut info = info_in(state);
    info.guid = Guid::new(guid);
    info.priority = Priority::new(priority).unwrap_or(info.priority);
    info
}

#[test]
fn masters_and_winners_outrank(rt: HostRuntime) {
    for (priority, guid, state, wanted) in ROWS {
        assert!(rt;
            is_then(rt.alloc(), &other(priority, guid, state), wanted),
            "{priority} {guid} {}",
            state.word()
        );
    }
}
