//! Tests of a manager with the live conduct beside another manager that behaves like OpenSM.
use super::controls::{ACKNOWLEDGE, HANDOVER, becomes_master, comes_to};
use super::ranks::{other, sweeps};
use super::*;

/// The SM_Key of the manager.
const KEY: u64 = 1;

/// The methods of a trap and of the packet that represses it.
const TRAP: Method = Method(0x05);

const TRAP_REPRESS: Method = Method(0x07);

/// The attribute of a trap: a notice.
const NOTICE: AttributeId = AttributeId(0x0002);

fn live(alloc: Global) -> Manager {
    manager_by(alloc, Conduct::Live(KEY))
}

/// Returns the SMInfo that the next packet carries, if it is an answer with status 0.
fn told_next(manager: &mut Manager, to: Option<Lid>) -> Option<SmInfo> {
    let out = manager.take_outgoing()?;
    if out.to != to || out.packet.status() != DONE || out.packet.method() != Method::GET_RESP {
        return None;
    }
    Some(SmInfo::decode(&out.packet.attribute_data()))
}

/// Returns the SMInfo in the answers to two requests by LIDs, one after the other.
fn told_twice(manager: &mut Manager) -> Option<(SmInfo, SmInfo)> {
    let get = Smp::lid_routed(Method::GET, AttributeId::SM_INFO, 0, 7, &[0; 64]);
    if !takes(manager, &get) {
        return None;
    }
    let first = told_next(manager, Some(sender()))?;
    if !takes(manager, &get) {
        return None;
    }
    Some((first, told_next(manager, Some(sender()))?))
}

#[test]
fn the_key_is_told_and_each_answer_counts(rt: HostRuntime) {
    let Some((first, second)) = told_twice(&mut live(rt.alloc())) else {
        assert!(rt; false);
        return;
    };
    assert!(rt; first.sm_key == KEY && second.sm_key == KEY);
    assert!(rt; first.act_count == 1 && second.act_count == 2);
}

/// Returns the control `modifier` over a directed route without hops.
fn directed(modifier: u32) -> Smp {
    let data = info_in(SmState::Master).encode();
    Smp::directed(
        Method::SET,
        AttributeId::SM_INFO,
        modifier,
        7,
        &Path::new(),
        &data,
    )
}

/// Returns whether a standby obeys a handover over a directed route: its answer says that it is master, and it sends
/// no acknowledgement.
fn takes_over(manager: &mut Manager) -> bool {
    if !becomes_master(manager) || !comes_to(manager, SmState::Standby) {
        return false;
    }
    if !takes(manager, &directed(HANDOVER)) || manager.state() != SmState::Master {
        return false;
    }
    match told_next(manager, None) {
        Some(info) => {
            info.state == SmState::Master.number() && manager.take_outgoing().is_none()
        }
        None => false,
    }
}

#[test]
fn directed_handovers_are_obeyed(rt: HostRuntime) {
    assert!(rt; takes_over(&mut live(rt.alloc())));
}

/// Returns whether a standby answers a handover by LIDs, and then acknowledges it as a standby.
fn acknowledges_as_standby(manager: &mut Manager) -> bool {
    if !becomes_master(manager) || !comes_to(manager, SmState::Standby) {
        return false;
    }
    let handover = Smp::lid_routed(Method::SET, AttributeId::SM_INFO, HANDOVER, 7, &[0; 64]);
    if !takes(manager, &handover) || told_next(manager, Some(sender())).is_none() {
        return false;
    }
    let Some(out) = manager.take_outgoing() else {
        return false;
    };
    let told = SmInfo::decode(&out.packet.attribute_data());
    out.packet.attribute_modifier() == ACKNOWLEDGE
        && told.sm_key == KEY
        && told.state == SmState::Standby.number()
        && manager.state() == SmState::Master
}

#[test]
fn acknowledgements_come_from_standbys(rt: HostRuntime) {
    assert!(rt; acknowledges_as_standby(&mut live(rt.alloc())));
}

/// Returns whether an acknowledgement that reaches a standby is answered with status 0, and moves nothing.
fn takes_late_acknowledgement(manager: &mut Manager) -> bool {
    becomes_master(manager)
        && comes_to(manager, SmState::Standby)
        && takes(manager, &directed(ACKNOWLEDGE))
        && told_next(manager, None).is_some()
        && manager.state() == SmState::Standby
}

#[test]
fn late_acknowledgements_are_taken(rt: HostRuntime) {
    assert!(rt; takes_late_acknowledgement(&mut live(rt.alloc())));
}

/// Returns whether a manager whose SM_Key is `own` is in `state` once its sweep has found a master with the SM_Key
/// `key`.
fn is_beside(alloc: Global, key: u64, own: u64, state: SmState) -> bool {
    let mut manager = manager_by(alloc, Conduct::Live(own));
    let mut master = other(4, 0x1FF, SmState::Master);
    master.sm_key = key;
    sweeps(&mut manager, &master) && manager.state() == state
}

#[test]
fn other_keys_are_not_heard(rt: HostRuntime) {
    let rows = [
        (1, 1, SmState::Standby),
        (0, 1, SmState::Master),
        (2, 1, SmState::Master),
        (2, 0, SmState::Standby),
    ];
    for (key, own, state) in rows {
        assert!(rt; is_beside(rt.alloc(), key, own, state), "{key} {own}");
    }
}

/// Returns whether a trap by LIDs is answered by the packet that represses it, and nothing else is sent.
fn represses(manager: &mut Manager) -> bool {
    let trap = Smp::lid_routed(TRAP, NOTICE, 0, 0x1234, &[0x5A; 64]);
    if !takes(manager, &trap) {
        return false;
    }
    let Some(out) = manager.take_outgoing() else {
        return false;
    };
    let repress = Smp::lid_routed(TRAP_REPRESS, NOTICE, 0, 0x1234, &[0x5A; 64]);
    out.to == Some(sender())
        && out.packet.bytes() == repress.bytes()
        && manager.take_outgoing().is_none()
}

#[test]
fn traps_are_repressed(rt: HostRuntime) {
    assert!(rt; represses(&mut live(rt.alloc())));
    assert!(rt; !represses(&mut manager(rt.alloc())));
}
