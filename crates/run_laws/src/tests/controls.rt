//! Tests of how a manager in each state answers each control, and other requests for SMInfo.
use super::*;

/// The modifiers of controls.
pub(super) const HANDOVER: u32 = 1;

pub(super) const ACKNOWLEDGE: u32 = 2;

const DISABLE: u32 = 3;

const DISCOVER: u32 = 5;

/// For each state, the next state by each modifier from 0 on, or `None` if the control is refused.
const MOVES: [(SmState, [Option<SmState>; 7]); 4] = [
    (
        SmState::Discovering,
        [None, None, None, None, None, None, None],
    ),
    (
        SmState::Standby,
        [
            None,
            Some(SmState::Master),
            None,
            Some(SmState::NotActive),
            None,
            Some(SmState::Discovering),
            None,
        ],
    ),
    (
        SmState::NotActive,
        [None, None, None, None, Some(SmState::Standby), None, None],
    ),
    (
        SmState::Master,
        [
            None,
            Some(SmState::Master),
            Some(SmState::Standby),
            None,
            None,
            Some(SmState::Discovering),
            None,
        ],
    ),
];

/// Returns the control `modifier`, forwarded by LIDs.
fn control(modifier: u32) -> Smp {
    Smp::lid_routed(Method::SET, AttributeId::SM_INFO, modifier, 7, &[0xA5; 64])
}

/// Returns whether a new manager is master once its only sweep has found nobody.
pub(super) fn becomes_master(manager: &mut Manager) -> bool {
    if manager.begin_sweep().is_err() {
        return false;
    }
    let Some(request) = manager.take_outgoing() else {
        return false;
    };
    manager.on_timeout(request.packet.transaction_id()).is_ok()
}

/// Returns whether `manager`, a master, reaches `state` by controls and has nothing else to send.
pub(super) fn comes_to(manager: &mut Manager, state: SmState) -> bool {
    let controls = match state {
        SmState::Master => [].as_slice(),
        SmState::Standby => &[ACKNOWLEDGE],
        SmState::NotActive => &[ACKNOWLEDGE, DISABLE],
        SmState::Discovering => &[DISCOVER],
    };
    for modifier in controls {
        if !takes(manager, &control(*modifier)) || manager.take_outgoing().is_none() {
            return false;
        }
    }
    manager.state() == state
}

/// Returns whether the next packet is the answer with `status`. Its data must be the manager's SMInfo, or that of the
/// request.
fn answers(manager: &mut Manager, status: Status, to: Option<Lid>) -> bool {
    let state = manager.state();
    let Some(out) = manager.take_outgoing() else {
        return false;
    };
    let data = out.packet.attribute_data();
    let is_told = if status == DONE {
        SmInfo::decode(&data) == info_in(state)
    } else {
        data == [0xA5; 64]
    };
    out.packet.method() == Method::GET_RESP
        && out.packet.status() == status
        && out.to == to
        && is_told
}

/// Returns whether the acknowledgement of a handover comes next, and nothing after it. If `is_wanted` is false, returns
/// whether nothing comes next.
fn acknowledges(manager: &mut Manager, is_wanted: bool) -> bool {
    if !is_wanted {
        return manager.take_outgoing().is_none();
    }
    let Some(out) = manager.take_outgoing() else {
        return false;
    };
    out.packet.method() == Method::SET
        && out.packet.attribute_id() == AttributeId::SM_INFO
        && out.packet.attribute_modifier() == ACKNOWLEDGE
        && out.to == Some(sender())
        && manager.take_outgoing().is_none()
}

/// Returns whether `manager` obeys the control `modifier`. It must move to the state `to` or, if that is `None`, refuse
/// the control and stay.
fn obeys(manager: &mut Manager, modifier: u32, to: Option<SmState>) -> bool {
    let state = to.unwrap_or(manager.state());
    let status = if to.is_some() { DONE } else { INVALID_FIELD };
    takes(manager, &control(modifier))
        && manager.state() == state
        && answers(manager, status, Some(sender()))
        && acknowledges(manager, to.is_some() && modifier == HANDOVER)
}

/// Returns whether a manager that was brought to the state `from` moves to `to` by the control `modifier`. If `to` is
/// `None`, it must refuse the control and stay.
fn obeys_in(alloc: Global, from: SmState, modifier: u32, to: Option<SmState>) -> bool {
    let mut manager = manager(alloc);
    becomes_master(&mut manager)
        && comes_to(&mut manager, from)
        && obeys(&mut manager, modifier, to)
}

#[test]
fn controls_move_by_the_table(rt: HostRuntime) {
    for (from, moves) in &MOVES {
        for (modifier, to) in moves.iter().enumerate() {
            assert!(rt;
                obeys_in(rt.alloc(), *from, modifier as u32, *to),
                "{} {modifier}",
                from.word()
            );
        }
    }
}

/// Returns a request for SMInfo: over a path without hops if `is_directed` is true, otherwise by LIDs.
fn request(method: Method, is_directed: bool) -> Smp {
    if is_directed {
        Smp::directed(
            method,
            AttributeId::SM_INFO,
            HANDOVER,
            7,
            &Path::new(),
            &[0xA5; 64],
        )
    } else {
        Smp::lid_routed(method, AttributeId::SM_INFO, HANDOVER, 7, &[0xA5; 64])
    }
}

/// The methods of requests that are not controls, whether they are directed, and the status of their answers.
const REQUESTS: [(Method, bool, Status); 5] = [
    (Method::GET, true, DONE),
    (Method::SET, true, INVALID_FIELD),
    (Method(0x05), true, NO_METHOD),
    (Method::GET, false, DONE),
    (Method(0x05), false, NO_METHOD),
];

/// Returns whether a manager in `state` answers the request of `row`, and does nothing else.
fn replies_in(alloc: Global, state: SmState, row: (Method, bool, Status)) -> bool {
    let (method, is_directed, status) = row;
    let to = if is_directed { None } else { Some(sender()) };
    let mut manager = manager(alloc);
    becomes_master(&mut manager)
        && comes_to(&mut manager, state)
        && takes(&mut manager, &request(method, is_directed))
        && manager.state() == state
        && answers(&mut manager, status, to)
        && acknowledges(&mut manager, false)
}

#[test]
fn other_requests_are_answered_and_move_nothing(rt: HostRuntime) {
    for (state, _) in &MOVES {
        for row in REQUESTS {
            let method = row.0.0;
            assert!(rt;
                replies_in(rt.alloc(), *state, row),
                "{} {method}",
                state.word()
            );
        }
    }
}
