//! A request of one hop and its answer, and a step of each kind.
use dr_forward::{DiscardReason, Here, Verdict, step};
use smp_bytes::{AttributeId, Method, Path, PortNum, Smp, SmpClass, SmpFault, Status};
use std::test::Fail;

/// Returns a switch with four ports if `is_switch`, and otherwise an adapter with one. The packet came in through
/// port 3 of the switch, or through port 1 of the adapter.
fn node(is_switch: bool) -> Here {
    let (ports, arrival) = if is_switch { (4, 3) } else { (1, 1) };
    Here {
        is_switch,
        ports,
        arrival: PortNum::new(arrival),
    }
}

fn out(port: u8) -> Verdict {
    Verdict::Out(PortNum::new(port))
}

/// Builds a request for NodeInfo along a path of `hops` hops that begins with `path`. The hop pointer is `pointer`.
/// The request is on its way back if `is_returning`, and otherwise on its way out.
fn packet(hops: u8, path: [u8; 2], pointer: u8, is_returning: bool) -> Result<Smp, SmpFault> {
    let (get, node_info) = (Method::GET, AttributeId::NODE_INFO);
    let request = Smp::directed(get, node_info, 0, 1, &Path::<63>::new(), &[0; 64]);
    let mut bytes = *request.bytes();
    bytes[4] = if is_returning { 0x80 } else { 0 };
    bytes[6] = pointer;
    bytes[7] = hops;
    bytes[129] = path[0];
    bytes[130] = path[1];
    Smp::parse(&bytes)
}

/// Performs one step at a switch if `is_switch`, and otherwise at an adapter. Returns where the packet goes, its hop
/// pointer, and the port recorded at its first hop, or `None` if `smp` is not on a directed route.
fn stepped(smp: &mut Smp, is_switch: bool) -> Option<(Verdict, u8, u8)> {
    if smp.class() != SmpClass::DirectedRoute {
        return None;
    }
    let verdict = step(smp, &node(is_switch));
    Some((verdict, smp.hop_pointer(), smp.return_path(1).number()))
}

#[test]
fn a_request_comes_and_its_answer_goes_home(rt: HostRuntime) -> Result<(), Fail> {
    let mut smp = packet(1, [1, 0], 0, false)?;
    for (is_switch, verdict, pointer, noted) in [
        (false, out(1), 1, 0),
        (true, Verdict::ToAgent, 2, 3),
        (true, out(3), 1, 3),
        (false, Verdict::ToManager, 0, 3),
    ] {
        let result = stepped(&mut smp, is_switch);
        assert!(rt; result == Some((verdict, pointer, noted)), "{result:?}");
        if pointer == 2 {
            smp = smp.answer(Status::DONE, &[0; 64]);
        }
    }
    Ok(())
}

#[test]
fn each_kind_of_step(rt: HostRuntime) -> Result<(), Fail> {
    let course = Verdict::Discard(DiscardReason::Course);
    let transit = Verdict::Discard(DiscardReason::Transit);
    let out_port = Verdict::Discard(DiscardReason::OutPort);
    // The number of hops, the first two ports of the path, the pointer, whether the packet is on its way back, whether
    // the node is a switch, and what becomes of the packet.
    for (hops, path, pointer, is_returning, is_switch, verdict, then, noted) in [
        (0, [0, 0], 0, false, false, Verdict::ToAgent, 1, 0),
        (0, [0, 0], 1, false, false, course, 1, 0),
        (1, [5, 0], 0, false, true, out_port, 0, 0),
        (1, [0, 0], 0, false, true, out_port, 0, 0),
        (2, [1, 4], 1, false, true, out(4), 2, 3),
        (2, [1, 1], 1, false, false, transit, 1, 0),
        (2, [1, 4], 3, false, true, course, 3, 0),
        (0, [0, 0], 1, true, false, Verdict::ToManager, 0, 0),
        (0, [0, 0], 0, true, false, course, 0, 0),
        (1, [1, 0], 2, true, true, out_port, 2, 0),
        (2, [1, 4], 2, true, false, transit, 2, 0),
    ] {
        let result = stepped(&mut packet(hops, path, pointer, is_returning)?, is_switch);
        assert!(rt; result == Some((verdict, then, noted)), "{result:?}");
    }
    Ok(())
}
