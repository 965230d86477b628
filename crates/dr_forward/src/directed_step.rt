ghost use Rattle.std.specs.Prelude.{◌≡◌, ◌+◌, ◌≤◌, ◌<◌, true, false};
ghost use Rattle.smp_bytes.specs.Field.{number_in};
ghost use Rattle.smp_bytes.specs.Packet.{hop_pointer, hop_count, is_directed, is_returning};
ghost use Rattle.dr_forward.specs.DirectedStep.{step, outgoing, returning, goes_on, goes_back, moved_on, is_port};

use crate::here::Here;
use crate::verdict::{DiscardReason, Verdict};
use smp_bytes::{PortNum, Smp};

/// Performs one step of a packet on a directed route at a node (subnet management, directed route). `smp` must be on
/// a directed route. On its way out the packet leaves through the next port of its path, and the port where it came
/// in is recorded. At the end of the path the node's agent takes the packet. On its way back the packet leaves
/// through the recorded port, until it is back where it was sent. A packet that is discarded stays unchanged.
#[tactic(auto, unfolding(crate::specs::DirectedStep::step))]
pub fn step(smp: &mut Smp, here: &Here) -> Verdict
    requires { is_directed smp.old ≡ true }
    ensures packet { smp.new ≡ (step here.now smp.old).packet }
    ensures verdict { result ≡ (step here.now smp.old).verdict }
{
    if smp.is_returning() {
        returning(smp, here)
    } else {
        outgoing(smp, here)
    }
}

/// Performs a step on the way out.
fn outgoing(smp: &mut Smp, here: &Here) -> Verdict
    requires { is_directed smp.old ≡ true }
    ensures packet { smp.new ≡ (outgoing here.now smp.old).packet }
    ensures verdict { result ≡ (outgoing here.now smp.old).verdict }
{
    let at = smp.hop_pointer();
    let hops = smp.hop_count();
    if at < hops {
        go_on(smp, here, at)
    } else if at == hops {
        move_on(smp, here, at);
        Verdict::ToAgent
    } else {
        Verdict::Discard(DiscardReason::Course)
    }
}

/// Sends the packet on through the next port of its path if it was sent from this node, or if the node is a switch.
/// Otherwise, or if the node does not have that port, discards it. `at` is the hop pointer.
fn go_on(smp: &mut Smp, here: &Here, at: u8) -> Verdict
    requires at { at ≡ number_in hop_pointer smp.old }
    requires before_end { at < number_in hop_count smp.old }
    requires path { at < 63 }
    ensures packet { smp.new ≡ (goes_on here.now smp.old).packet }
    ensures verdict { result ≡ (goes_on here.now smp.old).verdict }
{
    if at != 0 && !here.is_switch {
        return Verdict::Discard(DiscardReason::Transit);
    }
    let port = smp.initial_path(usize::from(at) + 1);
    if !is_port(here, port) {
        return Verdict::Discard(DiscardReason::OutPort);
    }
    move_on(smp, here, at);
    Verdict::Out(port)
}

/// Advances the hop pointer `at`. If the packet came in through a port (`at` was not 0), records this port.
fn move_on(smp: &mut Smp, here: &Here, at: u8)
    requires at { at ≡ number_in hop_pointer smp.old }
    requires on_path { at ≤ number_in hop_count smp.old }
    requires path { at < 64 }
    ensures { smp.new ≡ moved_on here.now smp.old }
{
    smp.set_hop_pointer(at + 1);
    if at != 0 {
        smp.set_return_path(usize::from(at), here.arrival);
    }
}

/// Performs a step on the way back.
fn returning(smp: &mut Smp, here: &Here) -> Verdict
    requires { is_directed smp.old ≡ true }
    ensures packet { smp.new ≡ (returning here.now smp.old).packet }
    ensures verdict { result ≡ (returning here.now smp.old).verdict }
{
    let at = smp.hop_pointer();
    let hops = smp.hop_count();
    if at == 0 {
        Verdict::Discard(DiscardReason::Course)
    } else if at == 1 {
        smp.set_hop_pointer(0);
        Verdict::ToManager
    } else if hops < at || here.is_switch {
        go_back(smp, here, at - 1)
    } else {
        Verdict::Discard(DiscardReason::Transit)
    }
}

/// Sends the packet back through the recorded port, or discards it if the node does not have that port.
fn go_back(smp: &mut Smp, here: &Here, before: u8) -> Verdict
    requires before { number_in hop_pointer smp.old ≡ before + 1 }
    requires on_path { before ≤ number_in hop_count smp.old }
    requires path { before < 64 }
    ensures packet { smp.new ≡ (goes_back here.now smp.old).packet }
    ensures verdict { result ≡ (goes_back here.now smp.old).verdict }
{
    let port = smp.return_path(usize::from(before));
    if !is_port(here, port) {
        return Verdict::Discard(DiscardReason::OutPort);
    }
    smp.set_hop_pointer(before);
    Verdict::Out(port)
}

/// Returns whether `port` is from 1 to the node's port count.
fn is_port(here: &Here, port: PortNum) -> bool
    ensures { result ≡ is_port here.now port }
{
    port.is_within(here.ports)
}
