ghost use Rattle.std.specs.Prelude.{◌≡◌, ◌+◌, ◌≤◌, ◌++◌, [], length};
ghost use Rattle.std.specs.VecDeque.{deque_capacity, deque_len};
ghost use Rattle.sm_manager.specs.Manager.{requests_out, with_all_sent};

use smp_bytes::{Lid, Smp};
use std::collections::VecDeque;
use sweep::Sweep;

/// A packet that is to be sent to the LID `to` or, if `to` is `None`, along the path in the packet.
#[derive(Clone, Copy, Debug)]
pub struct Outgoing {
    pub packet: Smp,
    pub to: Option<Lid>,
}

/// Moves all requests that `sweep` has queued to `outgoing`. The requests are then outstanding. Does not allocate.
pub(crate) fn send_queued(sweep: &mut Sweep, outgoing: &mut VecDeque<Outgoing>)
    requires { deque_len outgoing.old + length sweep.old.queued ≤ deque_capacity outgoing.old }
    ensures sweep { sweep.new ≡ with_all_sent sweep.old }
    ensures outgoing { outgoing.new.items ≡ outgoing.old.items ++ requests_out sweep.old.generation sweep.old.queued }
{
    while let Some(packet) = sweep.next_request() {
        outgoing.push_back_reserved(Outgoing { packet, to: None });
    }
}
