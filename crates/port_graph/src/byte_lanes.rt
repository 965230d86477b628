ghost use Rattle.std.specs.Prelude.{◌≡◌, ◌<◌, All, MatchOption, cond, length, nat_lt, slice_index, ◌==◌};
ghost use Rattle.port_graph.specs.ByteLanes.{AnyLane, EachLane, IsOneMore, at, nearer, nearest_by, port_in};

use crate::edge::Edge;
use smp_bytes::PortNum;

/// The number of targets to which routes are computed at a time. Each of these targets has a lane.
pub(crate) const LANES: usize = 16;

/// The value of a lane that has no number.
const NONE: u8 = 255;

/// A number and a port for each lane.
#[derive(Clone, Copy)]
pub(crate) struct Hops {
    pub(crate) numbers: [u8; LANES],
    pub(crate) ports: [u8; LANES],
}

/// Returns, for each lane, the least number of the vertices that `edges` lead to, with the port of the first such edge.
pub(crate) fn nearest(edges: &[Edge], numbers: &[[u8; LANES]]) -> Hops
    requires { All (λ edge. edge.to < length numbers.now) edges.now }
    ensures { EachLane (λ k. (slice_index result.numbers k, slice_index result.ports k)
        ≡ nearest_by (λ vertex. at numbers.now vertex k) edges.now) }
{
    let mut nearest = Hops {
        numbers: [NONE; LANES],
        ports: [0; LANES],
    };
    for edge in edges {
        take_nearer(&mut nearest, &numbers[edge.to], edge.port.number());
    }
    nearest
}

/// Takes into `found`, with the port `port`, each number of `numbers` that is less than that of its lane.
fn take_nearer(found: &mut Hops, numbers: &[u8; LANES], port: u8)
    ensures { EachLane (λ k. (slice_index found.new.numbers k, slice_index found.new.ports k)
        ≡ nearer (slice_index found.old.numbers k, slice_index found.old.ports k) (slice_index numbers.now k) port) }
{
    for lane in 0..LANES {
        let number = numbers[lane];
        let is_nearer = number < found.numbers[lane];
        found.numbers[lane] = if is_nearer {
            number
        } else {
            found.numbers[lane]
        };
        found.ports[lane] = if is_nearer { port } else { found.ports[lane] };
    }
}

/// Returns `numbers` with 1 added in each lane that has a number, or `None` if a number is 254.
pub(crate) fn one_more(numbers: &[u8; LANES]) -> Option<[u8; LANES]>
    ensures { MatchOption result (AnyLane (λ k. slice_index numbers.now k ≡ 254))
        (λ more. EachLane (λ k. IsOneMore (slice_index numbers.now k) (slice_index more k))) }
{
    let mut more = [NONE; LANES];
    let mut is_too_great = false;
    for lane in 0..LANES {
        let number = numbers[lane];
        is_too_great = is_too_great | (number == NONE - 1);
        more[lane] = number.saturating_add(1);
    }
    if is_too_great { None } else { Some(more) }
}

/// Sets the number to 0 in each lane whose target is `vertex`.
pub(crate) fn set_at_target(numbers: &mut [u8; LANES], targets: &[usize; LANES], vertex: usize)
    ensures { EachLane (λ k. slice_index numbers.new k
        ≡ cond (slice_index targets.now k == vertex) 0 (slice_index numbers.old k)) }
{
    for lane in 0..LANES {
        numbers[lane] = if targets[lane] == vertex {
            0
        } else {
            numbers[lane]
        };
    }
}

/// Copies into each lane of `hops` that has no number the number and the port that `others` has in this lane.
pub(crate) fn fill_in(hops: &mut Hops, others: &Hops)
    ensures numbers { EachLane (λ k. slice_index hops.new.numbers k
        ≡ cond (nat_lt (slice_index hops.old.numbers k) 255) (slice_index hops.old.numbers k)
        (slice_index others.now.numbers k)) }
    ensures ports { EachLane (λ k. slice_index hops.new.ports k
        ≡ cond (nat_lt (slice_index hops.old.numbers k) 255) (slice_index hops.old.ports k)
        (slice_index others.now.ports k)) }
{
    for lane in 0..LANES {
        let is_known = hops.numbers[lane] < NONE;
        hops.numbers[lane] = if is_known {
            hops.numbers[lane]
        } else {
            others.numbers[lane]
        };
        hops.ports[lane] = if is_known {
            hops.ports[lane]
        } else {
            others.ports[lane]
        };
    }
}

/// Returns `port` as the port of a lane whose number is `number`. Returns `None` if `number` is 0 or `NONE`.
pub(crate) fn port_in(number: u8, port: u8) -> Option<PortNum>
    ensures { result ≡ port_in number port }
{
    if 0 < number && number < NONE {
        Some(PortNum::new(port))
    } else {
        None
    }
}
