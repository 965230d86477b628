ghost use Rattle.std.specs.Prelude.{◌≡◌, ◌==◌, ◌<◌, true, All, IfOk, MatchOption, length, map, slice_index};
ghost use Rattle.std.specs.Prelude.{slice_index_or};
ghost use Rattle.port_graph.specs.NextPorts.{AreSlopes, indexed, ports_between};
ghost use Rattle.port_graph.specs.ByteLanes.{AnyLane, EachLane, AreRouted, IsBlock, IsStepDown, IsStepUp, at, nearest_by};
ghost use Rattle.port_graph.specs.ByteLanes.{port_in, target_in};
ghost use Rattle.port_graph.specs.Slopes.{next_port};

use crate::adjacency::Adjacency;
use crate::byte_lanes::{Hops, LANES, fill_in, nearest, one_more, port_in, set_at_target};
use crate::edge::Edge;
use crate::next_port::next_ports;
use smp_bytes::PortNum;
use std::alloc::{AllocError, Global};

/// Returns the next ports between `vertices`: row `i` has the next port of each of `vertices` towards `vertices[i]`.
/// The edges must be slopes (`AreSlopes`), and each of `vertices` must be a vertex. Visits all vertices and edges
/// once down and once up for every 16 targets. If a number that this computes does not fit in a lane, also searches
/// the graph for each of these 16 targets. Returns an error if memory runs out.
pub fn next_ports_between(
    alloc: Global,
    ups: &Adjacency,
    downs: &Adjacency,
    vertices: &[usize],
) -> Result<Vec<Vec<Option<PortNum>>>, AllocError>
    requires slopes { AreSlopes ups.now downs.now }
    requires vertices { All (λ vertex. vertex < length ups.now) vertices.now }
    ensures { IfOk result (λ rows. map (λ ports. ports.items) rows.items
        ≡ ports_between ups.now downs.now vertices.now) }
{
    let mut rows = Vec::with_capacity(alloc, vertices.len())?;
    let mut block = Block::new(alloc, ups.len())?;
    'block: while rows.len() < vertices.len() {
        let first = rows.len();
        block.route(ups, downs, targets_from(vertices, first));
        let count = LANES.min(vertices.len() - first);
        for lane in 0..count {
            rows.push(block.row(alloc, ups, downs, lane, vertices)?)?;
        }
    }
    Ok(rows)
}

/// Returns the targets of the lanes: the vertices from `vertices[first]` on, and the last for each lane that is left.
fn targets_from(vertices: &[usize], first: usize) -> [usize; LANES]
    requires { first < length vertices.now }
    ensures { EachLane (λ k. slice_index result k ≡ target_in vertices.now first k) }
{
    let last = vertices.len() - 1 - first;
    let mut targets = [0; LANES];
    for lane in 0..LANES {
        targets[lane] = vertices[first + lane.min(last)];
    }
    targets
}

/// The target of each lane, and, for each vertex, its costs and its next ports towards these targets.
#[derive(Drop)]
struct Block {
    targets: [usize; LANES],
    /// Whether `numbers` and `ports` have the costs and the next ports towards `targets`. If not, they have no meaning.
    is_routed: bool,
    numbers: Vec<[u8; LANES]>,
    ports: Vec<[u8; LANES]>,
}

impl Block {
    /// Creates a block for `count` vertices, without routes.
    fn new(alloc: Global, count: usize) -> Result<Self, AllocError>
        ensures numbers { IfOk result (λ block. length block.numbers.items ≡ count) }
        ensures ports { IfOk result (λ block. length block.ports.items ≡ count) }
    {
        Ok(Block {
            targets: [0; LANES],
            is_routed: false,
            numbers: vec![in alloc; [0; LANES]; count]?,
            ports: vec![in alloc; [0; LANES]; count]?,
        })
    }

    /// Computes the costs of all vertices and their next ports towards `targets`. Sets `is_routed` to whether all
    /// numbers that this computes fit in the lanes.
    fn route(&mut self, ups: &Adjacency, downs: &Adjacency, targets: [usize; LANES])
        requires slopes { AreSlopes ups.now downs.now }
        requires numbers { length self.old.numbers.items ≡ length ups.now }
        requires ports { length self.old.ports.items ≡ length ups.now }
        requires targets { EachLane (λ k. slice_index targets k < length ups.now) }
        ensures targets { self.new.targets ≡ targets }
        ensures routed { IsBlock ups.now downs.now self.new.is_routed targets self.new.numbers.items
            self.new.ports.items }
    {
        self.targets = targets;
        self.is_routed = route_in_lanes(ups, downs, &targets, &mut self.numbers, &mut self.ports);
    }

    /// Returns the next ports of `vertices` towards the target of `lane`. Returns an error if memory runs out.
    fn row(
        &self,
        alloc: Global,
        ups: &Adjacency,
        downs: &Adjacency,
        lane: usize,
        vertices: &[usize],
    ) -> Result<Vec<Option<PortNum>>, AllocError>
        requires slopes { AreSlopes ups.now downs.now }
        requires routed { IsBlock ups.now downs.now self.now.is_routed self.now.targets self.now.numbers.items
            self.now.ports.items }
        requires lane { lane < 16 }
        requires target { slice_index self.now.targets lane < length ups.now }
        requires vertices { All (λ vertex. vertex < length ups.now) vertices.now }
        ensures { IfOk result (λ found. found.items
            ≡ map (λ vertex. next_port (indexed ups.now downs.now) vertex (slice_index self.now.targets lane))
            vertices.now) }
    {
        if self.is_routed {
            ports_in_lane(alloc, &self.numbers, &self.ports, lane, vertices)
        } else {
            ports_at(
                alloc,
                &next_ports(alloc, ups, downs, self.targets[lane])?,
                vertices,
            )
        }
    }
}

/// Computes, for each lane, the costs of all vertices and their next ports towards the lane's target. Computes down
/// distances first, from the last vertex to the first, and then costs, from the first to the last. Returns `false` if a
/// number that is computed for this is over 254, and so too great for a lane.
fn route_in_lanes(
    ups: &Adjacency,
    downs: &Adjacency,
    targets: &[usize; LANES],
    numbers: &mut [[u8; LANES]],
    ports: &mut [[u8; LANES]],
) -> bool
    requires slopes { AreSlopes ups.now downs.now }
    requires numbers { length numbers.old ≡ length ups.now }
    requires ports { length ports.old ≡ length ups.now }
    requires targets { EachLane (λ k. slice_index targets.now k < length ups.now) }
    ensures { result ≡ true
        → EachLane (λ k. AreRouted ups.now downs.now (slice_index targets.now k) k numbers.new ports.new) }
{
    let mut vertex = ups.len();
    'down: while vertex > 0 {
        vertex -= 1;
        match down_from(downs.at(vertex), numbers, targets, vertex) {
            Some(hops) => {
                let its_numbers = hops.numbers;
                let its_ports = hops.ports;
                numbers[vertex] = its_numbers;
                ports[vertex] = its_ports;
            }
            None => return false,
        }
    }
    'up: for vertex in 0..ups.len() {
        let distances = numbers[vertex];
        let ports_down = ports[vertex];
        let down = Hops {
            numbers: distances,
            ports: ports_down,
        };
        match up_from(ups.at(vertex), numbers, down) {
            Some(hops) => {
                let its_numbers = hops.numbers;
                let its_ports = hops.ports;
                numbers[vertex] = its_numbers;
                ports[vertex] = its_ports;
            }
            None => return false,
        }
    }
    true
}

/// Returns the down distances of `vertex` and its ports down, for each lane, by those in `numbers` of the vertices that
/// its edges down `downs` lead to. Returns `None` if the least is 254 in a lane, since one more is too great.
fn down_from(
    downs: &[Edge],
    numbers: &[[u8; LANES]],
    targets: &[usize; LANES],
    vertex: usize,
) -> Option<Hops>
    requires { All (λ edge. edge.to < length numbers.now) downs.now }
    ensures { MatchOption result (AnyLane (λ k. (nearest_by (λ a. at numbers.now a k) downs.now).0 ≡ 254))
        (λ hops. EachLane (λ k. IsStepDown (slice_index targets.now k == vertex)
        (nearest_by (λ a. at numbers.now a k) downs.now) (slice_index hops.numbers k) (slice_index hops.ports k))) }
{
    let nearest = nearest(downs, numbers);
    let mut distances = one_more(&nearest.numbers)?;
    set_at_target(&mut distances, targets, vertex);
    Some(Hops {
        numbers: distances,
        ports: nearest.ports,
    })
}

/// Returns the hops of a vertex with the edges up `ups` and the down distances `down`, by the costs `numbers` of the
/// vertices that `ups` lead to. Returns `None` if the least of them is 254 in a lane, since one more is too great.
fn up_from(ups: &[Edge], numbers: &[[u8; LANES]], down: Hops) -> Option<Hops>
    requires { All (λ edge. edge.to < length numbers.now) ups.now }
    ensures { MatchOption result (AnyLane (λ k. (nearest_by (λ a. at numbers.now a k) ups.now).0 ≡ 254))
        (λ hops. EachLane (λ k. IsStepUp (slice_index down.numbers k) (slice_index down.ports k)
        (nearest_by (λ a. at numbers.now a k) ups.now) (slice_index hops.numbers k) (slice_index hops.ports k))) }
{
    let nearest = nearest(ups, numbers);
    let up = Hops {
        numbers: one_more(&nearest.numbers)?,
        ports: nearest.ports,
    };
    let mut hops = down;
    fill_in(&mut hops, &up);
    Some(hops)
}

/// Returns the port of each of `vertices` in `lane`, or `None` if it is the lane's target or has no route.
fn ports_in_lane(
    alloc: Global,
    numbers: &[[u8; LANES]],
    ports: &[[u8; LANES]],
    lane: usize,
    vertices: &[usize],
) -> Result<Vec<Option<PortNum>>, AllocError>
    requires lane { lane < 16 }
    requires numbers { All (λ vertex. vertex < length numbers.now) vertices.now }
    requires ports { All (λ vertex. vertex < length ports.now) vertices.now }
    ensures { IfOk result (λ found.
        found.items ≡ map (λ vertex. port_in (at numbers.now vertex lane) (at ports.now vertex lane)) vertices.now) }
{
    let mut found = Vec::with_capacity(alloc, vertices.len())?;
    for vertex in vertices {
        found.push(port_in(numbers[*vertex][lane], ports[*vertex][lane]))?;
    }
    Ok(found)
}

/// Returns the entries of `ports` for `vertices`.
fn ports_at(
    alloc: Global,
    ports: &[Option<PortNum>],
    vertices: &[usize],
) -> Result<Vec<Option<PortNum>>, AllocError>
    requires { All (λ vertex. vertex < length ports.now) vertices.now }
    ensures { IfOk result (λ found.
        found.items ≡ map (λ vertex. slice_index_or ports.now vertex None) vertices.now) }
{
    let mut found = Vec::with_capacity(alloc, vertices.len())?;
    for vertex in vertices {
        found.push(ports[*vertex])?;
    }
    Ok(found)
}
