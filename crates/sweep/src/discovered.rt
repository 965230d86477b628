ghost use Rattle.std.specs.Prelude.{◌≡◌, ◌==◌, ◌+◌, ◌<◌, ◌≤◌, ◌^◌, [], length, slice_get, option_copied};
ghost use Rattle.std.specs.Prelude.{option_map, OnOk, true};
ghost use Rattle.sweep.specs.Finding.{too_far_by, with_vertex, with_state, with_state_of};
ghost use Rattle.std.specs.Vec.{vec_capacity, vec_len};
ghost use Rattle.sweep.specs.Discovered.{Discovered};
ghost use Rattle.sweep.specs.Order.{AreInOrder, IsIndexFor, has_key, passes_at, placed};
ghost use Rattle.sweep.specs.Sweep.{vertex_at, first_vertex, state_at, state_key, vertex_key};

use crate::finding::{Finding, Onward, PortFinding};
use crate::port_list::{is_before, item_at, put};
use crate::vertex::{SeenState, Vertex};
use attr_codec::PortState;
use page_list::PageList;
use smp_bytes::{Guid, PortNum};
use std::alloc::{AllocError, Global};
use std::marker::Model;

/// What a sweep has found. Contracts see the vertices, the states of ports, the number of ports that lead too far, and
/// the numbers of further vertices and states for which there is memory.
#[derive(Drop)]
pub(crate) struct Discovered {
    /// The vertices, in ascending order of GUID and port. The states in `seen` have the same order.
    vertices: Vec<Vertex>,
    seen: PageList<SeenState>,
    too_far: u64,
}

impl Model for Discovered {
    ghost use Rattle.std.specs.Prelude.{◌-◌};
    ghost use Rattle.std.specs.Vec.{vec_capacity, vec_len};
    ghost use Rattle.sweep.specs.Discovered.{Discovered};

    ghost Value = { Discovered };

    ghost view = { λ a. record {
      reached = a.vertices.items;
      states = a.seen.items;
      too_far = a.too_far;
      vertex_room = vec_capacity a.vertices - vec_len a.vertices;
      state_room = a.seen.room;
    } };
}

/// Returns the index of the vertex of `guid` and `port`, or where it would be inserted. Does a binary search.
fn vertex_index(vertices: &[Vertex], guid: Guid, port: PortNum) -> usize
    requires { AreInOrder vertex_key vertices.now }
    ensures { IsIndexFor vertex_key (guid, port) vertices.now result }
{
    vertices.partition_point(|vertex| is_before((vertex.guid, vertex.port), (guid, port)))
}

fn vertex_in(vertices: &[Vertex], index: usize) -> Option<&Vertex>
    ensures { option_copied result ≡ slice_get vertices.now index }
{
    vertices.get(index)
}

fn state_of(seen: Option<SeenState>) -> Option<PortState>
    ensures { result ≡ option_map (λ p. p.state) seen }
{
    match seen {
        Some(seen) => Some(seen.state),
        None => None,
    }
}

/// Returns whether there is a vertex at `index`, and it has `guid` and `port`.
fn is_vertex(vertices: &[Vertex], index: usize, guid: Guid, port: PortNum) -> bool
    ensures { result ≡ passes_at (has_key vertex_key guid port) vertices.now index }
{
    match vertices.get(index) {
        Some(vertex) => vertex.guid == guid && vertex.port == port,
        None => false,
    }
}

/// Returns whether there is a vertex at `index`, and it has `guid`.
fn is_vertex_of(vertices: &[Vertex], index: usize, guid: Guid) -> bool
    ensures { result ≡ passes_at (λ r. r.guid == guid) vertices.now index }
{
    match vertices.get(index) {
        Some(vertex) => vertex.guid == guid,
        None => false,
    }
}

fn first_of(vertices: &[Vertex], guid: Guid) -> Option<&Vertex>
    requires { AreInOrder vertex_key vertices.now }
    ensures { option_copied result ≡ first_vertex vertices.now guid }
{
    let index = vertex_index(vertices, guid, PortNum::MANAGEMENT);
    if is_vertex_of(vertices, index, guid) {
        vertex_in(vertices, index)
    } else {
        None
    }
}

fn vertex_at(vertices: &[Vertex], guid: Guid, port: PortNum) -> Option<&Vertex>
    requires { AreInOrder vertex_key vertices.now }
    ensures { option_copied result ≡ vertex_at vertices.now guid port }
{
    let index = vertex_index(vertices, guid, port);
    if is_vertex(vertices, index, guid, port) {
        vertex_in(vertices, index)
    } else {
        None
    }
}

impl Discovered {
    /// Creates an empty collection. Does not allocate.
    pub(crate) fn new(alloc: Global) -> Self
        ensures reached { result.reached ≡ [] }
        ensures states { result.states ≡ [] }
        ensures too_far { result.too_far ≡ 0 }
    {
        Discovered {
            vertices: Vec::new(alloc),
            seen: PageList::new(alloc),
            too_far: 0,
        }
    }

    pub(crate) fn too_far(&self) -> u64
        ensures { result ≡ self.now.too_far }
    {
        self.too_far
    }

    pub(crate) fn vertices(&self) -> &[Vertex]
        ensures { result.now ≡ self.now.reached }
    {
        &self.vertices
    }

    /// Reserves memory for one more vertex and one more state.
    pub(crate) fn reserve(&mut self) -> Result<(), AllocError>
        ensures reached { self.new.reached ≡ self.old.reached }
        ensures states { self.new.states ≡ self.old.states }
        ensures too_far { self.new.too_far ≡ self.old.too_far }
        ensures vertex_room { OnOk result (1 ≤ self.new.vertex_room) }
        ensures state_room { OnOk result (1 ≤ self.new.state_room) }
    {
        self.vertices.reserve(1)?;
        self.seen.reserve(1)
    }

    /// Returns the first vertex of the node `guid`, or `None` if the node was not reached. Does a binary search.
    pub(crate) fn first_of(&self, guid: Guid) -> Option<&Vertex>
        requires { AreInOrder vertex_key self.now.reached }
        ensures { option_copied result ≡ first_vertex self.now.reached guid }
    {
        first_of(&self.vertices, guid)
    }

    /// Returns the vertex with `guid` and `port`, or `None` if it was not reached. Does a binary search.
    pub(crate) fn vertex(&self, guid: Guid, port: PortNum) -> Option<&Vertex>
        requires { AreInOrder vertex_key self.now.reached }
        ensures { option_copied result ≡ vertex_at self.now.reached guid port }
    {
        vertex_at(&self.vertices, guid, port)
    }

    /// Returns the state of `port` of the node `guid`, or `None` if none was seen. Does a binary search.
    pub(crate) fn state(&self, guid: Guid, port: PortNum) -> Option<PortState>
        requires { AreInOrder state_key self.now.states }
        ensures { result ≡ state_at self.now.states guid port }
    {
        state_of(item_at(&self.seen, guid, port))
    }

    /// Adds the vertex or the state of `finding`, unless there is one for the same GUID and port already. Counts the
    /// port if it leads too far. Does not allocate.
    pub(crate) fn put(&mut self, finding: Finding)
        requires reached { AreInOrder vertex_key self.old.reached }
        requires states { AreInOrder state_key self.old.states }
        requires vertex_room { 1 ≤ self.old.vertex_room }
        requires state_room { 1 ≤ self.old.state_room }
        requires countable { self.old.too_far < 2 ^ 32 }
        ensures reached { self.new.reached ≡ with_vertex finding self.old.reached }
        ensures states { self.new.states ≡ with_state finding self.old.states }
        ensures too_far { self.new.too_far ≡ self.old.too_far + too_far_by finding }
    {
        match finding {
            Finding::Nothing => {}
            Finding::NewVertex(vertex) => put_vertex(&mut self.vertices, vertex),
            Finding::Port(found) => {
                put_state_of(&mut self.seen, &found);
                if found.onward == Onward::TooFar {
                    self.too_far += 1;
                }
            }
        }
    }
}

/// Inserts `vertex` in its order, unless there is a vertex with the same GUID and port already.
fn put_vertex(vertices: &mut Vec<Vertex>, vertex: Vertex)
    requires order { AreInOrder vertex_key vertices.old.items }
    requires room { vec_len vertices.old < vec_capacity vertices.old }
    ensures { vertices.new.items ≡ placed vertex_key vertex vertices.old.items }
{
    let index = vertex_index(vertices, vertex.guid, vertex.port);
    if is_vertex(vertices, index, vertex.guid, vertex.port) {
        return;
    }
    match vertices.insert(index, vertex) {
        Ok(()) => {}
        Err(_) => unreachable!(),
    }
}

/// Inserts the state in `found` in its order, unless the state is `None` or the port has a state already.
fn put_state_of(states: &mut PageList<SeenState>, found: &PortFinding)
    requires order { AreInOrder state_key states.old.items }
    requires room { 0 < states.old.room }
    ensures { states.new.items
        ≡ with_state_of found.now.guid found.now.port found.now.state states.old.items }
{
    if let Some(state) = found.state {
        let (guid, port) = (found.guid, found.port);
        put(states, SeenState { guid, port, state });
    }
}
