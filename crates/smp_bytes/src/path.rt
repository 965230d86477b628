ghost use Rattle.std.specs.Prelude.{◌≡◌, ◌<◌, ◌≤◌, ◌↔◌, [], ◌∷◌, ◌++◌, length, IsTrue, slice_get};

use crate::port_num::PortNum;
use arrayvec::ArrayVec;
use std::marker::Model;

/// The path of a directed packet: at most `MAX` ports by which the packet leaves, in the order of its hops. Contracts
/// see the list of ports.
#[derive(Debug, Drop)]
pub struct Path<const MAX: usize> {
    ports: ArrayVec<u8, MAX>,
}

impl<const MAX: usize> Model for Path<MAX> {
    ghost use Rattle.std.specs.Prelude.{ℕ, List};

    ghost Value = { List ℕ };

    ghost view = { λ a. a.ports.items };
}

impl<const MAX: usize> Path<MAX> {
    /// Creates an empty path.
    pub fn new() -> Self
        ensures { result ≡ [] }
    {
        Path {
            ports: ArrayVec::new(),
        }
    }

    /// Returns a copy of the path.
    pub fn copy(&self) -> Self
        ensures { result ≡ self.now }
    {
        let mut ports = ArrayVec::new();
        match ports.try_extend_from_slice(self.ports.as_slice()) {
            Ok(()) => Path { ports },
            Err(_) => unreachable!(),
        }
    }

    /// Appends `port`. The path must have fewer than `MAX` ports.
    pub fn push(&mut self, port: PortNum)
        requires { length self.old < MAX }
        ensures { self.new ≡ self.old ++ port ∷ [] }
    {
        self.ports.push(port.number());
    }

    /// Returns the number of ports.
    pub fn len(&self) -> usize
        ensures exact { result ≡ length self.now }
        ensures within { result ≤ MAX }
    {
        self.ports.len()
    }

    /// Returns whether the path has no ports.
    pub fn is_empty(&self) -> bool
        ensures { IsTrue result ↔ (self.now ≡ []) }
    {
        self.ports.is_empty()
    }

    /// Returns whether the path has `MAX` ports.
    pub fn is_full(&self) -> bool
        ensures { IsTrue result ↔ (length self.now ≡ MAX) }
    {
        self.len() == MAX
    }

    /// Returns the port at index `i`, counted from 0, or `None` if the path has no port there.
    pub fn get(&self, i: usize) -> Option<PortNum>
        ensures { result ≡ slice_get self.now i }
    {
        self.ports.as_slice().get(i).map(|port| PortNum::new(*port))
    }

    pub(crate) fn as_bytes(&self) -> &[u8]
        ensures bytes { result.now ≡ self.now }
        ensures within { length result.now ≤ MAX }
    {
        self.ports.as_slice()
    }
}
