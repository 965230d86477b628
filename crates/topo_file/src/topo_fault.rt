ghost use Rattle.std.specs.Prelude.{◌≡◌};

use std::alloc::{AllocError, AllocFailed};
use std::error::Error;
use std::fmt;

/// Why a text is not a topology. All lines are checked, from the first to the last, and then all links. Lines are
/// counted from 1.
#[derive(Clone, Copy, Debug, PartialEq, Eq)]
pub enum TopoFault {
    /// The grammar has no such line, or the line is a link and there is no node above it.
    Syntax { line: usize },
    /// A node in an earlier line has the same name.
    Name { line: usize },
    /// A port count is not from 1 to 254, or a forwarding table's size is not from 1 to 49,152.
    Ports { line: usize },
    /// A link names a peer that is not a node of the text.
    Peer { line: usize },
    /// A port of a link is 0, or is above the port count of its node.
    Port { line: usize },
    /// A port of a link has another link.
    Linked { line: usize },
    /// The GUID of an adapter's last port does not fit in 64 bits.
    GuidRange { line: usize },
    /// The node is the 1,025th.
    TooManyNodes { line: usize },
    /// Memory ran out.
    Memory,
}

impl TopoFault {
    ghost use Rattle.topo_file.specs.TopoFault.{fault_word, fault_line};

    /// Returns the word that `{}` writes for the fault, without the line.
    pub fn word(self) -> &'static str
        ensures { result.now ≡ fault_word self }
    {
        match self {
            TopoFault::Syntax { .. } => "syntax",
            TopoFault::Name { .. } => "name",
            TopoFault::Ports { .. } => "ports",
            TopoFault::Peer { .. } => "peer",
            TopoFault::Port { .. } => "port",
            TopoFault::Linked { .. } => "linked",
            TopoFault::GuidRange { .. } => "guid",
            TopoFault::TooManyNodes { .. } => "too many nodes",
            TopoFault::Memory => "out of memory",
        }
    }

    /// Returns the number of the faulty line, counted from 1, or `None` if the fault is `Memory`.
    pub fn line(self) -> Option<usize>
        ensures { result ≡ fault_line self }
    {
        match self {
            TopoFault::Syntax { line }
            | TopoFault::Name { line }
            | TopoFault::Ports { line }
            | TopoFault::Peer { line }
            | TopoFault::Port { line }
            | TopoFault::Linked { line }
            | TopoFault::GuidRange { line }
            | TopoFault::TooManyNodes { line } => Some(line),
            TopoFault::Memory => None,
        }
    }
}

/// Writes the line and the word, as in `line 3: port`, or that memory ran out.
impl fmt::Display for TopoFault {
    ghost use Rattle.std.specs.Prelude.{Some};
    ghost use Rattle.topo_file.specs.TopoFault.{fault_text};

    ghost output = { λ fault. Some (fault_text fault) };

    fn fmt<W: fmt::Write>(&self, f: &mut fmt::Formatter<W>) -> fmt::Result {
        let word = self.word();
        match self.line() {
            Some(line) => write!(f, "line {line}: {word}"),
            None => f.write_str(word),
        }
    }
}

impl Error for TopoFault {}

impl From<AllocError> for TopoFault {
    ghost use Rattle.std.specs.Prelude.{◌≡◌};
    ghost use Rattle.topo_file.specs.declared.topo_fault.TopoFault.TheVariants.{Memory};

    ghost from_gives = { λ e fault. fault ≡ Memory };

    fn from(_: AllocError) -> Self {
        TopoFault::Memory
    }
}

impl<T: Drop> From<AllocFailed<T>> for TopoFault {
    ghost use Rattle.std.specs.Prelude.{◌≡◌};
    ghost use Rattle.topo_file.specs.declared.topo_fault.TopoFault.TheVariants.{Memory};

    ghost from_gives = { λ e fault. fault ≡ Memory };

    fn from(_: AllocFailed<T>) -> Self {
        TopoFault::Memory
    }
}
