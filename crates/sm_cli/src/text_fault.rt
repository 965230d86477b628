ghost use Rattle.std.specs.Prelude.{◌≡◌};

use schedule_file::ScheduleFault;
use smp_bytes::{Guid, Lid};
use thiserror::Error;
use topo_file::TopoFault;

/// Why a text is refused: the text of a topology, a schedule, tables, lanes, roots or an order.
#[derive(Clone, Copy, Debug, PartialEq, Eq, Error)]
pub enum TextFault {
    /// The text is not UTF-8.
    #[error("not UTF-8")]
    NotUtf8,
    /// The topology has a fault, or memory was refused while it was checked.
    #[error("{0}")]
    Topology(TopoFault),
    /// The schedule has a fault, or memory was refused while it was checked.
    #[error("{0}")]
    Schedule(ScheduleFault),
    /// The text of tables has a fault, or memory was refused while it was checked.
    #[error("{0}")]
    Tables(tables_file::TablesTextFault),
    /// The text of lanes has a fault, or memory was refused while it was checked.
    #[error("{0}")]
    Lanes(lanes_file::LanesTextFault),
    /// The text of roots or of an order has a fault, or memory was refused while it was checked.
    #[error("{0}")]
    Roots(roots_file::RootsTextFault),
    /// The text of roots names no root.
    #[error("no root")]
    NoRoot,
    /// The text names a root that is not a usable switch of the facts, or not a switch of the topology.
    #[error("no usable switch {0}")]
    NoSwitch(Guid),
    /// The tables give this LID to an end port, and the plan gives it to another.
    #[error("lid {} moves", .0.number())]
    Moves(Lid),
}

impl TextFault {
    ghost use Rattle.sm_cli.specs.TextFault.{text_fault_guid, text_fault_lid, text_fault_line, text_fault_word};
    ghost use Rattle.sm_cli.specs.TextFault.{is_of_text};

    /// Returns the line's number, counted from 1, if the fault concerns a line, and otherwise `None`.
    pub fn line(&self) -> Option<usize>
        ensures { result ≡ text_fault_line self.now }
    {
        match self {
            TextFault::NotUtf8 | TextFault::NoRoot | TextFault::NoSwitch(_) | TextFault::Moves(_) =>
                None,
            TextFault::Topology(fault) => fault.line(),
            TextFault::Schedule(fault) => fault.line(),
            TextFault::Tables(fault) => fault.line(),
            TextFault::Lanes(fault) => fault.line(),
            TextFault::Roots(fault) => fault.line(),
        }
    }

    /// Returns what the message says about the line if the fault concerns a line, and otherwise about the text.
    pub fn word(&self) -> &'static str
        ensures { result.now ≡ text_fault_word self.now }
    {
        match self {
            TextFault::NotUtf8 => "not UTF-8",
            TextFault::Topology(fault) => fault.word(),
            TextFault::Schedule(fault) => fault.word(),
            TextFault::Tables(fault) => fault.word(),
            TextFault::Lanes(fault) => fault.word(),
            TextFault::Roots(fault) => fault.word(),
            TextFault::NoRoot => "no root",
            TextFault::NoSwitch(_) => "no usable switch",
            TextFault::Moves(_) => "moves",
        }
    }

    /// Returns the GUID if the fault concerns one, and otherwise `None`.
    pub fn guid(&self) -> Option<Guid>
        ensures { result ≡ text_fault_guid self.now }
    {
        match self {
            TextFault::NoSwitch(guid) => Some(*guid),
            _ => None,
        }
    }

    /// Returns the LID if the fault concerns one, and otherwise `None`.
    pub fn lid(&self) -> Option<Lid>
        ensures { result ≡ text_fault_lid self.now }
    {
        match self {
            TextFault::Moves(lid) => Some(*lid),
            _ => None,
        }
    }

    /// Returns whether the text has the fault. Returns false if memory was refused.
    pub fn is_of_text(&self) -> bool
        ensures { result ≡ is_of_text self.now }
    {
        !matches!(
            self,
            TextFault::Topology(TopoFault::Memory)
                | TextFault::Schedule(ScheduleFault::Memory)
                | TextFault::Tables(tables_file::TablesTextFault::Memory)
                | TextFault::Lanes(lanes_file::LanesTextFault::Memory)
                | TextFault::Roots(roots_file::RootsTextFault::Memory)
        )
    }
}
