//! What a whole text says: the lanes of packets, the tables that switches hold, or switches.
ghost use Rattle.std.specs.Prelude.{List, ℕ, IfErr, IfOk};

use crate::text_fault::TextFault;
use lanes_file::Lanes;
use smp_bytes::Guid;
use std::alloc::Global;
use tables_file::Held;

/// What a text of some kind says.
pub trait FromText: Drop + Sized {
    ghost use Rattle.sm_cli.specs.declared.text_fault.TextFault.{TextFault};

    // The text has no fault, and says this.
    ghost says: { List ℕ → Self → Type 0 };

    // The text is refused for a fault: its first one, or lack of memory if it has none.
    ghost is_refused: { List ℕ → TextFault → Type 0 };

    /// Parses `text`.
    fn parse(alloc: Global, text: &[u8]) -> Result<Self, TextFault>
        ensures said { IfOk result (says text.now) }
        ensures refused { IfErr result (is_refused text.now) };
}

impl FromText for Lanes {
    ghost use Rattle.sm_cli.specs.FromText.{IsLanesFault, SaysLanes};

    ghost says = { λ text lanes. SaysLanes text lanes };

    ghost is_refused = { λ text fault. IsLanesFault text fault };

    fn parse(alloc: Global, text: &[u8]) -> Result<Lanes, TextFault> {
        match lanes_file::parse(alloc, text) {
            Ok(lanes) => Ok(lanes),
            Err(fault) => Err(TextFault::Lanes(fault)),
        }
    }
}

impl FromText for Held {
    ghost use Rattle.sm_cli.specs.FromText.{IsTablesFault, SaysTables};

    ghost says = { λ text held. SaysTables text held };

    ghost is_refused = { λ text fault. IsTablesFault text fault };

    fn parse(alloc: Global, text: &[u8]) -> Result<Held, TextFault> {
        match tables_file::parse(alloc, text) {
            Ok(held) => Ok(held),
            Err(fault) => Err(TextFault::Tables(fault)),
        }
    }
}

/// The switches of a text of roots or of an order, in the order of the text.
impl FromText for Vec<Guid> {
    ghost use Rattle.sm_cli.specs.FromText.{IsSwitchesFault, NamesSwitches};

    ghost says = { λ text switches. NamesSwitches text switches };

    ghost is_refused = { λ text fault. IsSwitchesFault text fault };

    fn parse(alloc: Global, text: &[u8]) -> Result<Vec<Guid>, TextFault> {
        match roots_file::parse(alloc, text) {
            Ok(switches) => Ok(switches),
            Err(fault) => Err(TextFault::Roots(fault)),
        }
    }
}
