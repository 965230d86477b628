ghost use Rattle.std.specs.Prelude.{◌≡◌, []};
ghost use Rattle.roots_file.specs.Reading.{root_more};
ghost use Rattle.roots_file.specs.RootsTextFault.{Reads};

use crate::roots_text_fault::{RootsLineFault, RootsTextError, RootsTextFault};
use smp_bytes::Guid;
use std::alloc::Global;
use std::collections::BTreeSet;
use std::marker::Model;

/// The roots of a text, in the order of their lines.
#[derive(Drop)]
pub(crate) struct Roots {
    guids: Vec<Guid>,
    /// The set of the roots, which finds repeated roots.
    seen: BTreeSet<Guid>,
}

impl Model for Roots {
    ghost use Rattle.std.specs.Prelude.{ℕ, List};
    ghost use Rattle.roots_file.specs.Seen.{HasSeen};

    ghost Value = { List ℕ };

    ghost view = { λ a. a.guids.items };

    ghost invariant = { λ a. HasSeen a.guids.items a.seen };
}

impl Roots {
    /// Creates an empty list of roots.
    pub(crate) fn new(alloc: Global) -> Self
        ensures { result ≡ [] }
    {
        Roots {
            guids: Vec::new(alloc),
            seen: BTreeSet::new(alloc),
        }
    }

    /// Appends `root`, which the line with the number `line` names. Takes time logarithmic in the number of roots.
    pub(crate) fn with(self, line: usize, root: Guid) -> Result<Self, RootsTextFault>
        ensures { Reads result (root_more line self root) }
    {
        let Roots {
            mut guids,
            mut seen,
        } = self;
        if !seen.insert(root)? {
            return Err(RootsTextFault::Line(RootsLineFault {
                line,
                wrong: RootsTextError::Repeated,
            }));
        }
        guids.push(root)?;
        Ok(Roots { guids, seen })
    }

    /// Returns the roots as a list.
    pub(crate) fn into_guids(self) -> Vec<Guid>
        ensures { result.items ≡ self }
    {
        self.guids
    }
}
