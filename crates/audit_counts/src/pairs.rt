ghost use Rattle.std.specs.Prelude.{◌≤◌, [], OnOk};

use std::alloc::AllocError;

/// The number of packets, and how many of them arrive.
#[derive(Clone, Copy, Debug, PartialEq, Eq)]
pub struct Pairs {
    pub sent: u64,
    pub arrived: u64,
    ghost in_range: { arrived ≤ sent },
}

impl Pairs {
    ghost use Rattle.audit_counts.specs.Pairs.{ArePairs, ArePairsIf, ArePairsWithArrived};

    /// Creates counts of 0.
    pub(crate) fn new() -> Self
        ensures { ArePairs [] result }
    {
        Pairs {
            sent: 0,
            arrived: 0,
        }
    }

    /// Counts one packet, as arrived if `arrives`, if `is_one`. Returns an error if the count does not fit in 64 bits.
    pub(crate) fn add(&mut self, is_one: bool, arrives: bool) -> Result<(), AllocError>
        ensures { OnOk result (ArePairsIf self.old is_one arrives self.new) }
    {
        if !is_one {
            return Ok(());
        }
        self.sent = self.sent.checked_add(1).ok_or(AllocError)?;
        if arrives {
            self.arrived += 1;
        }
        Ok(())
    }

    /// Adds `count` packets, all as arrived. Returns an error if the count does not fit in 64 bits.
    pub(crate) fn add_arrived(&mut self, count: u64) -> Result<(), AllocError>
        ensures { OnOk result (ArePairsWithArrived self.old count self.new) }
    {
        self.sent = self.sent.checked_add(count).ok_or(AllocError)?;
        self.arrived += count;
        Ok(())
    }
}
