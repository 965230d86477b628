ghost use Rattle.std.specs.Prelude.{◌≡◌, ◌+◌, [], OnOk};

use packet_walks::Cause;
use std::alloc::AllocError;

/// The number of packets that are lost for each cause.
#[derive(Clone, Copy, Debug, PartialEq, Eq)]
pub struct Causes {
    pub above_top: u64,
    pub no_entry: u64,
    pub no_port: u64,
    pub no_link: u64,
    pub foreign: u64,
}

impl Causes {
    ghost use Rattle.audit_counts.specs.CauseCounts.{AreCausesWith, causes_of};

    /// Creates counts of 0.
    pub(crate) fn new() -> Self
        ensures { result ≡ causes_of [] }
    {
        Causes {
            above_top: 0,
            no_entry: 0,
            no_port: 0,
            no_link: 0,
            foreign: 0,
        }
    }

    /// Adds one packet that is lost for `cause`. Returns an error if the count does not fit in 64 bits.
    pub(crate) fn add(&mut self, cause: Cause) -> Result<(), AllocError>
        ensures { OnOk result (AreCausesWith self.old cause self.new) }
    {
        match cause {
            Cause::AboveTop => add_one(&mut self.above_top),
            Cause::NoEntry => add_one(&mut self.no_entry),
            Cause::NoPort => add_one(&mut self.no_port),
            Cause::NoLink => add_one(&mut self.no_link),
            Cause::Foreign => add_one(&mut self.foreign),
        }
    }
}

/// Adds one to `count`. Returns an error if the sum does not fit in 64 bits.
fn add_one(count: &mut u64) -> Result<(), AllocError>
    ensures { OnOk result (count.new ≡ count.old + 1) }
{
    *count = count.checked_add(1).ok_or(AllocError)?;
    Ok(())
}
