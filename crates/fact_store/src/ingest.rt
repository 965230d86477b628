ghost use Rattle.std.specs.Prelude.{◌≡◌, OnOk, OnErr};
ghost use Rattle.fact_store.specs.Merge.{merge};
ghost use Rattle.reply_facts.specs.Report.{sightings_of};
ghost use Rattle.fact_store.specs.View.{view};

use crate::store::Store;
use reply_facts::{Report, ReportFault, sightings};
use thiserror::Error;

/// Why a report was not added to a store.
#[derive(Clone, Copy, Debug, PartialEq, Eq, Error)]
pub enum IngestFault {
    #[error("{0}")]
    Report(ReportFault),
    /// Memory for the report's facts was refused.
    #[error("out of memory")]
    Memory,
}

impl Store {
    ghost use Rattle.smp_bytes.specs.Judges.{JudgesButFor};
    ghost use Rattle.fact_store.specs.Ingest.{ingest_fault, is_memory};

    /// Adds the facts of `report`, except those below the floor.
    ///
    /// # Errors
    ///
    /// Returns the report's first fault. Returns `Memory` if the report has no fault and memory runs out. Nothing
    /// changes in either case.
    pub fn ingest(&mut self, report: &Report) -> Result<(), IngestFault>
        ensures judged { JudgesButFor is_memory result (ingest_fault report.now) }
        ensures ok { OnOk result (self.new ≡ merge self.old (view (sightings_of report.now))) }
        ensures err { OnErr result (self.new ≡ self.old) }
    {
        let sightings = match sightings(report) {
            Ok(sightings) => sightings,
            Err(fault) => return Err(IngestFault::Report(fault)),
        };
        match self.add_all(sightings.as_slice()) {
            Ok(()) => Ok(()),
            Err(_) => Err(IngestFault::Memory),
        }
    }
}
