use attr_codec::SmInfo;
use fact_store::Report;
use smp_bytes::{Guid, PortNum};

/// What an accepted reply contains.
#[derive(Clone, Copy, Debug)]
pub enum Answer {
    /// Facts: a report for a store to ingest.
    Facts(Report),
    /// The GUID of an adapter and its port at which a manager was asked, and the SMInfo that the manager answered
    /// with.
    Seen(Guid, PortNum, SmInfo),
}
