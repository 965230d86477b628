ghost use Rattle.std.specs.Prelude.{◌≡◌};
ghost use Rattle.sa_answers.specs.Reply.{refusal_status};

use sa_bytes::{MemberRecord, NodeRecord, PathRecord, PortInfoRecord, SaStatus};

/// Why a request is refused.
#[derive(Clone, Copy, Debug, PartialEq, Eq)]
pub enum SaRefusal {
    /// The method is not supported for the attribute.
    NotSupported,
    /// No record is as the request asks.
    NoRecords,
    /// More than one record is as a request for one asks.
    TooManyRecords,
    /// The request names only one end of the path, or none, or no end port whose ports it asks for, or it lacks what a
    /// group needs.
    InsufficientComponents,
    /// The GID of a group is no multicast GID, or that of a port is not that of an adapter in the plan.
    InvalidGid,
    /// The group cannot be as the request asks.
    InvalidRequest,
}

impl SaRefusal {
    /// Returns the status that says so.
    pub fn status(self) -> SaStatus
        ensures { result.0 ≡ refusal_status self }
    {
        match self {
            SaRefusal::NotSupported => SaStatus::METHOD_AND_ATTRIBUTE_NOT_SUPPORTED,
            SaRefusal::NoRecords => SaStatus::NO_RECORDS,
            SaRefusal::TooManyRecords => SaStatus::TOO_MANY_RECORDS,
            SaRefusal::InsufficientComponents => SaStatus::INSUFFICIENT_COMPONENTS,
            SaRefusal::InvalidGid => SaStatus::INVALID_GID,
            SaRefusal::InvalidRequest => SaStatus::INVALID_REQUEST,
        }
    }
}

/// What is answered to a request.
#[derive(Clone, Copy, Debug, PartialEq, Eq)]
pub enum Reply {
    Refused(SaRefusal),
    /// What subnet administration tells of itself.
    Info,
    Path(PathRecord),
    Node(NodeRecord),
    Port(PortInfoRecord),
    Member(MemberRecord),
    /// A table without a record.
    Empty,
}
