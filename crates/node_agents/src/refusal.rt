ghost use Rattle.std.specs.Prelude.{◌≡◌, ◌<◌, ◌^◌};
ghost use Rattle.node_agents.specs.Refusal.{status_of};

use smp_bytes::Status;

/// Why an agent refuses a request. The variants are in the order of the checks.
#[derive(Clone, Copy)]
pub(crate) enum Refusal {
    /// The method is neither Get nor Set.
    Method,
    /// The node does not have the attribute, or the request is a Set of an attribute that cannot be set.
    MethodAndAttribute,
    /// The attribute modifier or a field of the attribute has a value that the node cannot take.
    InvalidField,
}

impl Refusal {
    /// Returns the status of the answer to a request that is refused for this reason.
    pub(crate) fn status(self) -> Status
        ensures number { result.0 ≡ status_of self }
        ensures fits { result.0 < 2 ^ 15 }
    {
        match self {
            Refusal::Method => Status::METHOD_NOT_SUPPORTED,
            Refusal::MethodAndAttribute => Status::METHOD_AND_ATTRIBUTE_NOT_SUPPORTED,
            Refusal::InvalidField => Status::INVALID_FIELD,
        }
    }
}
