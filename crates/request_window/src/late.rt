use sm_manager::Outgoing;

/// What becomes of a request that has no answer in time.
#[derive(Clone, Copy, Debug)]
pub enum Late {
    /// The request is to be sent again.
    Again(Outgoing),
    /// The request was sent as often as it may be, and is no longer out.
    GivenUp(Outgoing),
}
