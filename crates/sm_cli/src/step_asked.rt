//! What a step is asked for.
use crate::asked::RuleAsked;
use attr_codec::Lmc;

/// The options of a step.
#[derive(Clone, Copy, Debug, PartialEq, Eq)]
pub struct StepAsked {
    /// The LMC of the plan: each adapter port has 2^LMC LIDs.
    pub lmc: Lmc,
    /// The plan's rule of routing.
    pub rule: RuleAsked,
    /// Whether a text has the order of the last step.
    pub has_last: bool,
}
