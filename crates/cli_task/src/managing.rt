//! The manager that decides by itself.
use request_window::Limits;
use sm_cli::Serving;
use sm_policy::Timing;

/// The manager that decides by itself, and how it is paced.
#[derive(Clone, Copy, Debug, PartialEq, Eq)]
pub struct Managing {
    /// Where the manager sits, and how it plans.
    pub serving: Serving,
    /// When the manager does what.
    pub timing: Timing,
    /// How many requests of the manager are out at a time, and when and how often each is sent.
    pub limits: Limits,
    /// The newest generation that is known. Sweeps get generations above it.
    pub newest: u32,
}
