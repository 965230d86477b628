/// How far the last sweep has come.
#[derive(Clone, Copy, Debug, PartialEq, Eq)]
pub enum Progress {
    /// No sweep has begun.
    Never,
    Running {
        /// The number of requests that timed out.
        unanswered: u64,
        /// The number of ports through which the sweep did not go on because the path would have had more than 63
        /// hops.
        too_far: u64,
    },
    Done {
        unanswered: u64,
        too_far: u64,
    },
}
