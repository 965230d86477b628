//! How many lines of each kind are written.
ghost use Rattle.std.specs.Prelude.{◌≡◌};
ghost use Rattle.audit_report.specs.LineLimit.{most_lines};

/// The maximum number of lines of each kind if not all lines are asked for.
const MOST_TOLD: usize = 20;

/// Returns the maximum number of lines of each kind that are written: 20, or 2^64 - 1 if `all` is true.
pub fn most_lines(all: bool) -> usize
    ensures { result ≡ most_lines all }
{
    if all { usize::MAX } else { MOST_TOLD }
}
