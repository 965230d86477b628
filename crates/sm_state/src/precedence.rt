ghost use Rattle.std.specs.Prelude.{◌≡◌};
ghost use Rattle.sm_state.specs.Precedence.{wins};

use attr_codec::SmInfo;

/// Returns whether `one` wins over `other`: it has the greater priority or, at equal priority, the lesser port GUID
/// (subnet management, subnet manager: priorities).
pub fn wins(one: &SmInfo, other: &SmInfo) -> bool
    ensures { result ≡ wins one.now other.now }
{
    one.priority > other.priority || (one.priority == other.priority && one.guid < other.guid)
}
