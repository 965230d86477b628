//! Whether tables are the same.
ghost use Rattle.std.specs.Prelude.{◌≡◌, ◌↔◌, IsTrue};

use held_tables::{Held, HeldBlock, HeldLid, HeldSwitch};

/// Returns whether both tables have the same LIDs, switches and blocks, each in the same order.
pub(crate) fn are_same_tables(one: &Held, other: &Held) -> bool
    ensures { IsTrue result ↔ (one.now ≡ other.now) }
{
    have_same_lids(one.lids(), other.lids())
        && have_same_switches(one.switches(), other.switches())
        && have_same_blocks(one.blocks(), other.blocks())
}

/// Returns whether both lists have the same LIDs with the same end ports, in the same order.
fn have_same_lids(one: &[HeldLid], other: &[HeldLid]) -> bool
    ensures { IsTrue result ↔ (one.now ≡ other.now) }
{
    one == other
}

/// Returns whether both lists have the same switches with the same tops, in the same order.
fn have_same_switches(one: &[HeldSwitch], other: &[HeldSwitch]) -> bool
    ensures { IsTrue result ↔ (one.now ≡ other.now) }
{
    one == other
}

/// Returns whether both lists have the same blocks, in the same order.
fn have_same_blocks(one: &[HeldBlock], other: &[HeldBlock]) -> bool
    ensures { IsTrue result ↔ (one.now ≡ other.now) }
{
    one == other
}
