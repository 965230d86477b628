//! Which of the switches left may be the last of them.
ghost use Rattle.std.specs.Prelude.{◌≡◌};
ghost use Rattle.held_order.specs.LastByTurns.{IsNextBy, may_be_last, turns_in};
ghost use Rattle.held_order.specs.ToldOrder.{is_left};
ghost use Rattle.held_order.specs.Turns.{lists_of};

use crate::turns::SwitchTurn;

/// Returns the last switch in `preferred` that may be the last of those left, by the `turns` at each, or `None`.
pub(crate) fn last_of(
    turns: &[Vec<SwitchTurn>],
    preferred: &[usize],
    left: &[bool],
) -> Option<usize>
    ensures { IsNextBy (lists_of turns.now) preferred.now left.now result }
{
    for index in (0..preferred.len()).rev() {
        let switch = preferred[index];
        if may_be_last(turns, left, switch) {
            return Some(switch);
        }
    }
    None
}

/// Returns whether `switch` is left and none of its turns leads from a switch that is left to a switch that is left.
fn may_be_last(turns: &[Vec<SwitchTurn>], left: &[bool], switch: usize) -> bool
    ensures { result ≡ may_be_last (lists_of turns.now) left.now switch }
{
    is_left(left, switch)
        && match turns.get(switch) {
            Some(turns) => !turns_in(turns, left),
            None => true,
        }
}

/// Returns whether one of `turns` leads from a switch that is left to a switch that is left.
fn turns_in(turns: &[SwitchTurn], left: &[bool]) -> bool
    ensures { result ≡ turns_in left.now turns.now }
{
    turns
        .iter()
        .any(|turn| is_left(left, turn.from) && is_left(left, turn.to))
}

/// Returns whether the switch at `index` is left. Returns false if there is no such switch.
pub(crate) fn is_left(left: &[bool], index: usize) -> bool
    ensures { result ≡ is_left left.now index }
{
    left.get(index).copied().unwrap_or(false)
}
