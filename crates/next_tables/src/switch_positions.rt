//! Which channels lead up and which lead down, according to the positions of the switches in an order.
ghost use Rattle.std.specs.Prelude.{◌≡◌};
ghost use Rattle.next_tables.specs.SwitchPositions.{is_down, is_up, position_at};

/// Returns whether a channel from the switch at `from` to the switch at `to` leads up: to a position that is no later.
pub fn is_up(positions: &[usize], from: usize, to: usize) -> bool
    ensures { result ≡ is_up (position_at positions.now) from to }
{
    position(positions, to) <= position(positions, from)
}

/// Returns whether a channel from the switch at `from` to the switch at `to` leads down: to a position that is no
/// earlier.
pub fn is_down(positions: &[usize], from: usize, to: usize) -> bool
    ensures { result ≡ is_down (position_at positions.now) from to }
{
    position(positions, from) <= position(positions, to)
}

/// Returns the position of the switch at `index`, or 0 if there is none.
fn position(positions: &[usize], index: usize) -> usize
    ensures { result ≡ position_at positions.now index }
{
    positions.get(index).copied().unwrap_or(0)
}
