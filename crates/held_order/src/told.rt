//! The order that tables imply.
ghost use Rattle.std.specs.Prelude.{◌≡◌, IfOk, replicate, true};
ghost use Rattle.std.specs.Option.{option_map};
ghost use Rattle.std.specs.List.{list_any};
ghost use Rattle.fact_store.specs.View.{cells_of};
ghost use Rattle.held_order.specs.ToldOrder.{IsImpliedOrder};

use crate::last_by_turns::last_of;
use crate::turns::turns;
use packet_walks::Network;
use std::alloc::{AllocError, Global};

/// Returns all usable switches in the order that the tables of `network` imply, from the last switch to the first.
/// Each switch is given by its index in ascending order of GUID. By this order, no packet for any LID goes down and
/// then up. Switches are taken one by one: each is the last switch in `preferred` that may be the last of the
/// switches left. Returns `None` if switches are left and none of `preferred` may be the last of them. Takes the time
/// that `channel_waits` takes and, for each switch that is taken, goes at most once through the turns at each switch
/// in `preferred`.
pub fn told_order(
    alloc: Global,
    network: &Network,
    preferred: &[usize],
) -> Result<Option<Vec<usize>>, AllocError>
    ensures { IfOk result (λ told. IsImpliedOrder (cells_of network.now.facts) network.now.held preferred.now
        (option_map (λ taken. taken.items) told)) }
{
    let turns = turns(alloc, network)?;
    let mut left = all_left(alloc, network.switch_count())?;
    let mut taken = Vec::new(alloc);
    let mut next = last_of(&turns, preferred, &left);
    while let Some(switch) = next {
        left[switch] = false;
        taken.push(switch)?;
        next = last_of(&turns, preferred, &left);
    }
    if is_any(&left) {
        return Ok(None);
    }
    Ok(Some(taken))
}

/// Returns a list of `count` flags, all true.
fn all_left(alloc: Global, count: usize) -> Result<Vec<bool>, AllocError>
    ensures { IfOk result (λ left. left.items ≡ replicate count true) }
{
    vec![in alloc; true; count]
}

/// Returns whether any flag in `left` is true.
fn is_any(left: &[bool]) -> bool
    ensures { result ≡ list_any (λ flag. flag) left.now }
{
    left.iter().any(|flag| *flag)
}
