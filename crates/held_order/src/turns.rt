//! The turns that packets make at each switch.
ghost use Rattle.std.specs.Prelude.{◌≡◌, [], IfOk, OnOk, length, replicate};
ghost use Rattle.fact_store.specs.View.{cells_of};
ghost use Rattle.subnet_view.specs.Reading.{switches};
ghost use Rattle.audit_channels.specs.ChannelOrders.{AreWaits};
ghost use Rattle.audit_channels.specs.Waiting.{WaitsFor, channel_count};
ghost use Rattle.held_order.specs.Turns.{AreTurns, IsWithTurns, IsWithTurn, lists_of};

use audit_channels::{Waits, channel_waits};
use held_tables::Far;
use packet_walks::Network;
use std::alloc::{AllocError, Global};

/// A turn at a switch: packets for some LID come from the switch `from` and leave for the switch `to`, which may be
/// `from`.
#[derive(Clone, Copy, Debug, PartialEq, Eq)]
pub(crate) struct SwitchTurn {
    /// The index of the switch from which the packets come.
    pub from: usize,
    /// The index of the switch for which the packets leave.
    pub to: usize,
}

/// Returns the turns that packets make at each usable switch under the tables of `network`. Takes the time of
/// `channel_waits`, and time linear in the number of channels plus the pairs of a channel and one that follows it.
pub(crate) fn turns(alloc: Global, network: &Network) -> Result<Vec<Vec<SwitchTurn>>, AllocError>
    ensures { IfOk result (λ turns.
        AreTurns (cells_of network.now.facts) network.now.held (lists_of turns.items)) }
{
    let waits = channel_waits(alloc, network)?;
    turns_over(alloc, network, &waits)
}

/// Returns the turns at each usable switch: from a channel that leads there into one that follows it in `waits`.
fn turns_over(
    alloc: Global,
    network: &Network,
    waits: &Waits,
) -> Result<Vec<Vec<SwitchTurn>>, AllocError>
    requires { AreWaits (WaitsFor (cells_of network.now.facts) network.now.held)
        (channel_count (cells_of network.now.facts)) waits.now }
    ensures { IfOk result (λ turns.
        AreTurns (cells_of network.now.facts) network.now.held (lists_of turns.items)) }
{
    let mut turns = no_turns(alloc, network.switch_count())?;
    for channel in 0..waits.len() {
        add_turns(&mut turns, network, channel, waits.at(channel))?;
    }
    Ok(turns)
}

/// Returns `count` empty lists of turns.
fn no_turns(alloc: Global, count: usize) -> Result<Vec<Vec<SwitchTurn>>, AllocError>
    ensures { IfOk result (λ turns. lists_of turns.items ≡ replicate count []) }
{
    let mut turns = Vec::with_capacity(alloc, count)?;
    for _switch in 0..count {
        turns.push(Vec::new(alloc))?;
    }
    Ok(turns)
}

/// Adds the turn from `channel` into each channel of `following` whose wire leads to a usable switch.
fn add_turns(
    turns: &mut [Vec<SwitchTurn>],
    network: &Network,
    channel: usize,
    following: &[usize],
) -> Result<(), AllocError>
    requires { length turns.old ≡ length (switches (cells_of network.now.facts)) }
    ensures { OnOk result (IsWithTurns (cells_of network.now.facts) channel following.now
        (lists_of turns.old) (lists_of turns.new)) }
{
    for next in following {
        add_turn(turns, network, channel, *next)?;
    }
    Ok(())
}

/// Adds the turn from `channel` into `next`, if the wire of `next` leads to a usable switch.
fn add_turn(
    turns: &mut [Vec<SwitchTurn>],
    network: &Network,
    channel: usize,
    next: usize,
) -> Result<(), AllocError>
    requires { length turns.old ≡ length (switches (cells_of network.now.facts)) }
    ensures { OnOk result (IsWithTurn (cells_of network.now.facts) channel next
        (lists_of turns.old) (lists_of turns.new)) }
{
    if let Far::Switch(to) = network.far(next) {
        let from = channel / 256;
        turns[next / 256].push(SwitchTurn { from, to })?;
    }
    Ok(())
}
