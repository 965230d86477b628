//! The LIDs of a block whose packets arrive from every switch, found for all LIDs of the block at once.
ghost use Rattle.std.specs.Prelude.{◌≡◌, ◌<◌, ◌+◌, ◌*◌, [], IfOk, IfSome, OnOk, length, replicate, slice_set};
ghost use Rattle.packet_walks.specs.BlockDeliveries.{AreAfterRounds, AreDelivered, AreSeenBy, IsExit, IsWithExit};
ghost use Rattle.packet_walks.specs.BlockDeliveries.{IsWithHop, arrived_more, back_by, from_each, lids_at};
ghost use Rattle.packet_walks.specs.LidSet.{no_lids};
ghost use Rattle.packet_walks.specs.Deliveries.{is_delivered};

use crate::hops_by_tables::{entry_of, next_hop_at, switch_by};
use crate::lid_set::LidSet;
use crate::next_hop::NextHop;
use crate::packet_end::is_at;
use held_tables::{AuditedSwitch, Owner, sole_owner};
use smp_bytes::Lid;
use std::alloc::{AllocError, Global};
use subnet_view::EndPort;

/// LIDs of the same block. Exactly one end port holds each of these LIDs, and packets for the LID are seen to reach
/// this end port from every usable switch.
#[derive(Clone, Copy, Debug, PartialEq, Eq)]
pub(crate) struct Deliveries {
    /// The number of the block.
    pub(crate) number: u16,
    pub(crate) lids: LidSet,
}

impl Deliveries {
    /// Returns whether `lid` is one of the deliveries. Takes constant time.
    pub(crate) fn has(&self, lid: Lid) -> bool
        ensures { result ≡ is_delivered self.now lid }
    {
        lid.block() == self.number && self.lids.has(lid.in_block())
    }
}

/// LIDs of a block. For each of them, the switch at index `from` forwards packets to the switch at index `to`.
#[derive(Clone, Copy)]
pub(crate) struct Exit {
    pub(crate) from: usize,
    pub(crate) to: usize,
    pub(crate) lids: LidSet,
}

/// What is known so far about packets for the LIDs of a block.
#[derive(Drop)]
pub(crate) struct BlockWalks {
    /// For each switch, the LIDs that exactly one end port holds and whose packets are seen to reach that end port
    /// from the switch.
    pub(crate) arrived: Vec<LidSet>,
    /// The exits: which switch forwards packets to which next switch, and for which LIDs.
    pub(crate) exits: Vec<Exit>,
    /// For each switch, the index of the last exit that leads to it, or 0 if there is none.
    slots: Vec<usize>,
}

/// Blocks with this number or a greater one have no LIDs.
const NUMBERS: u16 = 0x400;

/// The maximum number of rounds in which arrivals are carried back. If a walk has more switches, arrivals may be
/// missed, depending on the order of its exits.
const MOST_ROUNDS: usize = 64;

/// Returns the LIDs of the block `number` that exactly one end port holds and whose packets reach this end port from
/// every switch. Can miss such LIDs if a walk has more than 64 switches.
pub(crate) fn delivered(
    alloc: Global,
    nodes: &[AuditedSwitch],
    owners: &[Owner],
    rows: &[[u8; 64]],
    number: u16,
) -> Result<LidSet, AllocError>
    ensures { IfOk result (AreDelivered nodes.now owners.now rows.now number) }
{
    if number >= NUMBERS {
        return Ok(LidSet::none());
    }
    let mut walks = BlockWalks::none(alloc, nodes.len())?;
    for switch in 0..nodes.len() {
        walks.add_switch(nodes, owners, rows, number, switch)?;
    }
    go_back(&mut walks.arrived, &walks.exits);
    Ok(from_each(&walks.arrived))
}

impl BlockWalks {
    /// Returns the walks from `count` switches, with nothing seen yet.
    fn none(alloc: Global, count: usize) -> Result<Self, AllocError>
        ensures arrived { IfOk result (λ walks. walks.arrived.items ≡ replicate count no_lids) }
        ensures exits { IfOk result (λ walks. walks.exits.items ≡ []) }
    {
        Ok(BlockWalks {
            arrived: vec![in alloc; LidSet::none(); count]?,
            exits: Vec::new(alloc),
            slots: vec![in alloc; 0usize; count]?,
        })
    }

    /// Adds what the switch at index `switch` does with packets for each LID of the block `number`.
    fn add_switch(
        &mut self,
        nodes: &[AuditedSwitch],
        owners: &[Owner],
        rows: &[[u8; 64]],
        number: u16,
        switch: usize,
    ) -> Result<(), AllocError>
        requires number { number < 1024 }
        requires switch { switch < length nodes.now }
        requires seen { AreSeenBy nodes.now owners.now rows.now number self.old.arrived.items self.old.exits.items }
        ensures { OnOk result
            (AreSeenBy nodes.now owners.now rows.now number self.new.arrived.items self.new.exits.items) }
    {
        for index in 0..64 {
            let lid = lid_at(number, index);
            let node = &nodes[switch];
            match switch_by(node, entry_of(rows, lid, node)) {
                Some(to) => add_exit(&mut self.exits, &mut self.slots, switch, to, index)?,
                None => self.add_last(nodes, owners, rows, number, switch, index)?,
            }
        }
        Ok(())
    }

    /// Adds what the switch at index `switch` does with packets for the LID at `index`, if one end port alone holds it.
    fn add_last(
        &mut self,
        nodes: &[AuditedSwitch],
        owners: &[Owner],
        rows: &[[u8; 64]],
        number: u16,
        switch: usize,
        index: usize,
    ) -> Result<(), AllocError>
        requires number { number < 1024 }
        requires switch { switch < length nodes.now }
        requires index { index < 64 }
        requires seen { AreSeenBy nodes.now owners.now rows.now number self.old.arrived.items self.old.exits.items }
        ensures { OnOk result
            (AreSeenBy nodes.now owners.now rows.now number self.new.arrived.items self.new.exits.items) }
    {
        let lid = lid_at(number, index);
        if let Some(port) = sole_owner(owners, lid) {
            let hop = next_hop_at(&[port], rows, lid, &nodes[switch]);
            self.add_hop(switch, index, &port, hop)?;
        }
        Ok(())
    }

    /// Adds the next hop `hop` of `switch` for the LID at `index`: an exit to a switch, or an arrival at `port`.
    fn add_hop(
        &mut self,
        switch: usize,
        index: usize,
        port: &EndPort,
        hop: NextHop,
    ) -> Result<(), AllocError>
        requires { index < 64 }
        ensures { OnOk result (IsWithHop self.old.arrived.items self.old.exits.items switch index port.now hop
            self.new.arrived.items self.new.exits.items) }
    {
        match hop {
            NextHop::To(to) => add_exit(&mut self.exits, &mut self.slots, switch, to, index),
            NextHop::Ends(end) => {
                if is_at(port, &Some(end)) {
                    add_lid(&mut self.arrived, switch, index);
                }
                Ok(())
            }
        }
    }
}

/// Returns the LID at `index` of the block `number`.
fn lid_at(number: u16, index: usize) -> Lid
    requires number { number < 1024 }
    requires index { index < 64 }
    ensures { result ≡ 64 * number + index }
{
    Lid::new(64 * number + index as u16)
}

/// Records that the switch `from` forwards packets for the LID at `index` to the switch `to`.
fn add_exit(
    exits: &mut Vec<Exit>,
    slots: &mut Vec<usize>,
    from: usize,
    to: usize,
    index: usize,
) -> Result<(), AllocError>
    requires { index < 64 }
    ensures { OnOk result (IsWithExit exits.old.items from to index exits.new.items) }
{
    let slot = slot_at(slots, to);
    if let Some(lids) = lids_of(exits, slot, from, to) {
        exits[slot] = Exit {
            from,
            to,
            lids: lids.with(index),
        };
        return Ok(());
    }
    put_slot(slots, to, exits.len());
    exits.push(Exit {
        from,
        to,
        lids: LidSet::none().with(index),
    })?;
    Ok(())
}

/// Returns the LIDs of the exit at `slot`, if there is one and it leads from `from` to `to`.
fn lids_of(exits: &[Exit], slot: usize, from: usize, to: usize) -> Option<LidSet>
    ensures { IfSome result (IsExit exits.now slot from to) }
{
    let exit = exits.get(slot)?;
    if exit.from == from && exit.to == to {
        Some(exit.lids)
    } else {
        None
    }
}

/// Returns the item of `slots` at `switch`, or 0 if there is no such item.
fn slot_at(slots: &[usize], switch: usize) -> usize {
    match slots.get(switch) {
        Some(slot) => *slot,
        None => 0,
    }
}

/// Sets the item of `slots` at `switch` to `slot`. Does nothing if there is no such item.
fn put_slot(slots: &mut Vec<usize>, switch: usize, slot: usize) {
    if switch < slots.len() {
        slots[switch] = slot;
    }
}

/// Records in `arrived` that packets for the LID at `index` reach its end port from `switch`, if there is one.
fn add_lid(arrived: &mut Vec<LidSet>, switch: usize, index: usize)
    requires { index < 64 }
    ensures { arrived.new.items ≡ arrived_more arrived.old.items switch index }
{
    let lids = lids_at(arrived, switch).with(index);
    put_lids(arrived, switch, lids);
}

/// Returns the LIDs whose packets are seen to arrive from `switch`, or the empty set if there is no such switch.
fn lids_at(arrived: &[LidSet], switch: usize) -> LidSet
    ensures { result ≡ lids_at arrived.now switch }
{
    match arrived.get(switch) {
        Some(lids) => *lids,
        None => LidSet::none(),
    }
}

/// Sets the LIDs whose packets are seen to arrive from `switch` to `lids`. Does nothing if there is no such switch.
fn put_lids(arrived: &mut Vec<LidSet>, switch: usize, lids: LidSet)
    ensures { arrived.new.items ≡ slice_set arrived.old.items switch lids }
{
    if switch < arrived.len() {
        arrived[switch] = lids;
    }
}

/// Carries arrivals back along the exits, in rounds, until nothing changes or 64 rounds are done.
fn go_back(arrived: &mut Vec<LidSet>, exits: &[Exit])
    ensures { AreAfterRounds exits.now arrived.old.items arrived.new.items }
{
    for _round in 0..MOST_ROUNDS {
        if !go_back_once(arrived, exits) {
            return;
        }
    }
}

/// Carries arrivals back along each exit once. Returns whether any LID was added.
fn go_back_once(arrived: &mut Vec<LidSet>, exits: &[Exit]) -> bool
    ensures { arrived.new.items ≡ back_by exits.now arrived.old.items }
{
    let mut more = false;
    for exit in exits {
        let before = lids_at(arrived, exit.from);
        let after = before.or(lids_at(arrived, exit.to).and(exit.lids));
        put_lids(arrived, exit.from, after);
        if after != before {
            more = true;
        }
    }
    more
}

/// Returns the LIDs that are in each set of `arrived`, or the empty set if there is no set.
fn from_each(arrived: &[LidSet]) -> LidSet
    ensures { result ≡ from_each arrived.now }
{
    let Some((first, later)) = arrived.split_first() else {
        return LidSet::none();
    };
    let mut lids = *first;
    for more in later {
        lids = lids.and(*more);
    }
    lids
}
