//! Differences between the held tables and the facts of the subnet, and gaps in the facts.
ghost use Rattle.std.specs.Prelude.{◌≡◌, IfOk};
ghost use Rattle.fact_store.specs.View.{cells_of};
ghost use Rattle.audit_counts.specs.Unmatched.{IsUnmatched, has_lid, is_held, lidless, lidless_among, tableless};
ghost use Rattle.audit_counts.specs.Unmatched.{tableless_among, twice, unjoined, unknown, unowned, unowned_among};
ghost use Rattle.audit_counts.specs.Unmatched.{unusable};

use crate::fact_gaps::{unjoined_ports, unusable_nodes};
use crate::first_few::FirstFew;
use fact_store::Store;
use held_tables::{Held, HeldLid};
use packet_walks::{Network, is_same_end};
use smp_bytes::Guid;
use std::alloc::{AllocError, Global};
use subnet_view::{EndPort, Wires, is_end_port, is_usable};

/// Differences between tables and facts, and gaps in the facts.
#[derive(Drop)]
pub struct Unmatched {
    /// Lines (a LID and the port that holds it) whose ports are not end ports of the facts.
    pub unowned: FirstFew<HeldLid>,
    /// Lines of LIDs that more than one end port holds.
    pub twice: FirstFew<HeldLid>,
    /// Switches that have tables but are not usable switches of the facts.
    pub unknown: FirstFew<Guid>,
    /// Usable switches without tables.
    pub tableless: FirstFew<Guid>,
    /// Nodes that the facts name but whose type is unknown, and switches whose table room is unknown.
    pub unusable: FirstFew<Guid>,
    /// End ports of the facts without a LID.
    pub lidless: FirstFew<EndPort>,
    /// Ports that the facts name but do not show to be down, to have a wire, or to be the end port of a switch.
    pub unjoined: FirstFew<EndPort>,
}

impl Unmatched {
    /// Compares the held tables of `network` with its facts, and counts the gaps in the facts. Keeps the first `most`
    /// items of each kind.
    pub fn of(alloc: Global, most: usize, network: &Network) -> Result<Self, AllocError>
        ensures { IfOk result (IsUnmatched most (cells_of network.now.facts) network.now.held) }
    {
        let (unowned, twice) = unowned_and_twice(alloc, most, network)?;
        let (unknown, tableless) = unknown_and_tableless(alloc, most, network)?;
        let lidless = lidless(alloc, most, network.held(), network.subnet().end_ports())?;
        let (unusable, unjoined) = unusable_and_unjoined(alloc, most, network.subnet().wires())?;
        Ok(Unmatched {
            unowned,
            twice,
            unknown,
            tableless,
            unusable,
            lidless,
            unjoined,
        })
    }
}

/// Counts the lines of LIDs whose ports are no end ports, and those of LIDs with several. Keeps `most` of each kind.
fn unowned_and_twice(
    alloc: Global,
    most: usize,
    network: &Network,
) -> Result<(FirstFew<HeldLid>, FirstFew<HeldLid>), AllocError>
    ensures unowned { IfOk result (λ both. both.0 ≡ unowned most (cells_of network.now.facts) network.now.held) }
    ensures twice { IfOk result (λ both. both.1 ≡ twice most network.now.held) }
{
    let unowned = unowned(alloc, most, network.lids(), network.subnet().store())?;
    let twice = twice(alloc, most, network)?;
    Ok((unowned, twice))
}

/// Counts the switches with tables that are not usable, and the usable ones without. Keeps `most` of each kind.
fn unknown_and_tableless(
    alloc: Global,
    most: usize,
    network: &Network,
) -> Result<(FirstFew<Guid>, FirstFew<Guid>), AllocError>
    ensures unknown { IfOk result (λ both. both.0 ≡ unknown most (cells_of network.now.facts) network.now.held) }
    ensures tableless { IfOk result (λ both. both.1 ≡ tableless most (cells_of network.now.facts) network.now.held) }
{
    let unknown = unknown(alloc, most, network.held(), network.subnet().store())?;
    let tableless = tableless(alloc, most, network.held(), network.subnet().switches())?;
    Ok((unknown, tableless))
}

/// Counts the unusable nodes and the unjoined ports that the facts name. Keeps the first `most` items of each kind.
fn unusable_and_unjoined(
    alloc: Global,
    most: usize,
    wires: &Wires,
) -> Result<(FirstFew<Guid>, FirstFew<EndPort>), AllocError>
    ensures unusable { IfOk result (λ both. both.0 ≡ unusable most (cells_of wires.now)) }
    ensures unjoined { IfOk result (λ both. both.1 ≡ unjoined most (cells_of wires.now)) }
{
    let unusable = unusable_of(alloc, most, wires.store())?;
    let unjoined = unjoined_of(alloc, most, wires)?;
    Ok((unusable, unjoined))
}

/// Counts the nodes that `unusable_nodes` finds, and keeps the first `most` of them.
fn unusable_of(alloc: Global, most: usize, store: &Store) -> Result<FirstFew<Guid>, AllocError>
    ensures { IfOk result (λ few. few ≡ unusable most (cells_of store.now)) }
{
    let guids = unusable_nodes(alloc, store)?;
    FirstFew::of(alloc, most, &guids)
}

/// Counts the ports that `unjoined_ports` finds, and keeps the first `most` of them.
fn unjoined_of(alloc: Global, most: usize, wires: &Wires) -> Result<FirstFew<EndPort>, AllocError>
    ensures { IfOk result (λ few. few ≡ unjoined most (cells_of wires.now)) }
{
    let ports = unjoined_ports(alloc, wires)?;
    FirstFew::of(alloc, most, &ports)
}

/// Counts those of `lines` whose ports are not end ports of the facts, and keeps the first `most` of them.
fn unowned(
    alloc: Global,
    most: usize,
    lines: &[HeldLid],
    store: &Store,
) -> Result<FirstFew<HeldLid>, AllocError>
    ensures { IfOk result (λ few. few ≡ unowned_among most (cells_of store.now) lines.now) }
{
    let mut few = FirstFew::new(alloc, most);
    for line in lines {
        if !is_end_port(store, line.port.node, line.port.port) {
            few.add(*line)?;
        }
    }
    Ok(few)
}

/// Counts the lines of the LIDs that more than one end port holds, and keeps the first `most` of them.
fn twice(alloc: Global, most: usize, network: &Network) -> Result<FirstFew<HeldLid>, AllocError>
    ensures { IfOk result (λ few. few ≡ twice most network.now.held) }
{
    let mut few = FirstFew::new(alloc, most);
    for line in network.lids() {
        if network.has_several_owners(line.lid) {
            few.add(*line)?;
        }
    }
    Ok(few)
}

/// Counts the switches of `held` that are not usable switches of the facts, and keeps the first `most` of them.
fn unknown(
    alloc: Global,
    most: usize,
    held: &Held,
    store: &Store,
) -> Result<FirstFew<Guid>, AllocError>
    ensures { IfOk result (λ few. few ≡ unknown most (cells_of store.now) held.now) }
{
    let mut few = FirstFew::new(alloc, most);
    for switch in held.switches() {
        if !is_usable(store, switch.guid) {
            few.add(switch.guid)?;
        }
    }
    Ok(few)
}

/// Counts the switches of `guids` that have no tables in `held`, and keeps the first `most` of them.
fn tableless(
    alloc: Global,
    most: usize,
    held: &Held,
    guids: &[Guid],
) -> Result<FirstFew<Guid>, AllocError>
    ensures { IfOk result (λ few. few ≡ tableless_among most guids.now held.now) }
{
    let mut few = FirstFew::new(alloc, most);
    for guid in guids {
        if !is_held(held, *guid) {
            few.add(*guid)?;
        }
    }
    Ok(few)
}

/// Returns whether the switch `guid` has tables in `held`.
fn is_held(held: &Held, guid: Guid) -> bool
    ensures { result ≡ is_held held.now guid }
{
    held.switches().iter().any(|switch| switch.guid == guid)
}

/// Counts the end ports of `ports` that have no LID in `held`, and keeps the first `most` of them.
fn lidless(
    alloc: Global,
    most: usize,
    held: &Held,
    ports: &[EndPort],
) -> Result<FirstFew<EndPort>, AllocError>
    ensures { IfOk result (λ few. few ≡ lidless_among most ports.now held.now) }
{
    let mut few = FirstFew::new(alloc, most);
    for port in ports {
        if !has_lid(held, port) {
            few.add(*port)?;
        }
    }
    Ok(few)
}

/// Returns whether a line of `held` gives `port` a LID.
fn has_lid(held: &Held, port: &EndPort) -> bool
    ensures { result ≡ has_lid held.now port.now }
{
    held.lids().iter().any(|line| is_same_end(port, &line.port))
}
