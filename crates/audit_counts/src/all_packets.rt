//! The counts of the packets for all held LIDs.
ghost use Rattle.std.specs.Prelude.{◌≡◌, ◌++◌, ℕ, [], true, Contains, IfOk, List, OnOk, count_by, map};
ghost use Rattle.fact_store.specs.View.{cells_of};
ghost use Rattle.subnet_view.specs.EndPort.{end_ports};
ghost use Rattle.audit_ways.specs.Ways.{AllComeTo, AreKnownToArrive};
ghost use Rattle.audit_counts.specs.declared.sent_packet.SentPacket.{SentPacket as Sent};
ghost use Rattle.audit_counts.specs.Packets.{packets_of, sent_to};
ghost use Rattle.audit_counts.specs.Site.{IsCensus, are_joined, are_joined_adapters, site_of};
ghost use Rattle.audit_counts.specs.PacketTally.{IsTally, IsWithArrived};

use crate::packet_tally::PacketTally;
use crate::sent_packet::SentPacket;
use crate::site::{Census, Site, census_of, index_of, joined_adapters, joined_count, site_in};
use held_tables::HeldLid;
use packet_walks::{LidCursor, Network};
use std::alloc::{AllocError, Global};

/// The counts of packets, and which lines (a held LID and its port) are known to get all their packets.
#[derive(Drop)]
pub struct PacketSurvey {
    pub tally: PacketTally,
    /// For each line, true only if all packets for the line's LID are delivered at the line's port.
    pub told: Vec<bool>,
}

/// Counts the packets that end ports send to the LIDs of their components. Keeps the first `most` packets of each
/// kind that do not arrive: lost, misdelivered and looping. `sites` must be the sites of the end ports, in the order
/// of the end ports. Takes the time of `LidCursor::go_to` for each LID. If the deliveries do not show that all
/// packets for a LID arrive, also takes the time of `LidCursor::ends` for that LID.
pub fn survey(
    alloc: Global,
    most: usize,
    network: &Network,
    sites: &[Site],
) -> Result<PacketSurvey, AllocError>
    requires { sites.now ≡ map (site_of (cells_of network.now.facts)) (end_ports (cells_of network.now.facts)) }
    ensures tally { IfOk result (λ survey.
        IsTally most (packets_of (cells_of network.now.facts) network.now.held) survey.tally) }
    ensures told { IfOk result (λ survey.
        AreKnownToArrive (cells_of network.now.facts) network.now.held survey.told.items) }
{
    let mut tally = PacketTally::new(alloc, most);
    let mut told = Vec::new(alloc);
    add_lines(alloc, &mut tally, &mut told, network, sites)?;
    Ok(PacketSurvey { tally, told })
}

/// Adds the packets for the LIDs of all lines to `tally`. Appends to `told` a flag for each line, which is true only if
/// all packets for its LID are delivered at its port.
fn add_lines(
    alloc: Global,
    tally: &mut PacketTally,
    told: &mut Vec<bool>,
    network: &Network,
    sites: &[Site],
) -> Result<(), AllocError>
    requires told { told.old.items ≡ [] }
    requires sites { sites.now
        ≡ map (site_of (cells_of network.now.facts)) (end_ports (cells_of network.now.facts)) }
    ensures tally { OnOk result
        ((most : ℕ) → IsTally most [] tally.old
        → IsTally most (packets_of (cells_of network.now.facts) network.now.held) tally.new) }
    ensures told { OnOk result (AreKnownToArrive (cells_of network.now.facts) network.now.held told.new.items) }
{
    let mut index = 0;
    let census = census_of(sites);
    let mut cursor = LidCursor::with_deliveries(alloc, network)?;
    for line in network.lids() {
        cursor.go_to(alloc, line.lid)?;
        index = index_of(sites, index, &line.port);
        let all = match site_in(sites, index) {
            Some(owner) => add_packets(alloc, tally, &cursor, sites, census, line, &owner)?,
            None => false,
        };
        told.push(all)?;
    }
    Ok(())
}

/// Adds to `tally` the packets that the end ports in the component of `owner` send to the LID of `line`. Returns true
/// only if all packets for this LID are delivered at the port of `line`.
fn add_packets(
    alloc: Global,
    tally: &mut PacketTally,
    cursor: &LidCursor,
    sites: &[Site],
    census: Census,
    line: &HeldLid,
    owner: &Site,
) -> Result<bool, AllocError>
    requires lid { cursor.now.lid ≡ line.now.lid }
    requires sites { sites.now
        ≡ map (site_of (cells_of cursor.now.seen.facts)) (end_ports (cells_of cursor.now.seen.facts)) }
    requires census { IsCensus sites.now census }
    requires listed { Contains sites.now owner.now }
    requires owner { owner.now ≡ site_of (cells_of cursor.now.seen.facts) line.now.port }
    ensures counted { OnOk result ((most : ℕ) (packets : List Sent) → IsTally most packets tally.old
        → IsTally most (packets ++ sent_to (cells_of cursor.now.seen.facts) cursor.now.seen.held line.now) tally.new) }
    ensures told { IfOk result (λ all.
        all ≡ true → AllComeTo (cells_of cursor.now.seen.facts) cursor.now.seen.held line.now) }
{
    if cursor.all_arrive(line) {
        add_arrived(tally, sites, census, owner)?;
        return Ok(true);
    }
    let ends = cursor.ends(alloc, line.port)?;
    match ends.first_elsewhere() {
        None => {
            add_arrived(tally, sites, census, owner)?;
            return Ok(true);
        }
        Some(_) => {}
    }
    for (index, site) in sites.iter().enumerate() {
        if site.is_joined_to(owner) {
            tally.add(SentPacket {
                line: *line,
                source: site.port,
                end: ends.at(index),
            })?;
        }
    }
    Ok(false)
}

/// Adds to `tally` the packets that the end ports in the component of `owner` send to its port, all as arrived.
fn add_arrived(
    tally: &mut PacketTally,
    sites: &[Site],
    census: Census,
    owner: &Site,
) -> Result<(), AllocError>
    requires census { IsCensus sites.now census }
    requires listed { Contains sites.now owner.now }
    ensures { OnOk result (IsWithArrived tally.old (count_by (λ site. are_joined site owner.now) sites.now)
        (count_by (λ site. are_joined_adapters site owner.now) sites.now) tally.new) }
{
    let count = joined_count(sites, owner, census) as u64;
    let between = joined_adapters(sites, owner, census) as u64;
    tally.add_arrived(count, between)
}
