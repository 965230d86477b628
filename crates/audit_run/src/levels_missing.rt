//! Packets without a service level.
ghost use Rattle.std.specs.Prelude.{◌≡◌, ◌++◌, ℕ, IfOk, List, OnOk, map};
ghost use Rattle.fact_store.specs.View.{cells_of};
ghost use Rattle.subnet_view.specs.EndPort.{end_ports};
ghost use Rattle.audit_counts.specs.FirstFew.{all_listed};
ghost use Rattle.audit_counts.specs.Site.{site_of};
ghost use Rattle.audit_run.specs.declared.levels_missing.PacketPair.{PacketPair as Pair};
ghost use Rattle.audit_run.specs.LevelRow.{missing_in_row, sender_lacks};
ghost use Rattle.audit_run.specs.LevelsMissing.{missing_levels};

use crate::level_row::{LevelRow, RowSender};
use audit_counts::{FirstFew, Site, are_adapters, index_of, site_in};
use held_tables::HeldLid;
use lanes_file::Lanes;
use packet_walks::{Network, is_same_end};
use smp_bytes::Lid;
use std::alloc::{AllocError, Global};
use subnet_view::EndPort;

/// A packet, given by the end port that sends it and by its LID.
#[derive(Clone, Copy, Debug, PartialEq, Eq)]
pub struct PacketPair {
    pub source: EndPort,
    pub lid: Lid,
}

/// Counts the packets without a service level that adapter ports send to the LIDs of other adapter ports of their
/// components. Keeps the first `most` packets, in the order of the held LIDs and then of the end ports. `sites` must be
/// the sites of the end ports, in the order of the end ports. Takes constant time if `lanes` has a line `level`, which
/// gives each packet a level. Otherwise takes the time of `LevelRow::of` each time that the next held LID is in another
/// block, and time linear in the number of held LIDs times the number of end ports.
#[tactic(auto, using(crate::proofs::NoneMissing::nothing_listed))]
pub fn pairs_without_level(
    alloc: Global,
    most: usize,
    network: &Network,
    sites: &[Site],
    lanes: &Lanes,
) -> Result<FirstFew<PacketPair>, AllocError>
    requires { sites.now ≡ map (site_of (cells_of network.now.facts)) (end_ports (cells_of network.now.facts)) }
    ensures { IfOk result (λ few. few
        ≡ all_listed most (missing_levels lanes.now (cells_of network.now.facts) network.now.held)) }
{
    if lanes.has_level_for_all() {
        return Ok(FirstFew::new(alloc, most));
    }
    pairs_at_sites(alloc, most, network, sites, lanes)
}

/// Counts the packets without a service level that adapter ports send to the LIDs of other adapter ports of their
/// components. Keeps the first `most` packets.
fn pairs_at_sites(
    alloc: Global,
    most: usize,
    network: &Network,
    sites: &[Site],
    lanes: &Lanes,
) -> Result<FirstFew<PacketPair>, AllocError>
    requires { sites.now ≡ map (site_of (cells_of network.now.facts)) (end_ports (cells_of network.now.facts)) }
    ensures { IfOk result (λ few. few
        ≡ all_listed most (missing_levels lanes.now (cells_of network.now.facts) network.now.held)) }
{
    let mut few = FirstFew::new(alloc, most);
    let mut index = 0;
    let mut row = LevelRow::of(alloc, lanes, sites, 0)?;
    for line in network.lids() {
        index = index_of(sites, index, &line.port);
        if let Some(owner) = site_in(sites, index) {
            row = row.turned_to(alloc, lanes, sites, line.lid.block())?;
            add_for(&mut few, lanes, &row.senders, line, &owner)?;
        }
    }
    Ok(few)
}

/// Adds to `few` the packets without a service level that `senders` send to the LID of `line`. `owner` is meant to be
/// the site of the end port of `line`. `senders` are meant to be those of the row for the block of the LID.
fn add_for(
    few: &mut FirstFew<PacketPair>,
    lanes: &Lanes,
    senders: &[RowSender],
    line: &HeldLid,
    owner: &Site,
) -> Result<(), AllocError>
    ensures { OnOk result ((most : ℕ) (pairs : List Pair) → few.old ≡ all_listed most pairs
        → few.new ≡ all_listed most (pairs ++ missing_in_row lanes.now senders.now line.now owner.now)) }
{
    for index in 0..senders.len() {
        let sender = &senders[index];
        if lacks_level(lanes, line, owner, sender) {
            few.add(PacketPair {
                source: sender.site.port,
                lid: line.lid,
            })?;
        }
    }
    Ok(())
}

/// Returns whether packets between the adapter ports of `sender` and `owner` for the LID of `line` have no level.
fn lacks_level(lanes: &Lanes, line: &HeldLid, owner: &Site, sender: &RowSender) -> bool
    ensures { result ≡ sender_lacks lanes.now line.now owner.now sender.now }
{
    let site = &sender.site;
    site.is_joined_to(owner)
        && are_adapters(&site.port, &owner.port)
        && !is_same_end(&site.port, &owner.port)
        && lanes.level_by(sender.block.as_ref(), line.lid).is_none()
}
