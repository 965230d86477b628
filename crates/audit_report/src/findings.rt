ghost use Rattle.std.specs.Prelude.{◌≡◌, ◌↔◌, IfOk, IsTrue, map};
ghost use Rattle.fact_store.specs.View.{cells_of};
ghost use Rattle.audit_channels.specs.ChannelOrders.{CanRise, IsCycleIfAny, NoneShorter};
ghost use Rattle.audit_channels.specs.Waiting.{WaitsFor};
ghost use Rattle.audit_counts.specs.Figures.{figures_of};
ghost use Rattle.audit_counts.specs.Ways.{AreKnownToArrive, AreWayFigures, loads_of};
ghost use Rattle.audit_counts.specs.Packets.{packets_of};
ghost use Rattle.audit_counts.specs.Site.{site_of};
ghost use Rattle.subnet_view.specs.EndPort.{end_ports};
ghost use Rattle.audit_counts.specs.PacketTally.{IsTally};
ghost use Rattle.audit_counts.specs.Unmatched.{IsUnmatched};
ghost use Rattle.audit_report.specs.Passing.{EachArrives, EachHasTables, EachHoldsLid, EachNodeIsKnown};
ghost use Rattle.audit_report.specs.Passing.{IsFound, is_within};

use audit_channels::{channel_order, cycle_in};
use audit_counts::{
    Figures, PacketTally, Site, Unmatched, WayFigures, disputed, figures_of_ways_known, sites,
    survey,
};
use fact_store::Refused;
use held_tables::{Held, WiredSubnet};
use packet_walks::Network;
use std::alloc::{AllocError, Global};
use std::marker::Model;

/// An audit: the network of the tables that switches hold, and what was found in it.
#[derive(Drop)]
pub struct Audit<'a> {
    /// The maximum number of lines that are kept of each kind.
    most: usize,
    pub(crate) network: Network<'a>,
    pub(crate) findings: Findings,
}

/// What an audit finds in a network.
#[derive(Drop)]
pub(crate) struct Findings {
    pub(crate) tally: PacketTally,
    pub(crate) unmatched: Unmatched,
    /// The number of disputed facts.
    pub(crate) disputed: usize,
    /// The figures of the wires that packets between adapter ports take, and of the loads of channels.
    pub(crate) ways: WayFigures,
    /// The channels of a shortest credit loop; empty if there is no credit loop.
    pub(crate) cycle: Vec<usize>,
    /// Where the end ports lie, in the order of the end ports.
    sites: Vec<Site>,
}

impl<'a> Model for Audit<'a> {
    ghost use Rattle.audit_report.specs.Passing.{Audited, audited_code, IsFound};

    ghost Value = { Audited };

    ghost coded = { audited_code };

    ghost view = { λ a. record {
      most = a.most;
      facts = a.network.facts;
      held = a.network.held;
      cycle = a.findings.cycle.items;
    } };

    ghost invariant = { λ a. IsFound a.most a.network a.findings.tally a.findings.unmatched a.findings.disputed
        a.findings.ways a.findings.cycle.items a.findings.sites.items };
}

impl<'a> Audit<'a> {
    /// Audits the tables `held` in the subnet `wired`. Follows the packets for each held LID from every end port in the component
    /// of the LID's owner. Counts the wires and channels that packets between adapter ports take, and looks for a
    /// shortest credit loop. Keeps the first `most` lines of each kind.
    ///
    /// For each LID, takes the time of `LidCursor::go_to`, and twice that of `LidCursor::edges`. If the deliveries do
    /// not show that all packets for a LID arrive, also takes the time of `LidCursor::ends`, and twice this time if
    /// not all of the packets are delivered at the LID's port.
    pub fn of(
        alloc: Global,
        most: usize,
        wired: &'a WiredSubnet<'a>,
        held: &'a Held,
    ) -> Result<Self, Refused>
        ensures most { IfOk result (λ audit. audit.most ≡ most) }
        ensures facts { IfOk result (λ audit. audit.facts ≡ wired.now) }
        ensures held { IfOk result (λ audit. audit.held ≡ held.now) }
        ensures cycle { IfOk result (λ audit.
            IsCycleIfAny (WaitsFor (cells_of wired.now) held.now) audit.cycle) }
        ensures shortest { IfOk result (λ audit.
            NoneShorter (WaitsFor (cells_of wired.now) held.now) audit.cycle) }
    {
        let network = Network::of(alloc, wired, held)?;
        let findings = findings_of(alloc, most, &network)?;
        Ok(Audit {
            most,
            network,
            findings,
        })
    }

    /// Returns whether the greatest load of a channel is at most `bound`. Returns true if there is no bound or no
    /// channel. The load of a channel counts the delivered packets that take it, one from each adapter port to each LID
    /// of another adapter port.
    pub fn is_within(&self, bound: Option<u64>) -> bool
        ensures { result ≡ is_within bound (figures_of (loads_of (cells_of self.now.facts) self.now.held)) }
    {
        is_within(bound, &self.findings.ways.load)
    }

    /// Returns whether the type of each node that the facts name is known and, for a switch, the table room too.
    pub fn has_nodes(&self) -> bool
        ensures { IsTrue result ↔ EachNodeIsKnown (cells_of self.now.facts) }
    {
        self.findings.unmatched.unusable.count() == 0
    }

    /// Returns whether each end port of the facts holds a LID.
    pub fn has_lids(&self) -> bool
        ensures { IsTrue result ↔ EachHoldsLid (cells_of self.now.facts) self.now.held }
    {
        self.findings.unmatched.lidless.count() == 0
    }

    /// Returns whether the audit finds that each usable switch of the facts has tables, or that the facts have no end
    /// port.
    pub fn has_tables(&self) -> bool
        ensures { IsTrue result ↔ EachHasTables (cells_of self.now.facts) self.now.held }
    {
        self.findings.unmatched.tableless.count() == 0 || self.network.sources().is_empty()
    }

    /// Returns whether channels can be numbered so that the numbers rise along the route of every packet. If so, there
    /// is no credit loop. Takes constant time.
    pub fn can_rise(&self) -> bool
        ensures { IsTrue result ↔ CanRise (WaitsFor (cells_of self.now.facts) self.now.held) }
    {
        self.findings.cycle.is_empty()
    }

    /// Returns whether each packet for a held LID, sent by an end port in the component of the LID's owner, is
    /// delivered at that owner.
    pub fn all_arrive(&self) -> bool
        ensures { IsTrue result ↔ EachArrives (cells_of self.now.facts) self.now.held }
    {
        self.findings.tally.all.arrived == self.findings.tally.all.sent
    }

    /// Returns the sites of the end ports, in the order of the end ports.
    pub fn sites(&self) -> &[Site]
        ensures { result.now
            ≡ map (site_of (cells_of self.now.facts)) (end_ports (cells_of self.now.facts)) }
    {
        &self.findings.sites
    }

    /// Returns the network of the audit.
    pub fn network(&self) -> &Network<'a>
        ensures facts { result.now.facts ≡ self.now.facts }
        ensures held { result.now.held ≡ self.now.held }
    {
        &self.network
    }
}

/// Returns whether the greatest load in `load` is at most `bound`. Returns true if `bound` or `load` is `None`.
fn is_within(bound: Option<u64>, load: &Option<Figures>) -> bool
    ensures { result ≡ is_within bound load.now }
{
    match (bound, load) {
        (Some(bound), Some(load)) => load.most <= bound,
        _ => true,
    }
}

/// Collects what an audit finds in `network`. Keeps the first `most` lines of each kind.
fn findings_of(alloc: Global, most: usize, network: &Network) -> Result<Findings, Refused>
    ensures found { IfOk result (λ f. IsFound most network.now f.tally f.unmatched f.disputed f.ways f.cycle.items
        f.sites.items) }
    ensures shortest { IfOk result (λ f.
        NoneShorter (WaitsFor (cells_of network.now.facts) network.now.held) f.cycle.items) }
{
    let sites = sites(alloc, network.subnet())?;
    let (tally, ways) = packets_and_ways(alloc, most, network, &sites)?;
    let (unmatched, cycle) = unmatched_and_cycle(alloc, most, network)?;
    let disputed = disputed(network.subnet().store());
    Ok(Findings {
        tally,
        unmatched,
        disputed,
        ways,
        cycle,
        sites,
    })
}

/// Counts the packets, and computes the figures of the wires and channels that packets between adapter ports take.
/// `sites` must be the sites of the end ports, in the order of the end ports.
fn packets_and_ways(
    alloc: Global,
    most: usize,
    network: &Network,
    sites: &[Site],
) -> Result<(PacketTally, WayFigures), Refused>
    requires { sites.now ≡ map (site_of (cells_of network.now.facts)) (end_ports (cells_of network.now.facts)) }
    ensures tally { IfOk result (λ both.
        IsTally most (packets_of (cells_of network.now.facts) network.now.held) both.0) }
    ensures ways { IfOk result (λ both. AreWayFigures (cells_of network.now.facts) network.now.held both.1) }
{
    let survey = survey(alloc, most, network, sites)?;
    let ways = figures_of_ways_known(alloc, network, &survey.told)?;
    Ok((survey.tally, ways))
}

/// Returns where tables and facts differ, and the channels of a shortest credit loop, if there is one.
fn unmatched_and_cycle(
    alloc: Global,
    most: usize,
    network: &Network,
) -> Result<(Unmatched, Vec<usize>), Refused>
    ensures unmatched { IfOk result (λ both. IsUnmatched most (cells_of network.now.facts) network.now.held both.0) }
    ensures cycle { IfOk result (λ both.
        IsCycleIfAny (WaitsFor (cells_of network.now.facts) network.now.held) both.1.items) }
    ensures shortest { IfOk result (λ both.
        NoneShorter (WaitsFor (cells_of network.now.facts) network.now.held) both.1.items) }
{
    let unmatched = Unmatched::of(alloc, most, network)?;
    let cycle = cycle_of(alloc, network)?;
    Ok((unmatched, cycle))
}

/// Returns the channels of a shortest credit loop, or an empty list if there is no credit loop.
fn cycle_of(alloc: Global, network: &Network) -> Result<Vec<usize>, AllocError>
    ensures cycle { IfOk result (λ cycle.
        IsCycleIfAny (WaitsFor (cells_of network.now.facts) network.now.held) cycle.items) }
    ensures shortest { IfOk result (λ cycle.
        NoneShorter (WaitsFor (cells_of network.now.facts) network.now.held) cycle.items) }
{
    let order = channel_order(alloc, network)?;
    Ok(cycle_in(alloc, order))
}
