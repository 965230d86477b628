//! Where end ports lie, and which of them are in the same component.
ghost use Rattle.std.specs.Prelude.{◌≡◌, false, Contains, IfOk, count_by, map, position, slice_get};
ghost use Rattle.std.specs.Option.{option_map_or};
ghost use Rattle.fact_store.specs.View.{cells_of};
ghost use Rattle.subnet_view.specs.EndPort.{end_ports};
ghost use Rattle.subnet_view.specs.Graph.{guids_of};
ghost use Rattle.subnet_view.specs.Components.{root_of};
ghost use Rattle.audit_ways.specs.Ways.{is_adapter};
ghost use Rattle.audit_counts.specs.Site.{IsCensus, IsSiteOf, is_of};
ghost use Rattle.audit_counts.specs.Site.{are_adapters, are_joined, are_joined_adapters};
ghost use Rattle.audit_counts.specs.Site.{are_one_component, first_root, is_one_root, root_at};
ghost use Rattle.subnet_view.specs.Wires.{leads_to};
ghost use Rattle.audit_counts.specs.Site.{site_of, switch_of};

use audit_ways::is_adapter;
use packet_walks::is_same_end;
use smp_bytes::{Guid, PortNum};
use std::alloc::{AllocError, Global};
use subnet_view::{EndPort, Subnet, WiredGraph, Wires, is_usable};

/// Where an end port lies.
#[derive(Clone, Copy, Debug, PartialEq, Eq)]
pub struct Site {
    pub port: EndPort,
    /// The least GUID of the switches in the port's component. `None` if the port lies at no usable switch.
    pub root: Option<Guid>,
    /// The port at the other end of the port's wire. `None` if the port has no wire.
    pub across: Option<(Guid, PortNum)>,
}

impl Site {
    /// Returns whether the end ports of `self` and `other` count as in the same component: they are equal, or they lie
    /// at usable switches of the same component, or the wire of the port of `self` leads to the port of `other`.
    pub fn is_joined_to(&self, other: &Site) -> bool
        ensures { result ≡ are_joined self.now other.now }
    {
        is_same_end(&self.port, &other.port)
            || is_one_root(self.root, other.root)
            || leads_to(self.across, &other.port)
    }
}

/// Returns whether `one` and `other` are equal and not `None`.
fn is_one_root(one: Option<Guid>, other: Option<Guid>) -> bool
    ensures { result ≡ is_one_root one other }
{
    match (one, other) {
        (Some(one), Some(other)) => one == other,
        _ => false,
    }
}

/// Returns whether `far`, a node and a port number, is `port`. Returns false if `far` is `None`.
fn leads_to(far: Option<(Guid, PortNum)>, port: &EndPort) -> bool
    ensures { result ≡ leads_to far port.now }
{
    match far {
        Some((node, number)) => port.node == node && port.port == number,
        None => false,
    }
}

/// Returns whether the end ports of all `sites` lie at usable switches of one component, as they do if there are none.
pub(crate) fn are_one_component(sites: &[Site]) -> bool
    ensures { result ≡ are_one_component sites.now }
{
    let root = first_root(sites);
    sites.iter().all(|site| is_one_root(site.root, root))
}

/// Returns the root of the first of `sites`, or `None` if `sites` is empty or its first site has no root.
fn first_root(sites: &[Site]) -> Option<Guid>
    ensures { result ≡ first_root sites.now }
{
    match sites {
        [] => None,
        [site, ..] => site.root,
    }
}

/// Whether all end ports lie at usable switches of the same component, and how many of them are ports of adapters.
#[derive(Clone, Copy, Debug, PartialEq, Eq)]
pub(crate) struct Census {
    /// Whether each end port lies at a usable switch, and all these switches lie in the same component. True if there
    /// is no end port.
    pub whole: bool,
    /// How many of the end ports are ports of adapters.
    pub adapters: usize,
}

/// Returns the census of `sites`. Takes time linear in their number.
pub(crate) fn census_of(sites: &[Site]) -> Census
    ensures { IsCensus sites.now result }
{
    let whole = are_one_component(sites);
    let adapters = adapter_count(sites);
    Census { whole, adapters }
}

/// Returns how many of `sites` are the sites of adapter ports.
fn adapter_count(sites: &[Site]) -> usize
    ensures { result ≡ count_by (λ site. is_adapter site.port) sites.now }
{
    sites.iter().filter(|site| is_adapter(&site.port)).count()
}

/// Returns how many of `sites` are joined to `owner` (`is_joined_to`). Takes constant time if `census.whole` is true,
/// otherwise time linear in the number of sites.
pub(crate) fn joined_count(sites: &[Site], owner: &Site, census: Census) -> usize
    requires census { IsCensus sites.now census }
    requires listed { Contains sites.now owner.now }
    ensures { result ≡ count_by (λ site. are_joined site owner.now) sites.now }
{
    if census.whole {
        return sites.len();
    }
    sites.iter().filter(|site| site.is_joined_to(owner)).count()
}

/// Returns how many of `sites` are of adapter ports and are joined to `owner`, or 0 if `owner` is of none. Takes
/// constant time in that case or if `census.whole` is true, otherwise time linear in the number of sites.
pub(crate) fn joined_adapters(sites: &[Site], owner: &Site, census: Census) -> usize
    requires census { IsCensus sites.now census }
    requires listed { Contains sites.now owner.now }
    ensures { result ≡ count_by (λ site. are_joined_adapters site owner.now) sites.now }
{
    if !is_adapter(&owner.port) {
        return 0;
    }
    if census.whole {
        return census.adapters;
    }
    sites
        .iter()
        .filter(|site| are_joined_adapters(site, owner))
        .count()
}

/// Returns whether `site` and `owner` are of adapter ports in the same component.
fn are_joined_adapters(site: &Site, owner: &Site) -> bool
    ensures { result ≡ are_joined_adapters site.now owner.now }
{
    site.is_joined_to(owner) && are_adapters(&site.port, &owner.port)
}

/// Returns whether `port` and `other` are both end ports of adapters.
pub fn are_adapters(port: &EndPort, other: &EndPort) -> bool
    ensures { result ≡ are_adapters port.now other.now }
{
    is_adapter(port) && is_adapter(other)
}

/// Returns the sites of the end ports of `subnet`, in the order of `Subnet::end_ports`.
pub fn sites(alloc: Global, subnet: &Subnet) -> Result<Vec<Site>, AllocError>
    ensures { IfOk result (λ sites. sites.items
        ≡ map (site_of (cells_of subnet.now)) (end_ports (cells_of subnet.now))) }
{
    let graph = subnet.graph(alloc)?;
    let roots = graph.roots(alloc)?;
    let wired = WiredGraph {
        wires: subnet.wires(),
        graph: &graph,
    };
    sites_of(alloc, &wired, &roots, subnet.end_ports())
}

/// Returns the sites of `ports`, in the order of `ports`.
fn sites_of(
    alloc: Global,
    wired: &WiredGraph,
    roots: &[Option<Guid>],
    ports: &[EndPort],
) -> Result<Vec<Site>, AllocError>
    requires { roots.now ≡ map (root_of wired.now.graph.now) (guids_of wired.now.graph.now) }
    ensures { IfOk result (λ sites. sites.items ≡ map (site_of (cells_of wired.now.wires.now)) ports.now) }
{
    let mut sites = Vec::with_capacity(alloc, ports.len())?;
    for port in ports {
        sites.push(site_of(wired, roots, port))?;
    }
    Ok(sites)
}

/// Returns the site of `port`.
fn site_of(wired: &WiredGraph, roots: &[Option<Guid>], port: &EndPort) -> Site
    requires { roots.now ≡ map (root_of wired.now.graph.now) (guids_of wired.now.graph.now) }
    ensures { result ≡ site_of (cells_of wired.now.wires.now) port.now }
{
    let root = root_at(wired, roots, port);
    let across = wired.wires.across(port.node, port.port);
    Site {
        port: *port,
        root,
        across,
    }
}

/// Returns the root of the component in which `port` lies, or `None` if `port` lies at no usable switch.
fn root_at(wired: &WiredGraph, roots: &[Option<Guid>], port: &EndPort) -> Option<Guid>
    requires { roots.now ≡ map (root_of wired.now.graph.now) (guids_of wired.now.graph.now) }
    ensures { result ≡ root_at (cells_of wired.now.wires.now) port.now }
{
    let switch = switch_of(wired.wires, port)?;
    let index = wired.graph.index_of(switch)?;
    roots[index]
}

/// Returns the usable switch of `port`: its node, or the one at the other end of its wire, if there is one.
fn switch_of(wires: &Wires, port: &EndPort) -> Option<Guid>
    ensures { result ≡ switch_of (cells_of wires.now) port.now }
{
    if is_usable(wires.store(), port.node) {
        return Some(port.node);
    }
    let (switch, _) = wires.attached(port.node, port.port)?;
    Some(switch)
}

/// Returns the index of a site of `port`, or an index beyond the end of `sites` if no site is of `port`. Takes constant
/// time if a site of `port` is at `index` or at the next index, otherwise time linear in the number of sites.
pub fn index_of(sites: &[Site], index: usize, port: &EndPort) -> usize
    ensures { IsSiteOf sites.now port.now (slice_get sites.now result) }
{
    if is_site_at(sites, index, port) {
        return index;
    }
    let next = index.saturating_add(1);
    if is_site_at(sites, next, port) {
        return next;
    }
    first_at(sites, port)
}

/// Returns whether there is a site of `port` at `index`.
fn is_site_at(sites: &[Site], index: usize, port: &EndPort) -> bool
    ensures { result ≡ option_map_or (is_of port.now) (slice_get sites.now index) false }
{
    match site_in(sites, index) {
        Some(site) => is_same_end(port, &site.port),
        None => false,
    }
}

/// Returns the site at `index`, or `None` if `index` is beyond the end of `sites`.
pub fn site_in(sites: &[Site], index: usize) -> Option<Site>
    ensures { result ≡ slice_get sites.now index }
{
    sites.get(index).copied()
}

/// Returns the index of the first site of `port`, or the number of sites if no site is of `port`.
fn first_at(sites: &[Site], port: &EndPort) -> usize
    ensures { IsSiteOf sites.now port.now (slice_get sites.now result) }
{
    match position_of(sites, port) {
        Some(index) => index,
        None => sites.len(),
    }
}

/// Returns the index of the first site of `port`, or `None` if no site is of `port`.
fn position_of(sites: &[Site], port: &EndPort) -> Option<usize>
    ensures { result ≡ position (is_of port.now) sites.now }
{
    sites.iter().position(|site| is_same_end(port, &site.port))
}
