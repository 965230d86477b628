ghost use Rattle.std.specs.Prelude.{◌≡◌, ◌<◌, ◌≤◌, ◌-◌, ◌^◌, ◌++◌, slice_index_or, IfOk, length, replicate, take};
ghost use Rattle.fact_store.specs.View.{cells_of};
ghost use Rattle.held_tables.specs.Switches.{row_of, switch_over};
ghost use Rattle.held_tables.specs.FarEnds.{padded, wired_more};

use crate::far_end::{Far, far_within};
use smp_bytes::{Guid, PortNum};
use std::alloc::{AllocError, Global};
use std::marker::Model;
use subnet_view::{Subnet, port_count};

/// Where the wires in a switch's ports lead.
#[derive(Drop)]
pub struct FarEnds {
    /// The far ends from port 0 up to the last port that has a wire.
    fars: Vec<Far>,
}

impl Model for FarEnds {
    ghost use Rattle.std.specs.Prelude.{List};
    ghost use Rattle.held_tables.specs.declared.far_end.Far.{Far};
    ghost use Rattle.held_tables.specs.FarEnds.{padded};

    ghost Value = { List Far };

    ghost view = { λ a. padded 255 a.fars.items };
}

impl FarEnds {
    /// Returns the far end of the wire in `port`, or `Nothing` if `port` has no wire. Takes constant time.
    pub fn far(&self, port: u8) -> Far
        ensures { result ≡ slice_index_or self.now port Far.Nothing }
    {
        far_at(&self.fars, port)
    }

    /// Returns the index of the usable switch at the far end of the wire in `port`. Returns `None` if `port` has no
    /// wire, or if its wire does not lead to a usable switch. Takes constant time.
    pub fn switch(&self, port: u8) -> Option<usize>
        ensures { result ≡ switch_over (slice_index_or self.now port Far.Nothing) }
    {
        switch_at(&self.fars, port)
    }

    /// Returns a copy of `self`.
    pub(crate) fn copied(&self, alloc: Global) -> Result<Self, AllocError>
        ensures { IfOk result (λ copy. copy ≡ self.now) }
    {
        let fars = Vec::from_slice(alloc, &self.fars)?;
        Ok(FarEnds { fars })
    }
}

/// Returns the item of `fars` at `port`, or `Nothing` if there is no such item.
fn far_at(fars: &[Far], port: u8) -> Far
    ensures { result ≡ slice_index_or fars.now port Far.Nothing }
{
    match fars.get(usize::from(port)) {
        Some(far) => *far,
        None => Far::Nothing,
    }
}

/// Returns the index of the usable switch that the item of `fars` at `port` leads to, or `None` if it leads to none.
fn switch_at(fars: &[Far], port: u8) -> Option<usize>
    ensures { result ≡ switch_over (slice_index_or fars.now port Far.Nothing) }
{
    match fars.get(usize::from(port)) {
        Some(Far::Switch(index)) => Some(*index),
        _ => None,
    }
}

/// Returns the far ends of the wires in the ports of `node`.
pub(crate) fn row_of(alloc: Global, subnet: &Subnet, node: Guid) -> Result<FarEnds, AllocError>
    ensures { IfOk result (λ row. row ≡ row_of (cells_of subnet.now) node) }
{
    let fars = all_fars(alloc, subnet, node)?;
    let fars = shortened(alloc, &fars)?;
    Ok(FarEnds { fars })
}

/// Returns the far ends of the wires in ports 0 to 254 of `node`, in the order of the ports.
fn all_fars(alloc: Global, subnet: &Subnet, node: Guid) -> Result<Vec<Far>, AllocError>
    ensures { IfOk result (λ fars. fars.items ≡ row_of (cells_of subnet.now) node) }
{
    let ports = port_count(subnet.store(), node);
    let mut fars = Vec::with_capacity(alloc, 255)?;
    for port in 0..255u8 {
        fars.push(far_within(subnet, node, ports, PortNum::new(port)))?;
    }
    Ok(fars)
}

/// Returns `fars` up to the last port that has a wire, or an empty list if no port has a wire.
fn shortened(alloc: Global, fars: &[Far]) -> Result<Vec<Far>, AllocError>
    ensures { IfOk result (λ short. padded (length fars.now) short.items ≡ fars.now) }
{
    let count = wired(fars);
    Vec::from_slice(alloc, &fars[..count])
}

/// Returns the number of ports from port 0 up to the last one that has a wire, or 0 if no port has a wire.
fn wired(fars: &[Far]) -> usize
    ensures within { result ≤ length fars.now }
    ensures others { fars.now ≡ take result fars.now ++ replicate (length fars.now - result) Far.Nothing }
{
    let mut count = 0;
    for (port, far) in fars.iter().enumerate() {
        count = wired_more(far, port, count);
    }
    count
}

/// Returns, among ports 0 to `port`, the number of ports from port 0 up to the last one that has a wire. `count` is
/// this number for the ports before `port`, and `far` is the far end of the wire in `port`.
fn wired_more(far: &Far, port: usize, count: usize) -> usize
    requires { port < 2 ^ 64 - 1 }
    ensures { result ≡ wired_more far.now port count }
{
    match far {
        Far::Nothing => count,
        _ => port + 1,
    }
}
