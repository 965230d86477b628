//! How great a packet may be, and how fast it goes, through a port.
ghost use Rattle.std.specs.Prelude.{◌≡◌, ◌≤◌, Some};
ghost use Rattle.sa_answers.specs.Bound.{bound_at, bound_by, far_image, lane_speed, lanes, least_bound, lesser};
ghost use Rattle.sa_answers.specs.Bound.{mtu_through, rate_through};
ghost use Rattle.sa_answers.specs.Told.{value_of};
ghost use Rattle.plan_steps.specs.Carried.{mtu_of, or_default};

use crate::told::Told;
use attr_codec::bits::bits;
use attr_codec::{Attribute, PortInfo};
use smp_bytes::{Guid, PortNum};
use subnet_view::wire;

/// The least MTU, 256 bytes.
const LEAST_MTU: u8 = 1;

/// The least rate, 2.5 Gb/s.
const LEAST_RATE: u16 = 25;

/// A rate above all.
const NO_RATE: u16 = 65535;

/// Fields of PortInfo: the byte, the lowest bit and the number of bits of each.
macro_rules! port_bits {
    (link_width_active $bytes:expr) => { bits::<31, 0, 8>($bytes) };
    (link_speed_active $bytes:expr) => { bits::<35, 4, 4>($bytes) };
    (neighbor_mtu $bytes:expr) => { bits::<36, 4, 4>($bytes) };
    (mtu_cap $bytes:expr) => { bits::<41, 0, 4>($bytes) };
    (link_speed_ext_active $bytes:expr) => { bits::<62, 4, 4>($bytes) };
}

/// The MTU as its number, and the rate in tenths of Gb/s, that ports let through.
#[derive(Clone, Copy, Debug, PartialEq, Eq)]
pub struct Bound {
    pub mtu: u8,
    pub rate: u16,
}

/// Returns the lesser MTU and the lesser rate of both.
pub(crate) fn lesser(one: Bound, other: Bound) -> Bound
    ensures { result ≡ lesser one other }
{
    Bound {
        mtu: one.mtu.min(other.mtu),
        rate: one.rate.min(other.rate),
    }
}

/// Returns what a port, given by node and number, lets through, or the least of all ports if its PortInfo is not kept.
pub(crate) fn bound_at(told: &Told<'_>, at: &(Guid, PortNum)) -> Bound
    ensures { result ≡ bound_at (value_of told.now) at.now }
{
    let node = at.0;
    let port = at.1;
    match told.sweep.port_image(node, port) {
        None => Bound {
            mtu: LEAST_MTU,
            rate: LEAST_RATE,
        },
        Some(own) => bound_by(port, &own.encode(), far_image(told, node, port)),
    }
}

/// Returns the PortInfo that is kept of the far end of the wire in `port` of `node`.
fn far_image(told: &Told<'_>, node: Guid, port: PortNum) -> Option<PortInfo>
    ensures { result ≡ far_image (value_of told.now) (node, port) }
{
    let (far_node, far_port) = wire(told.store, node, port)?;
    told.sweep.port_image(far_node, far_port)
}

/// Returns what a port lets through, by its own PortInfo and that of the far end.
fn bound_by(port: PortNum, own: &[u8; 64], far: Option<PortInfo>) -> Bound
    ensures { result ≡ bound_by port own.now far }
{
    Bound {
        mtu: mtu_through(port, own, far),
        rate: rate_through(own),
    }
}

/// Returns the number of the MTU of a port: MTUCap for port 0, and otherwise NeighborMTU as it is written.
fn mtu_through(port: PortNum, own: &[u8; 64], far: Option<PortInfo>) -> u8
    ensures { result ≡ mtu_through port own.now far }
{
    if port.number() == 0 {
        or_default(LEAST_MTU, port_bits!(mtu_cap own))
    } else {
        or_default(LEAST_MTU, mtu_of(own, far))
    }
}

/// Returns NeighborMTU as it is written.
fn mtu_of(own: &[u8; 64], far: Option<PortInfo>) -> u8
    ensures { result ≡ mtu_of own.now far }
{
    let as_read = port_bits!(neighbor_mtu own);
    match far {
        Some(far) => or_default(
            as_read,
            port_bits!(mtu_cap own).min(port_bits!(mtu_cap & far.encode())),
        ),
        None => as_read,
    }
}

/// Returns `number`, or `otherwise` if `number` is 0.
fn or_default(otherwise: u8, number: u8) -> u8
    ensures { result ≡ or_default otherwise number }
{
    if number == 0 { otherwise } else { number }
}

/// Returns the rate of a port in tenths of Gb/s. A port whose width is not said bounds no rate.
fn rate_through(own: &[u8; 64]) -> u16
    ensures { result ≡ rate_through own.now }
{
    match lanes(port_bits!(link_width_active own)) {
        0 => NO_RATE,
        lanes => {
            lanes
                * lane_speed(
                    port_bits!(link_speed_ext_active own),
                    port_bits!(link_speed_active own),
                )
        }
    }
}

/// Returns the number of lanes of a width, or 0 if the width is none.
fn lanes(width: u8) -> u16
    ensures lanes { result ≡ lanes width }
    ensures few { result ≤ 12 }
{
    match width {
        1 => 1,
        2 => 4,
        4 => 8,
        8 => 12,
        16 => 2,
        _ => 0,
    }
}

/// Returns the speed of a lane in tenths of Gb/s: that of the extended speed if there is one.
fn lane_speed(extended: u8, speed: u8) -> u16
    ensures speed { result ≡ lane_speed extended speed }
    ensures most { result ≤ 1000 }
{
    match (extended, speed) {
        (1, _) => 140,
        (2, _) => 250,
        (4, _) => 500,
        (8, _) => 1000,
        (_, 4) => 100,
        (_, 2) => 50,
        _ => 25,
    }
}
