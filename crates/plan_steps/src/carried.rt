//! What a Set of PortInfo or SwitchInfo carries besides the fields that its step sets.
ghost use Rattle.std.specs.Prelude.{◌≡◌, ℕ, ◌<◌, Some};
ghost use Rattle.fact_store.specs.View.{cells_of};
ghost use Rattle.plan_steps.specs.Carried.{carried_port, carried_switch, far_image, mtu_of, or_default, port_read};

use attr_codec::bits::{bits, with_bits};
use attr_codec::{Attribute, PortInfo, SwitchInfo};
use fact_store::Store;
use smp_bytes::{Guid, PortNum};
use subnet_view::wire;
use sweep::Sweep;

/// The prefix of link-local GIDs, fe80::/64 (addressing).
const LINK_LOCAL_PREFIX: u64 = 0xFE80_0000_0000_0000;

/// The default of HOQLife: a packet may stay at the head of its queue for 4.096 us * 2^16.
const QUARTER_SECOND: u8 = 16;

/// The default of SubnetTimeOut and of LifeTimeValue: 4.096 us * 2^18.
const ONE_SECOND: u8 = 18;

/// Further fields of PortInfo: the byte, the lowest bit and the number of bits of each.
macro_rules! port_bits {
    ($access:ident link_width_enabled $args:tt) => { $access::<29, 0, 8> $args };
    ($access:ident neighbor_mtu $args:tt) => { $access::<36, 4, 4> $args };
    ($access:ident mtu_cap $args:tt) => { $access::<41, 0, 4> $args };
    ($access:ident link_speed_enabled $args:tt) => { $access::<35, 0, 4> $args };
    ($access:ident link_speed_ext_enabled $args:tt) => { $access::<63, 0, 5> $args };
    ($access:ident hoq_life $args:tt) => { $access::<42, 0, 5> $args };
    ($access:ident subnet_timeout $args:tt) => { $access::<51, 0, 5> $args };
    ($access:ident client_reregister $args:tt) => { $access::<51, 7, 1> $args };
}

/// The PortInfo that was read of a port and, if the port is on a wire, of the far end.
#[derive(Clone, Copy, Debug, PartialEq, Eq)]
pub struct PortRead {
    /// The PortInfo of the port itself.
    pub own: PortInfo,
    /// The PortInfo of the far end, or `None` if there is no wire or the far end's PortInfo is not kept.
    pub far: Option<PortInfo>,
}

/// Returns the PortInfo of `port` of `guid` that was read, with that of the far end of its wire, as far as kept.
pub(crate) fn port_read(store: &Store, sweep: &Sweep, guid: Guid, port: PortNum) -> Option<PortRead>
    ensures { result ≡ port_read (cells_of store.now) sweep.now guid port }
{
    let own = sweep.port_image(guid, port)?;
    let far = far_image(store, sweep, guid, port);
    Some(PortRead { own, far })
}

/// Returns the PortInfo that was read of the far end of the wire at `port` of the node `guid`, if it is kept.
fn far_image(store: &Store, sweep: &Sweep, guid: Guid, port: PortNum) -> Option<PortInfo>
    ensures { result ≡ far_image (cells_of store.now) sweep.now guid port }
{
    let (far_node, far_port) = wire(store, guid, port)?;
    sweep.port_image(far_node, far_port)
}

/// Returns the PortInfo that a Set carries for `read`, or zeros if `read` is `None`.
pub(crate) fn carried_port(read: Option<PortRead>) -> PortInfo
    ensures { result ≡ carried_port read }
{
    match read {
        Some(read) => PortInfo::decode(&carried_port_of(&read.own.encode(), read.far)),
        None => PortInfo::decode(&[0; 64]),
    }
}

/// Returns the PortInfo `own` as a Set carries it, where `far` is the PortInfo of the far end, if there is one.
fn carried_port_of(own: &[u8; 64], far: Option<PortInfo>) -> [u8; 64]
    ensures { result ≡ carried_port (Some (record { own = own.now; far = far })) }
{
    let mut info = PortInfo::decode(own);
    info.set_gid_prefix(prefix_or_link_local(info.gid_prefix()));
    let mut bytes = info.encode();
    port_bits!(with_bits link_width_enabled (&mut bytes, 0));
    port_bits!(with_bits link_speed_enabled (&mut bytes, 0));
    port_bits!(with_bits link_speed_ext_enabled (&mut bytes, 0));
    let mut info = PortInfo::decode(&bytes);
    info.set_port_physical_state(0);
    info.set_link_down_default_state(0);
    let mut bytes = info.encode();
    let mtu = mtu_of(own, far);
    port_bits!(with_bits neighbor_mtu (&mut bytes, mtu));
    let hoq_life = or_default(QUARTER_SECOND, port_bits!(bits hoq_life (own)));
    port_bits!(with_bits hoq_life (&mut bytes, hoq_life));
    let timeout = or_default(ONE_SECOND, port_bits!(bits subnet_timeout (own)));
    port_bits!(with_bits subnet_timeout (&mut bytes, timeout));
    port_bits!(with_bits client_reregister (&mut bytes, 0));
    bytes
}

/// Returns the lesser of the MTUCaps in `own` and `far`, if `far` is given and neither is 0, or else NeighborMTU.
fn mtu_of(own: &[u8; 64], far: Option<PortInfo>) -> u8
    ensures value { result ≡ mtu_of own.now far }
    ensures fits { result < 16 }
{
    let as_read = port_bits!(bits neighbor_mtu (own));
    match far {
        Some(far) => {
            let most = port_bits!(bits mtu_cap (own)).min(port_bits!(bits mtu_cap (&far.encode())));
            or_default(as_read, most)
        }
        None => as_read,
    }
}

/// Returns the SwitchInfo that a Set carries for `read`, or zeros if `read` is `None`.
pub(crate) fn carried_switch(read: Option<SwitchInfo>) -> SwitchInfo
    ensures { result ≡ carried_switch read }
{
    match read {
        Some(read) => carried_switch_of(&read.encode()),
        None => SwitchInfo::decode(&[0; 64]),
    }
}

/// Returns the SwitchInfo that a Set carries if `read` was read, as `carried_switch` does.
fn carried_switch_of(read: &[u8; 64]) -> SwitchInfo
    ensures { result ≡ carried_switch (Some read.now) }
{
    let mut info = SwitchInfo::decode(read);
    info.set_life_time_value(or_default(ONE_SECOND, info.life_time_value()));
    info.set_port_state_change(true);
    info
}

/// Returns `number`, or `otherwise` if `number` is 0.
fn or_default(otherwise: u8, number: u8) -> u8
    ensures value { result ≡ or_default otherwise number }
    ensures fits { (most : ℕ) → otherwise < most → number < most → result < most }
{
    if number == 0 { otherwise } else { number }
}

/// Returns `prefix`, or the prefix of link-local GIDs if `prefix` is 0.
fn prefix_or_link_local(prefix: u64) -> u64
    ensures { result ≡ or_default LINK_LOCAL_PREFIX prefix }
{
    if prefix == 0 {
        LINK_LOCAL_PREFIX
    } else {
        prefix
    }
}
