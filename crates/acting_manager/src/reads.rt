//! What a sweep reads of ports.
ghost use Rattle.std.specs.Prelude.{◌≡◌};
ghost use Rattle.smp_bytes.specs.Field.{bytes_in};
ghost use Rattle.smp_bytes.specs.Packet.{attribute_data};
ghost use Rattle.acting_manager.specs.Reads.{after_read, counted_if, has_image, is_foreign, is_inactive};
ghost use Rattle.acting_manager.specs.Reads.{no_reads, own_lid_by, with_image};

use attr_codec::{Attribute, PortInfo, PortState};
use sm_policy::Ports;
use smp_bytes::{AttributeId, Lid, Smp, SmpClass, Status};

/// What a sweep has read of ports so far.
#[derive(Clone, Copy, Debug, PartialEq, Eq)]
pub struct Reads {
    /// The LID of the manager's own port, or 0 if it was not read yet. A sweep reads it first.
    pub own_lid: u16,
    pub ports: Ports,
}

impl Reads {
    /// Returns that nothing was read.
    pub(crate) fn nothing() -> Self
        ensures { result ≡ no_reads }
    {
        Reads {
            own_lid: 0,
            ports: Ports {
                inactive: 0,
                foreign: 0,
            },
        }
    }

    /// Notes `packet`, the answer to a request: if it has the image of a port, counts the port if it is in Initialize
    /// or Armed, and if it is an end port that names another master.
    pub(crate) fn read(&mut self, packet: &Smp)
        ensures { self.new ≡ after_read packet.now self.old }
    {
        if has_image(packet) {
            self.take_image(packet);
        }
    }

    /// Notes the image of a port in `packet`.
    fn take_image(&mut self, packet: &Smp)
        ensures { self.new ≡ with_image packet.now self.old }
    {
        let image = PortInfo::decode(&packet.attribute_data());
        let own_lid = own_lid_by(packet, &image, self.own_lid);
        self.ports.inactive = counted_if(is_inactive(image.port_state()), self.ports.inactive);
        self.ports.foreign = counted_if(is_foreign(own_lid, &image), self.ports.foreign);
        self.own_lid = own_lid;
    }
}

/// Returns whether `packet`, the answer to a request, has the image of a port that a sweep reads.
fn has_image(packet: &Smp) -> bool
    ensures { result ≡ has_image packet.now }
{
    packet.attribute_id() == AttributeId::PORT_INFO
        && packet.class() == SmpClass::DirectedRoute
        && packet.status() == Status::DONE
}

/// Returns the manager's LID after `packet`: that of `image` if it came from the own port, along no hops, or `own_lid`.
fn own_lid_by(packet: &Smp, image: &PortInfo, own_lid: u16) -> u16
    requires { image.now ≡ bytes_in attribute_data packet.now }
    ensures { result ≡ own_lid_by packet.now own_lid }
{
    if packet.hop_count() == 0 {
        image.base_lid().number()
    } else {
        own_lid
    }
}

/// Returns whether `state` is Initialize or Armed.
fn is_inactive(state: Option<PortState>) -> bool
    ensures { result ≡ is_inactive state }
{
    matches!(state, Some(PortState::Initialize | PortState::Armed))
}

/// Returns whether the port with `image` has a LID, and its MasterSMLID is not `own_lid`.
fn is_foreign(own_lid: u16, image: &PortInfo) -> bool
    ensures { result ≡ is_foreign own_lid image.now }
{
    image.base_lid().number() > 0 && image.master_sm_lid().number() != own_lid
}

/// Returns `count` plus 1 if `flag`, and otherwise `count`. Saturates.
fn counted_if(flag: bool, count: u32) -> u32
    ensures { result ≡ counted_if flag count }
{
    if flag { count.saturating_add(1) } else { count }
}
