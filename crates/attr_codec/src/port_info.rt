ghost use Rattle.std.specs.Prelude.{◌≡◌, ◌<◌, ◌^◌, ◌↔◌, IsTrue};
ghost use Rattle.smp_bytes.specs.Field.{bits_in, number_in, with_bits, with_number};
ghost use Rattle.smp_bytes.specs.Requests.{flag};
ghost use Rattle.attr_codec.specs.PortInfo.{m_key, gid_prefix, base_lid, master_sm_lid, capability_mask};
ghost use Rattle.attr_codec.specs.PortInfo.{local_port_num, link_speed_supported, port_physical_state};
ghost use Rattle.attr_codec.specs.PortInfo.{link_down_default_state, m_key_protect_bits, lmc, port_state};
ghost use Rattle.attr_codec.specs.PortInfo.{is_sm_bit, number_of_state, state_of_number};

use crate::attribute::Attribute;
use crate::bits::{bits, with_bits};
use crate::field_type;
use crate::lmc::Lmc;
use crate::port_state::PortState;
use smp_bytes::{AttributeId, Lid, PortNum};
use std::marker::Model;

/// The properties and the state of a port (subnet management, PortInfo): 64 bytes. Bits outside the named fields are
/// kept as they are. Contracts see the bytes.
#[derive(Clone, Copy, Debug, PartialEq, Eq)]
pub struct PortInfo {
    bytes: [u8; 64],
}

impl Model for PortInfo {
    ghost use Rattle.std.specs.Prelude.{ℕ, List};

    ghost Value = { List ℕ };

    ghost view = { λ a. a.bytes };

    ghost inverse = { λ bytes. record { bytes = bytes } };
}

impl Attribute for PortInfo {
    ghost use Rattle.std.specs.Prelude.{refl};
    ghost use Rattle.smp_bytes.specs.Header.{port_info};

    const ID: u16 = AttributeId::PORT_INFO.0;

    ghost ID = { port_info };

    ghost is_value = { λ _. Unit {0} };

    ghost value_in = { λ bytes. bytes };

    ghost bytes_of = { λ image. image };

    fn decode(bytes: &[u8; 64]) -> Self {
        PortInfo { bytes: *bytes }
    }

    fn encode(&self) -> [u8; 64] {
        self.bytes
    }

    ghost reads_back = { λ _ _. refl };
}

/// The named fields. A field of whole bytes has its type and its offset; a bit field has its byte's offset, its lowest
/// bit and its number of bits.
macro_rules! port_info {
    ($access:ident m_key $args:tt) => { field_type::$access::<u64, 0> $args };
    ($access:ident gid_prefix $args:tt) => { field_type::$access::<u64, 8> $args };
    ($access:ident base_lid $args:tt) => { field_type::$access::<Lid, 16> $args };
    ($access:ident master_sm_lid $args:tt) => { field_type::$access::<Lid, 18> $args };
    ($access:ident capability_mask $args:tt) => { field_type::$access::<u32, 20> $args };
    ($access:ident local_port_num $args:tt) => { field_type::$access::<PortNum, 28> $args };
    ($access:ident link_speed_supported $args:tt) => { $access::<32, 4, 4> $args };
    ($access:ident port_physical_state $args:tt) => { $access::<33, 4, 4> $args };
    ($access:ident link_down_default_state $args:tt) => { $access::<33, 0, 4> $args };
    ($access:ident m_key_protect_bits $args:tt) => { $access::<34, 6, 2> $args };
    ($access:ident lmc $args:tt) => { $access::<34, 0, 3> $args };
    ($access:ident port_state $args:tt) => { $access::<32, 0, 4> $args };
    ($access:ident is_sm $args:tt) => { $access::<23, 1, 1> $args };
}

impl PortInfo {
    /// Returns M_Key.
    pub fn m_key(&self) -> u64
        ensures { result ≡ number_in m_key self.now }
    {
        port_info!(read m_key (&self.bytes))
    }

    /// Writes M_Key.
    pub fn set_m_key(&mut self, to: u64)
        ensures { self.new ≡ with_number m_key to self.old }
    {
        port_info!(write m_key (to, &mut self.bytes));
    }

    /// Returns GIDPrefix.
    pub fn gid_prefix(&self) -> u64
        ensures { result ≡ number_in gid_prefix self.now }
    {
        port_info!(read gid_prefix (&self.bytes))
    }

    /// Writes GIDPrefix.
    pub fn set_gid_prefix(&mut self, to: u64)
        ensures { self.new ≡ with_number gid_prefix to self.old }
    {
        port_info!(write gid_prefix (to, &mut self.bytes));
    }

    /// Returns LID: the first LID of the port, or 0 if the port has no LID.
    pub fn base_lid(&self) -> Lid
        ensures number { result ≡ number_in base_lid self.now }
        ensures fits { result < 2 ^ 16 }
    {
        port_info!(read base_lid (&self.bytes))
    }

    /// Writes LID, the first LID of the port. LID 0 says that the port has no LID.
    pub fn set_base_lid(&mut self, to: Lid)
        ensures { self.new ≡ with_number base_lid to self.old }
    {
        port_info!(write base_lid (to, &mut self.bytes));
    }

    /// Returns MasterSMLID.
    pub fn master_sm_lid(&self) -> Lid
        ensures { result ≡ number_in master_sm_lid self.now }
    {
        port_info!(read master_sm_lid (&self.bytes))
    }

    /// Writes MasterSMLID.
    pub fn set_master_sm_lid(&mut self, to: Lid)
        ensures { self.new ≡ with_number master_sm_lid to self.old }
    {
        port_info!(write master_sm_lid (to, &mut self.bytes));
    }

    /// Returns CapabilityMask.
    pub fn capability_mask(&self) -> u32
        ensures { result ≡ number_in capability_mask self.now }
    {
        port_info!(read capability_mask (&self.bytes))
    }

    /// Writes CapabilityMask.
    pub fn set_capability_mask(&mut self, to: u32)
        ensures { self.new ≡ with_number capability_mask to self.old }
    {
        port_info!(write capability_mask (to, &mut self.bytes));
    }

    /// Returns LocalPortNum: the port by which the request came.
    pub fn local_port_num(&self) -> PortNum
        ensures { result ≡ number_in local_port_num self.now }
    {
        port_info!(read local_port_num (&self.bytes))
    }

    /// Writes LocalPortNum.
    pub fn set_local_port_num(&mut self, to: PortNum)
        ensures { self.new ≡ with_number local_port_num to self.old }
    {
        port_info!(write local_port_num (to, &mut self.bytes));
    }

    /// Returns LinkSpeedSupported, 4 bits.
    pub fn link_speed_supported(&self) -> u8
        ensures number { result ≡ bits_in link_speed_supported self.now }
        ensures fits { result < 2 ^ 4 }
    {
        port_info!(bits link_speed_supported (&self.bytes))
    }

    /// Writes LinkSpeedSupported. `to` must have at most 4 bits.
    pub fn set_link_speed_supported(&mut self, to: u8)
        requires { to < 2 ^ 4 }
        ensures { self.new ≡ with_bits link_speed_supported to self.old }
    {
        port_info!(with_bits link_speed_supported (&mut self.bytes, to));
    }

    /// Returns PortPhysicalState, 4 bits.
    pub fn port_physical_state(&self) -> u8
        ensures number { result ≡ bits_in port_physical_state self.now }
        ensures fits { result < 2 ^ 4 }
    {
        port_info!(bits port_physical_state (&self.bytes))
    }

    /// Writes PortPhysicalState. `to` must have at most 4 bits.
    pub fn set_port_physical_state(&mut self, to: u8)
        requires { to < 2 ^ 4 }
        ensures { self.new ≡ with_bits port_physical_state to self.old }
    {
        port_info!(with_bits port_physical_state (&mut self.bytes, to));
    }

    /// Returns LinkDownDefaultState, 4 bits.
    pub fn link_down_default_state(&self) -> u8
        ensures number { result ≡ bits_in link_down_default_state self.now }
        ensures fits { result < 2 ^ 4 }
    {
        port_info!(bits link_down_default_state (&self.bytes))
    }

    /// Writes LinkDownDefaultState. `to` must have at most 4 bits.
    pub fn set_link_down_default_state(&mut self, to: u8)
        requires { to < 2 ^ 4 }
        ensures { self.new ≡ with_bits link_down_default_state to self.old }
    {
        port_info!(with_bits link_down_default_state (&mut self.bytes, to));
    }

    /// Returns M_KeyProtectBits, 2 bits.
    pub fn m_key_protect_bits(&self) -> u8
        ensures number { result ≡ bits_in m_key_protect_bits self.now }
        ensures fits { result < 2 ^ 2 }
    {
        port_info!(bits m_key_protect_bits (&self.bytes))
    }

    /// Writes M_KeyProtectBits. `to` must have at most 2 bits.
    pub fn set_m_key_protect_bits(&mut self, to: u8)
        requires { to < 2 ^ 2 }
        ensures { self.new ≡ with_bits m_key_protect_bits to self.old }
    {
        port_info!(with_bits m_key_protect_bits (&mut self.bytes, to));
    }

    /// Returns LMC. If LID is not 0, the port has the 2^LMC LIDs that start at LID.
    pub fn lmc(&self) -> Lmc
        ensures { result ≡ bits_in lmc self.now }
    {
        Lmc::from_bits(port_info!(bits lmc (&self.bytes)))
    }

    /// Writes LMC.
    pub fn set_lmc(&mut self, to: Lmc)
        ensures { self.new ≡ with_bits lmc to self.old }
    {
        port_info!(with_bits lmc (&mut self.bytes, to.number()));
    }

    /// Returns PortState, or `None` if its number is reserved.
    pub fn port_state(&self) -> Option<PortState>
        ensures { result ≡ state_of_number (bits_in port_state self.now) }
    {
        PortState::from_number(port_info!(bits port_state (&self.bytes)))
    }

    /// Writes PortState.
    pub fn set_port_state(&mut self, to: PortState)
        ensures { self.new ≡ with_bits port_state (number_of_state to) self.old }
    {
        port_info!(with_bits port_state (&mut self.bytes, to.number()));
    }

    /// Returns IsSM, a bit of CapabilityMask: whether a subnet manager sits at the port.
    pub fn is_sm(&self) -> bool
        ensures { IsTrue result ↔ (bits_in is_sm_bit self.now ≡ 1) }
    {
        port_info!(bits is_sm (&self.bytes)) == 1
    }

    /// Writes IsSM, a bit of CapabilityMask.
    pub fn set_is_sm(&mut self, to: bool)
        ensures { self.new ≡ with_bits is_sm_bit (flag to) self.old }
    {
        port_info!(with_bits is_sm (&mut self.bytes, u8::from(to)));
    }
}
