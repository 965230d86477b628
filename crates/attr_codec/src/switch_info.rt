ghost use Rattle.std.specs.Prelude.{◌≡◌, ◌<◌, ◌^◌, ◌↔◌, IsTrue};
ghost use Rattle.smp_bytes.specs.Field.{bits_in, number_in, with_bits, with_number};
ghost use Rattle.smp_bytes.specs.Requests.{flag};
ghost use Rattle.attr_codec.specs.SwitchInfo.{linear_fdb_cap, random_fdb_cap, multicast_fdb_cap};
ghost use Rattle.attr_codec.specs.SwitchInfo.{linear_fdb_top, default_port, default_multicast_primary_port};
ghost use Rattle.attr_codec.specs.SwitchInfo.{default_multicast_not_primary_port, lids_per_port};
ghost use Rattle.attr_codec.specs.SwitchInfo.{partition_enforcement_cap, life_time_value, port_state_change};

use crate::attribute::Attribute;
use crate::bits::{bits, with_bits};
use crate::field_type;
use smp_bytes::{AttributeId, Lid, PortNum};
use std::marker::Model;

/// The properties and the state of a switch (subnet management, SwitchInfo): 64 bytes. Bits outside the named fields
/// are kept as they are. Contracts see the bytes.
#[derive(Clone, Copy, Debug, PartialEq, Eq)]
pub struct SwitchInfo {
    bytes: [u8; 64],
}

impl Model for SwitchInfo {
    ghost use Rattle.std.specs.Prelude.{ℕ, List};

    ghost Value = { List ℕ };

    ghost view = { λ a. a.bytes };

    ghost inverse = { λ bytes. record { bytes = bytes } };
}

impl Attribute for SwitchInfo {
    ghost use Rattle.std.specs.Prelude.{refl};
    ghost use Rattle.smp_bytes.specs.Header.{switch_info};

    const ID: u16 = AttributeId::SWITCH_INFO.0;

    ghost ID = { switch_info };

    ghost is_value = { λ _. Unit {0} };

    ghost value_in = { λ bytes. bytes };

    ghost bytes_of = { λ image. image };

    fn decode(bytes: &[u8; 64]) -> Self {
        SwitchInfo { bytes: *bytes }
    }

    fn encode(&self) -> [u8; 64] {
        self.bytes
    }

    ghost reads_back = { λ _ _. refl };
}

/// The named fields. A field of whole bytes has its type and its offset; a bit field has its byte's offset, its lowest
/// bit and its number of bits.
macro_rules! switch_info {
    ($access:ident linear_fdb_cap $args:tt) => { field_type::$access::<u16, 0> $args };
    ($access:ident random_fdb_cap $args:tt) => { field_type::$access::<u16, 2> $args };
    ($access:ident multicast_fdb_cap $args:tt) => { field_type::$access::<u16, 4> $args };
    ($access:ident linear_fdb_top $args:tt) => { field_type::$access::<Lid, 6> $args };
    ($access:ident default_port $args:tt) => { field_type::$access::<PortNum, 8> $args };
    ($access:ident default_multicast_primary_port $args:tt) => { field_type::$access::<PortNum, 9> $args };
    ($access:ident default_multicast_not_primary_port $args:tt) => { field_type::$access::<PortNum, 10> $args };
    ($access:ident lids_per_port $args:tt) => { field_type::$access::<u16, 12> $args };
    ($access:ident partition_enforcement_cap $args:tt) => { field_type::$access::<u16, 14> $args };
    ($access:ident life_time_value $args:tt) => { $access::<11, 3, 5> $args };
    ($access:ident port_state_change $args:tt) => { $access::<11, 2, 1> $args };
}

impl SwitchInfo {
    /// Returns LinearFDBCap: the number of LIDs that the linear forwarding table has room for.
    pub fn linear_fdb_cap(&self) -> u16
        ensures { result ≡ number_in linear_fdb_cap self.now }
    {
        switch_info!(read linear_fdb_cap (&self.bytes))
    }

    /// Writes LinearFDBCap.
    pub fn set_linear_fdb_cap(&mut self, to: u16)
        ensures { self.new ≡ with_number linear_fdb_cap to self.old }
    {
        switch_info!(write linear_fdb_cap (to, &mut self.bytes));
    }

    /// Returns RandomFDBCap.
    pub fn random_fdb_cap(&self) -> u16
        ensures { result ≡ number_in random_fdb_cap self.now }
    {
        switch_info!(read random_fdb_cap (&self.bytes))
    }

    /// Writes RandomFDBCap.
    pub fn set_random_fdb_cap(&mut self, to: u16)
        ensures { self.new ≡ with_number random_fdb_cap to self.old }
    {
        switch_info!(write random_fdb_cap (to, &mut self.bytes));
    }

    /// Returns MulticastFDBCap.
    pub fn multicast_fdb_cap(&self) -> u16
        ensures { result ≡ number_in multicast_fdb_cap self.now }
    {
        switch_info!(read multicast_fdb_cap (&self.bytes))
    }

    /// Writes MulticastFDBCap.
    pub fn set_multicast_fdb_cap(&mut self, to: u16)
        ensures { self.new ≡ with_number multicast_fdb_cap to self.old }
    {
        switch_info!(write multicast_fdb_cap (to, &mut self.bytes));
    }

    /// Returns LinearFDBTop: the greatest LID for which the switch uses its table.
    pub fn linear_fdb_top(&self) -> Lid
        ensures { result ≡ number_in linear_fdb_top self.now }
    {
        switch_info!(read linear_fdb_top (&self.bytes))
    }

    /// Writes LinearFDBTop.
    pub fn set_linear_fdb_top(&mut self, to: Lid)
        ensures { self.new ≡ with_number linear_fdb_top to self.old }
    {
        switch_info!(write linear_fdb_top (to, &mut self.bytes));
    }

    /// Returns DefaultPort.
    pub fn default_port(&self) -> PortNum
        ensures { result ≡ number_in default_port self.now }
    {
        switch_info!(read default_port (&self.bytes))
    }

    /// Writes DefaultPort.
    pub fn set_default_port(&mut self, to: PortNum)
        ensures { self.new ≡ with_number default_port to self.old }
    {
        switch_info!(write default_port (to, &mut self.bytes));
    }

    /// Returns DefaultMulticastPrimaryPort.
    pub fn default_multicast_primary_port(&self) -> PortNum
        ensures { result ≡ number_in default_multicast_primary_port self.now }
    {
        switch_info!(read default_multicast_primary_port (&self.bytes))
    }

    /// Writes DefaultMulticastPrimaryPort.
    pub fn set_default_multicast_primary_port(&mut self, to: PortNum)
        ensures { self.new ≡ with_number default_multicast_primary_port to self.old }
    {
        switch_info!(write default_multicast_primary_port (to, &mut self.bytes));
    }

    /// Returns DefaultMulticastNotPrimaryPort.
    pub fn default_multicast_not_primary_port(&self) -> PortNum
        ensures { result ≡ number_in default_multicast_not_primary_port self.now }
    {
        switch_info!(read default_multicast_not_primary_port (&self.bytes))
    }

    /// Writes DefaultMulticastNotPrimaryPort.
    pub fn set_default_multicast_not_primary_port(&mut self, to: PortNum)
        ensures { self.new ≡ with_number default_multicast_not_primary_port to self.old }
    {
        switch_info!(write default_multicast_not_primary_port (to, &mut self.bytes));
    }

    /// Returns LIDsPerPort.
    pub fn lids_per_port(&self) -> u16
        ensures { result ≡ number_in lids_per_port self.now }
    {
        switch_info!(read lids_per_port (&self.bytes))
    }

    /// Writes LIDsPerPort.
    pub fn set_lids_per_port(&mut self, to: u16)
        ensures { self.new ≡ with_number lids_per_port to self.old }
    {
        switch_info!(write lids_per_port (to, &mut self.bytes));
    }

    /// Returns PartitionEnforcementCap.
    pub fn partition_enforcement_cap(&self) -> u16
        ensures { result ≡ number_in partition_enforcement_cap self.now }
    {
        switch_info!(read partition_enforcement_cap (&self.bytes))
    }

    /// Writes PartitionEnforcementCap.
    pub fn set_partition_enforcement_cap(&mut self, to: u16)
        ensures { self.new ≡ with_number partition_enforcement_cap to self.old }
    {
        switch_info!(write partition_enforcement_cap (to, &mut self.bytes));
    }

    /// Returns LifeTimeValue, 5 bits.
    pub fn life_time_value(&self) -> u8
        ensures number { result ≡ bits_in life_time_value self.now }
        ensures fits { result < 2 ^ 5 }
    {
        switch_info!(bits life_time_value (&self.bytes))
    }

    /// Writes LifeTimeValue. `to` must have at most 5 bits.
    pub fn set_life_time_value(&mut self, to: u8)
        requires { to < 2 ^ 5 }
        ensures { self.new ≡ with_bits life_time_value to self.old }
    {
        switch_info!(with_bits life_time_value (&mut self.bytes, to));
    }

    /// Returns PortStateChange: whether the state of a port has changed.
    pub fn port_state_change(&self) -> bool
        ensures { IsTrue result ↔ (bits_in port_state_change self.now ≡ 1) }
    {
        switch_info!(bits port_state_change (&self.bytes)) == 1
    }

    /// Writes PortStateChange.
    pub fn set_port_state_change(&mut self, to: bool)
        ensures { self.new ≡ with_bits port_state_change (flag to) self.old }
    {
        switch_info!(with_bits port_state_change (&mut self.bytes, u8::from(to)));
    }
}
