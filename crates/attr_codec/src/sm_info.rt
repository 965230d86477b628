use crate::attribute::Attribute;
use crate::bits::{bits, with_bits};
use crate::field_type;
use crate::macros::fields;
use crate::priority::Priority;
use crate::sm_state_number::SmStateNumber;
use smp_bytes::{AttributeId, Guid};

/// What a subnet manager reports about itself (subnet management, SMInfo).
#[derive(Clone, Copy, Debug, PartialEq, Eq)]
pub struct SmInfo {
    /// The GUID of the manager's port.
    pub guid: Guid,
    pub sm_key: u64,
    /// A counter that rises while the manager is active.
    pub act_count: u32,
    pub priority: Priority,
    pub state: SmStateNumber,
}

/// Each field, its type and its offset.
macro_rules! sm_info {
    ($make:ident $source:ident) => {
        fields!($make $source, SmInfo {
            guid: Guid at 0,
            sm_key: u64 at 8,
            act_count: u32 at 16,
        } bits {
            priority: Priority at 20, 4, 4,
            state: SmStateNumber at 20, 0, 4,
        })
    };
}

impl Attribute for SmInfo {
    ghost use Rattle.attr_codec.specs.SmInfo.{FitsSmInfo, sm_info_in, sm_info_bytes};
    ghost use Rattle.smp_bytes.specs.Header.{sm_info};

    const ID: u16 = AttributeId::SM_INFO.0;

    ghost ID = { sm_info };

    ghost is_value = { FitsSmInfo };

    ghost value_in = { sm_info_in };

    ghost bytes_of = { sm_info_bytes };

    fn decode(bytes: &[u8; 64]) -> Self {
        sm_info!(decode bytes)
    }

    fn encode(&self) -> [u8; 64] {
        sm_info!(encode self)
    }

    ghost use Rattle.attr_codec.specs.RoundTrip.{sm_info_reads_back};

    ghost reads_back = { sm_info_reads_back };
}
