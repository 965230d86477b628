//! The table of fields (subnet administration, SA management datagrams). A field has the offset of its first byte in a
//! packet.

pub const BASE_VERSION: usize = 0;

pub const MGMT_CLASS: usize = 1;

pub const CLASS_VERSION: usize = 2;

pub const METHOD: usize = 3;

/// The index of the R bit in the byte of the method.
pub const RESPONSE_BIT: u32 = 7;

pub const STATUS: usize = 4;

pub const TRANSACTION_ID: usize = 8;

pub const ATTRIBUTE_ID: usize = 16;

pub const ATTRIBUTE_MODIFIER: usize = 20;

pub const RMPP_KIND: usize = 24;

pub const RMPP_TYPE: usize = 25;

pub const RMPP_FLAGS: usize = 26;

pub const SEGMENT_NUMBER: usize = 28;

pub const PAYLOAD_LENGTH: usize = 32;

pub const ATTRIBUTE_OFFSET: usize = 44;

pub const COMPONENT_MASK: usize = 48;

pub const RECORD: usize = 56;

/// The number of the port, in a request for PortInfoRecord.
pub const PORT: usize = 58;

/// NodeInfo or PortInfo, behind the LID of a record.
pub const ATTRIBUTE: usize = 60;
