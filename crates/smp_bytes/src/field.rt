//! The table of fields (management datagram header; SMP formats). A field has the offset of its first byte in a packet.
//! A single bit has its index in its byte, counted from the lowest bit, 0.

pub const BASE_VERSION: usize = 0;

pub const MGMT_CLASS: usize = 1;

pub const CLASS_VERSION: usize = 2;

pub const METHOD: usize = 3;

pub const STATUS: usize = 4;

/// The index of the R bit in the byte of the method.
pub const RESPONSE_BIT: u32 = 7;

/// The index of the D bit of a directed packet in the first byte of the status.
pub const DIRECTION_BIT: u32 = 7;

pub const HOP_POINTER: usize = 6;

pub const HOP_COUNT: usize = 7;

pub const TRANSACTION_ID: usize = 8;

pub const ATTRIBUTE_ID: usize = 16;

pub const ATTRIBUTE_MODIFIER: usize = 20;

pub const M_KEY: usize = 24;

pub const DR_SLID: usize = 32;

pub const DR_DLID: usize = 34;

pub const DATA: usize = 64;

pub const INITIAL_PATH: usize = 128;

pub const RETURN_PATH: usize = 192;
