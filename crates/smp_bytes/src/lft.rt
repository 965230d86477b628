//! Linear forwarding tables: their entries, and their blocks of 64 entries.
//!
//! InfiniBand Architecture Specification, Volume 1: LinearForwardingTable.

/// The entry of a LID for which a switch drops packets. Entries up to 254 are port numbers.
pub const NO_ENTRY: u8 = 255;

/// The number of the last block with entries for unicast LIDs.
pub const LAST_BLOCK: u16 = 767;
