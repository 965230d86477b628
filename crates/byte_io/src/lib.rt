//! Sources and sinks of bytes, and writers of the numbers, GUIDs and ports in texts.
#![tactic(auto)]

mod budget;
mod from_bytes;
mod from_read;
mod interruption;
mod reading;
mod sink;
mod source;
mod text;
mod to_room;
mod to_write;

pub use budget::READ_LIMIT;
pub use from_bytes::FromBytes;
pub use from_read::FromRead;
pub use reading::{PieceFault, Reading};
pub use sink::{Sink, WriteFault};
pub use source::{ReadError, Source};
pub use text::{write_guid, write_number, write_port};
pub use to_room::ToRoom;
pub use to_write::ToWrite;
