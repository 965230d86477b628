//! Reading and writing of files of reports and of a store's cells.
#![tactic(auto)]

mod absorb_all;
mod absorb_record;
mod absorber;
mod awaited;
mod cell_record;
mod facts_text;
mod file_fault;
mod format;
mod head;
pub mod laws;
mod line;
mod numbers;
mod report_record;
mod store_file;
mod whole;

pub use absorb_all::{absorb, absorb_by};
pub use absorber::Absorber;
pub use byte_io::{
    FromBytes, FromRead, ReadError, Sink, Source, ToRoom, ToWrite, WriteFault, write_guid,
    write_number, write_port,
};
pub use facts_text::{write_cell, write_facts};
pub use file_fault::FileFault;
pub use store_file::write_store;
pub use whole::read_whole;
