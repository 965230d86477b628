//! A run on files of records: the files are read, and what they say is written, as text or as a store file.
#![tactic(auto)]

mod asked;
mod audit_asked;
mod exit_status;
mod fault;
mod fault_line;
mod from_text;
mod input_files;
mod input_tables;
mod input_texts;
mod inputs;
pub mod laws;
mod order_text;
mod run;
mod serving;
mod step_asked;
mod step_reader;
mod text_fault;

pub use asked::{Invocation, Output, RuleAsked, texts_if};
pub use audit_asked::{AuditAsked, WayAsked};
pub use exit_status::ExitStatus;
pub use fault::Fault;
pub use fault_line::write_fault;
pub use from_text::FromText;
pub use input_files::FilesFrom;
pub use input_tables::{
    TablesAndFacts, TextAndTables, read_tables_and_files, read_text_and_tables,
};
pub use inputs::{InputReader, read_inputs};
pub use order_text::write_order;
pub use run::run_files;
pub use serving::Serving;
pub use step_asked::StepAsked;
pub use step_reader::StepReader;
pub use text_fault::TextFault;
