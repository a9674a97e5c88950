// The event file: its trailer, its records, and why a file or a record is refused.
#![tactic(auto)]

pub mod file_fault;
pub mod reader;
pub mod record;
pub mod records;
pub mod trailer;
