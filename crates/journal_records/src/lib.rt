//! The records of a node's journal as bytes. `write_record(alloc, &deed)?` gives the bytes of what a node did, and
//! `read_record(alloc, bytes)?` gives what a node did by the bytes of a record.
#![tactic(auto)]

mod fault;
mod laws;
mod parts;
mod reading;
mod records;
mod writing;

pub use laws::records_read_back;
pub use records::{read_record, write_record};
