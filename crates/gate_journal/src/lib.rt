//! One part of a disk as a list of payloads, each of them whole or not there after a crash at any moment. The format is
//! this project's own.
//!
//! ```
//! journal.append(alloc, &mut disk, b"one ping")?;
//! ```
#![tactic(auto)]

mod fault;
mod journal;
mod layout;
mod payload;
mod read;
mod write;

pub use fault::{AppendFault, CreateFault, LoadFault};
pub use journal::Journal;
pub use layout::{
    CLOSED_GATE, FIRST_GATE, FRESH_LENGTH, GREATEST_LIMIT, HEADER_BYTES, LEAST_LIMIT, NAME,
    OPEN_GATE, RECORD_OVERHEAD,
};
pub use payload::{Payload, Payloads};
pub use write::{header_bytes, record_bytes};
