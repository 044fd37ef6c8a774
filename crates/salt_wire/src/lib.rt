//! Messages between the nodes of a fleet, as bytes. `encode(&message, &mut out)?` appends the body of a message, and
//! `decode(alloc, body)?` gives the message of a body.
#![tactic(auto)]

mod copy;
mod deed;
mod fault;
mod fields;
mod fit;
mod laws;
mod message;
mod parts;
mod reading;
mod tree;
mod whole;
mod wire;
mod writing;

pub use deed::{Changed, Deed, Entries, ReactDeed, ReactDeeds};
pub use fault::WireFault;
pub use fit::tree_fits;
pub use laws::messages_read_back;
pub use message::{Entry, Job, Message};
pub use salt_value::{Event, Outcome};
pub use wire::{
    decode, encode, read_entry, read_id, read_job, read_word, write_entry, write_id, write_job,
    write_word,
};
