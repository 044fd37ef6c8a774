//! A list of payloads on the three parts of a disk, in generations of one journal: so far there is generation 0 alone,
//! whose journal stands on `Even`. After a crash at any moment each payload is whole or not there. The format is this
//! project's own.
//!
//! ```
//! Log::create(&mut disk, 1_073_741_824)?;
//! let (mut log, found) = Log::load(alloc, &mut disk)?;
//! log.append(alloc, &mut disk, b"one ping")?;
//! ```
#![tactic(auto)]

mod content;
mod create;
mod laws;
mod load;
mod log;

pub use content::LoadedContent;
pub use laws::{
    lengths_follow, logs_are_one, logs_at_rest_are_left, rests_stay, stops_go_by_the_gate,
};
pub use log::Log;
