//! The logs that a master keeps of the minions below it, in the order of their places.
//!
//! `logs.push(minion, entry)?` adds an entry to the log of the minion at a place, and `logs.entries(minion)` gives that log.
#![tactic(auto)]

mod logs;

pub use logs::UpLogs;
