//! What a master keeps of its records: the jobs with what the minions returned of each, and the log of each minion below it.
//!
//! `core.apply(deed)?` takes a record in, and `core.jobs().outcome(seq, &id)` and `core.log(&id)` find what was taken.
#![tactic(auto)]

mod laws;
mod master;

pub use laws::logs_by_steps;
pub use master::MasterCore;
