//! The jobs of a master in order, and what the minions returned of each.
//!
//! `store.outcome(seq, &id)` finds what a minion returned of a job, without a walk.
#![tactic(auto)]

mod faults;
mod laws;
mod store;

pub use faults::{AddFault, PutFault};
pub use laws::outcomes_by_steps;
pub use store::JobStore;
