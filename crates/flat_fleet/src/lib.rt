//! The flat fleet: every job in order on every minion, without tree, message or disk. `flat_reports(alloc, &fleet, &jobs, &matchers)?` gives the
//! report of each job.
#![tactic(auto)]

mod laws;
mod report;
mod reports;

pub use laws::first_jobs_decide;
pub use report::{FlatMinion, FlatReport};
pub use reports::flat_reports;
