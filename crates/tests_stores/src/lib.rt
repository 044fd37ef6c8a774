//! Tests of what a master keeps: job_store, up_logs and master_core, by their public calls alone.
#![tactic(auto)]

#[cfg(test)]
mod logs;
#[cfg(test)]
mod made;
#[cfg(test)]
mod masters;
#[cfg(test)]
mod stores;
