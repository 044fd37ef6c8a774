//! Tests of salt_outside, salt_disk, gate_journal and checkpoint_log, by their public calls alone.
#![tactic(auto)]

#[cfg(test)]
mod disk;
#[cfg(test)]
mod journal;
#[cfg(test)]
mod log;
#[cfg(test)]
mod stage;
#[cfg(test)]
mod streams;
