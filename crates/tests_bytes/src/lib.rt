//! Tests of frames, messages and records by their public calls.
#![tactic(auto)]

#[cfg(test)]
mod frames;
#[cfg(test)]
mod messages;
#[cfg(test)]
mod records;
#[cfg(test)]
mod trees;
