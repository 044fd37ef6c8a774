//! Tests of targets and their matching, by public calls alone.
#![tactic(auto)]

#[cfg(test)]
mod data;
#[cfg(test)]
mod fleet;
#[cfg(test)]
mod groups;
#[cfg(test)]
mod kinds;
#[cfg(test)]
mod laws;
#[cfg(test)]
mod lengths;
#[cfg(test)]
mod matching;
#[cfg(test)]
mod said;
