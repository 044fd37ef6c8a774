//! Tests of tree_world, tree_laws and script_text, by their public calls alone.
#![tactic(auto)]

#[cfg(test)]
mod kinds;
#[cfg(test)]
mod laws;
#[cfg(test)]
mod plays;
#[cfg(test)]
mod scripts;
#[cfg(test)]
mod settles;
#[cfg(test)]
mod syndics;
#[cfg(test)]
mod turns;
#[cfg(test)]
mod worlds;
