//! Which minions a target holds for: `Matcher::build(alloc, &target)?` answers `holds(&id, &grains, &pillar)?` for each.
#![tactic(auto)]

mod building;
mod data;
mod fault;
mod holding;
mod ids;
mod leaf;
mod matcher;
mod parts;
mod pattern;
mod reach;
mod ready;
mod search;

pub use fault::BuildFault;
pub use matcher::Matcher;
pub use search::Searches;
