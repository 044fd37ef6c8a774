//! Tests of minion_core, flat_fleet, fleet_config and node_core, by their public calls alone.
#![tactic(auto)]

#[cfg(test)]
mod fleets;
#[cfg(test)]
mod made;
#[cfg(test)]
mod minions;
#[cfg(test)]
mod nodes;
#[cfg(test)]
mod orders;
#[cfg(test)]
mod readings;
#[cfg(test)]
mod steps;
#[cfg(test)]
mod syndics;
#[cfg(test)]
mod targets;
