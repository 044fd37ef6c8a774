//! The fleet: a tree of nodes with distinct ids and what they hold at first, nodegroups, and the limits that the fleet sets.
//!
//! `fleet.add(FleetNode { id, role: Role::Minion, parent: Some(NodeId::TOP), port: 0, held })?` puts a minion under the top, and answers its place.
#![tactic(auto)]

mod fleet;
mod laws;
mod node;

pub use fleet::{
    Fleet, LEAST_JOURNAL_LIMIT, MOST_JOBS, MOST_JOURNAL_LIMIT, MOST_LEVELS, MOST_MINIONS,
    MOST_SYNDICS, Member, Role,
};
pub use laws::minions_are_found;
pub use node::{FleetNode, NodeFault};
