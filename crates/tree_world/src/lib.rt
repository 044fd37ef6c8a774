//! The network of nodes, one turn at a time, and the text that it prints.
//!
//! ```text
//! let mut world = World::of(alloc, &fleet)?;
//! world.step(&Turn::Send { from: NodeId::TOP, to: NodeId::new(1), count: 1 }, &mut sink)?;
//! ```
#![tactic(auto)]

mod nodes;
mod packet;
mod queries;
mod report;
mod settle;
mod text;
mod world;

pub use fleet_turns::Turn;
pub use world::{StepFault, World, tell};
