//! The turns of a schedule: what happens in a network of nodes, one line at a time. Which turns a fleet has is told by `Turn::is_of`.
//!
//! ```text
//! let turn = Turn::Send { from: NodeId::TOP, to: NodeId::new(1), count: 1 };
//! ```
#![tactic(auto)]

mod turn;

pub use turn::Turn;
