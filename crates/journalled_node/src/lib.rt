//! A node that keeps its records in a log on a disk, which is lent at each call: a record is on the disk before the node answers.
//!
//! ```
//! JournalledNode::create(&mut disk, 1_073_741_824)?;
//! let mut node = JournalledNode::load(alloc, &fleet, me, &mut disk)?;
//! let reply = node.take(&mut disk, from, &message)?;
//! ```
#![tactic(auto)]

mod fault;
mod keeping;
mod loading;
mod node;
mod publishing;
mod taking;

pub use fault::{LoadFault, PublishFault, TakeFault};
pub use node::JournalledNode;
