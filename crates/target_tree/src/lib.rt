//! Targets: the words of a compound, their tree, and their faults.
//! `read_target(alloc, Kind::Compound, "web* and not G@os:debian", &groups)?` is the tree `And(web*, Not(os:debian))`.
#![tactic(auto)]

mod copy;
mod fault;
mod groups;
mod items;
mod kind;
mod limits;
mod read;
mod reader;
mod run;
mod stack;
mod target;
mod token;
mod words;

pub use fault::TargetFault;
pub use groups::{GroupFault, Groups};
pub use kind::Kind;
pub use limits::{MOST_OPEN, MOST_PATTERNS, MOST_TEXT_BYTES, MOST_WORDS};
pub use read::{read_target, trees_are_read};
pub use target::Target;
