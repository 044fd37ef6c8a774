//! The execution functions that a job may name, and what each answers and changes on a minion.
//! `run(alloc, &fun, args.as_slice(), &held)?` gives the outcome, what the function changed, and its notes.
#![tactic(auto)]

mod arguments;
mod by_key;
mod execution;
mod function;
mod holdings;
mod path;
mod query;
mod results;

pub use execution::{exec, run};
pub use function::{Function, Query};
pub use holdings::{Change, Done, Holdings, Note, Notes, Ran};
