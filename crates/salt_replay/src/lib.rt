//! The program's commands over any source and sink: what a run reads, what it writes, and how it ends.
//!
//! `salt_main(alloc, &words, &mut source, &mut sink)` with the one word `replay` reads a script from the source, writes the text of its run
//! to the sink, and answers the exit status.
#![tactic(auto)]

mod replay;

pub use replay::{Status, run_replay, salt_main};
