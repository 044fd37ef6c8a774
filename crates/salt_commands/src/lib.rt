//! What the programs run: the command that the words of a command line are, and a script whose text is compared with a wanted one.
//!
//! ```
//! let words = read_words(alloc, env::args(&rt));
//! let status = run_command(alloc, &words, &mut source, &mut sink);
//! let ending = run_example(alloc, &script, &wanted);
//! ```
#![tactic(auto)]

mod command;
mod example;
mod streams;
mod words;

pub use command::run_command;
pub use example::{Ending, run_example};
pub use words::{Unread, read_words};
