//! Sources and sinks: the ways in which bytes come in and go out.
//!
//! Each object counts its faults, and tells what it has left or what it holds where it can. The objects over memory
//! tell it, those over the readers and writers of std do not. So a contract above can say what is done over bytes that
//! are told, and that a fault is answered only where the object had one. The traits and their rules are this project's
//! own.
//!
//! ```
//! let text = read_all(alloc, &mut source, 65_536)?;
//! ```
#![tactic(auto)]

mod calls;
mod causes;
mod memory;
mod read;
mod standard;
mod streams;

pub use causes::Outside;
pub use memory::{MemSink, MemSource};
pub use read::{ReadAll, read_all};
pub use standard::{StdSink, StdSource};
pub use streams::{Sink, Source};
