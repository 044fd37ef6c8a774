//! Globs: patterns with `*`, `?` and classes, as a shell has them for the names of files, on any bytes
//! (Salt documentation, Targeting Minions): `glob(b"web[1-3]*", b"web2.example.net")` is true.
#![tactic(auto)]

mod class;
mod folded;
mod law;
mod matching;

pub use law::globs_go_by_the_front;
pub use matching::{glob, glob_caseless};
