//! Trees of texts in this project's subset of YAML, with the line of each part and of the first fault.
//! `read_yaml(alloc, "a:\n- 1\n- [x, y]\n", 1)?` is a map of one pair, whose value is a list on line 2.
#![tactic(auto)]

mod blocks;
mod keys;
mod laws;
mod lines;
mod read;
mod rows;
mod tree;

pub use laws::{faults_break_at_their_line, lines_are_numbered};
pub use read::read_yaml;
pub use tree::{Yaml, YamlItems, YamlNode, YamlPair, YamlPairs};
pub use yaml_words::{YamlCause, YamlFault};
