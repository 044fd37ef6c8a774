//! What stands on one line of a text in this project's subset of YAML: scalars, lists on one line, keys.
//! `read_flow_node(alloc, 32, 1, "[a, 'b c', 3] # a list")?` is a list of two texts and a number.
#![tactic(auto)]

mod fault;
mod flow;
mod keys;
mod laws;
mod lists;
mod numbers;
mod places;
mod plain;
mod quotes;
mod spaces;

pub use fault::{YamlCause, YamlFault, refused};
pub use flow::{FlowNode, read_flow_node};
pub use keys::{after_mark, is_item, read_key, split_key};
pub use laws::{faults_have_their_line, written_is_read_back};
pub use places::{Delimiter, begins_with, ends_or, place};
pub use plain::MOST_SCALAR_BYTES;
pub use quotes::QuoteKind;
pub use spaces::{after_spaces, unindented, without_first};
