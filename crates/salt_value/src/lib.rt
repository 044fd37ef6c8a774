//! Ids of nodes and of jobs, words, texts and values, and values as bytes. `Value::read(alloc, bytes)?` gives the value that begins
//! some bytes and how many bytes it takes, and `value.write(&mut out)?` appends those bytes again.
#![tactic(auto)]

mod bytes;
mod changes;
mod copy;
mod event;
mod fault;
mod fields;
mod fits;
mod id;
mod jid;
mod laws;
mod limits;
mod outcome;
mod reading;
mod same;
mod text;
mod value;
mod word;
mod writing;

pub use bytes::{put_text, put_u16, put_u32, put_u64, text_or, u8_or, u16_or, u32_or, u64_or};
pub use copy::copy_items;
pub use event::Event;
pub use fault::ValueFault;
pub use fields::Pairs;
pub use fits::list_fits;
pub use id::{IdFault, Ids, MinionId, NodeId};
pub use jid::{Jid, JidEnd};
pub use laws::{numbers_read_back, prefix_free, texts_read_back, values_read_back};
pub use outcome::{Outcome, Row, Rows};
pub use text::Text;
pub use value::{Fields, Items, Value};
pub use word::{Word, WordFault};
