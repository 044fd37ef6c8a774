//! Frames of a byte stream that comes in pieces of any size: a length in four bytes, big-endian, and a body of at most
//! 1,048,576 bytes. After `buf.feed(piece)?` each `buf.next()` lends the body of the next whole frame.
#![tactic(auto)]

mod buffer;
mod fault;
mod front;
mod laws;

pub use buffer::FrameBuf;
pub use fault::FeedFault;
pub use laws::{any_cutting, frames_are_prefix_free, one_reading};
