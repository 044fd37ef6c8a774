//! Why a feed fails.
use thiserror::Error;

/// Why a piece of a stream was not taken, or not whole.
#[derive(Clone, Copy, Debug, Error, PartialEq, Eq)]
pub enum FeedFault {
    #[error("no memory was found")]
    NoMemory,
    /// A frame of the stream says this length for its body.
    #[error("a frame of {length} bytes is over the limit of 1048576")]
    TooLarge { length: u32 },
}
