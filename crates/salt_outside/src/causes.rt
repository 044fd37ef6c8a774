//! Why a call gave no answer.
use thiserror::Error;

/// Why a call on the outside gave no answer.
#[derive(Clone, Copy, Debug, Error, PartialEq, Eq)]
pub enum Outside {
    /// No memory was found. The object is as it was before the call.
    #[error("no memory was found")]
    NoMemory,
    /// The object failed, and has counted that.
    #[error("the outside failed")]
    Failed,
}
