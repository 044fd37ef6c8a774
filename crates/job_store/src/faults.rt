//! Why a job or a return was not taken.

use thiserror::Error;

/// Why a job was not added.
#[derive(Clone, Copy, Debug, Error, PartialEq, Eq)]
pub enum AddFault {
    /// There is no memory for one more.
    #[error("no memory for the job")]
    NoMemory,
    /// Its jid is not later than that of the last job.
    #[error("the job is not later than the last one")]
    NotLater,
}

/// Why a return was not put into the store, the first in this order.
#[derive(Clone, Copy, Debug, Error, PartialEq, Eq)]
pub enum PutFault {
    /// There is no memory for one more.
    #[error("no memory for the return")]
    NoMemory,
    /// There is no job with this number.
    #[error("there is no job with this number")]
    NoJob,
    /// The minion has returned the job.
    #[error("the minion has returned this job")]
    Twice,
}
