//! Why a call on a journal was refused.
use salt_disk::Part;
use thiserror::Error;

/// Why a journal was not made.
#[derive(Clone, Copy, Debug, Error, PartialEq, Eq)]
pub enum CreateFault {
    #[error("no memory was found")]
    NoMemory,
    /// The disk's count of faults rose in this call.
    #[error("the disk failed")]
    Disk,
    /// The part has over `FRESH_LENGTH` bytes (17): it may hold payloads.
    #[error("the part has {length} bytes already")]
    NotEmpty { length: u64 },
}

/// Why a journal was not loaded.
#[derive(Clone, Copy, Debug, Error, PartialEq, Eq)]
pub enum LoadFault {
    #[error("no memory was found")]
    NoMemory,
    /// The disk's count of faults rose in this call.
    #[error("the disk failed")]
    Disk,
    /// The part has fewer than `FRESH_LENGTH` bytes (17), another name in front, or a limit outside `LEAST_LIMIT` to
    /// `GREATEST_LIMIT` (64 to 1,073,741,824 bytes).
    #[error("the part is no journal")]
    NotAJournal,
    /// The gate at this place is open, and the record behind it isn't whole, or goes past the limit.
    #[error("the journal on part {part:?} is damaged at place {at}")]
    Damaged { part: Part, at: u64 },
}

/// Why a payload was not added.
#[derive(Clone, Copy, Debug, Error, PartialEq, Eq)]
pub enum AppendFault {
    #[error("no memory was found")]
    NoMemory,
    /// An earlier append answered `Disk`: the journal has to be loaded again.
    #[error("the journal is down")]
    Down,
    /// The journal would have this length in bytes: `RECORD_OVERHEAD` (5) and the payload's length more than it has.
    #[error("the journal's length would be {length}, over its limit of {limit}")]
    Full { length: u64, limit: u64 },
    /// The disk's count of faults rose in this call. The journal is down from now on.
    #[error("the disk failed")]
    Disk,
}
