//! A record of calls.
use crate::Part;

/// A call that changed what a crash may leave, as a disk in memory records it.
#[derive(Drop)]
pub enum Call {
    /// These bytes at this place.
    Write(Part, u64, Vec<u8>),
    Cut(Part),
    /// With the number of bytes that the part had.
    Sync(Part, u64),
}
