//! Why bytes are no part of a record.
ghost use Rattle.std.specs.Prelude.{◌≡◌};
ghost use Rattle.journal_records.specs.declared.fault.RecordFault.TheVariants.{NoMemory};

use std::alloc::AllocError;

// Why a part of a record was not read.
#[derive(Clone, Copy, Debug, PartialEq, Eq)]
pub enum RecordFault {
    NoMemory,
    // The bytes begin with no such part.
    NoRecord,
}

impl From<AllocError> for RecordFault {
    ghost from_gives = { λ _ e. e ≡ NoMemory };

    fn from(_: AllocError) -> RecordFault {
        RecordFault::NoMemory
    }
}
