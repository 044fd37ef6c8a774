//! Why bytes are no value.
ghost use Rattle.std.specs.Prelude.{◌≡◌};
ghost use Rattle.salt_value.specs.declared.fault.Misread.TheVariants.{NoMemory};

use std::alloc::AllocError;
use thiserror::Error;

/// Why no value begins the bytes: the first fault from the left. A place is a number of bytes from
/// the front. The limits are this project's own.
#[derive(Clone, Copy, Debug, Error, PartialEq, Eq)]
pub enum ValueFault {
    #[error("no memory was found")]
    NoMemory,
    /// A byte is needed past the end.
    #[error("the bytes end within a value")]
    Short,
    /// The byte there is the tag of no value.
    #[error("byte {at} is the tag of no value")]
    BadTag { at: usize },
    /// The key whose first byte stands there doesn't stand after the key before it.
    #[error("the key at byte {at} doesn't stand after the key before it")]
    Unsorted { at: usize },
    /// The text or key whose first byte stands there is no UTF-8.
    #[error("the text at byte {at} is no UTF-8")]
    NotUtf8 { at: usize },
    /// A member of a value on level 32 would begin.
    #[error("the value has more than 32 levels")]
    TooDeep,
    /// A byte is needed past the first 65,536.
    #[error("the value has more than 65,536 bytes")]
    TooLarge,
}

// The first fault from the left, where a place is the number of bytes from there to the end.
#[derive(Clone, Copy, Debug, PartialEq, Eq)]
pub enum Misread {
    NoMemory,
    Short,
    BadTag(usize),
    Unsorted(usize),
    NotUtf8(usize),
    TooDeep,
}

impl From<AllocError> for Misread {
    ghost from_gives = { λ _ e. e ≡ NoMemory };

    fn from(_: AllocError) -> Misread {
        Misread::NoMemory
    }
}
