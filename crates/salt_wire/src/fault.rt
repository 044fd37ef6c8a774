//! Why bytes are no message.
ghost use Rattle.std.specs.Prelude.{◌≡◌};
ghost use Rattle.salt_wire.specs.declared.fault.Misread.TheVariants.{NoMemory};

use std::alloc::AllocError;
use thiserror::Error;

/// Why a body is no message: the first fault from the left. A place is a number of bytes from the front.
#[derive(Clone, Copy, Debug, Error, PartialEq, Eq)]
pub enum WireFault {
    #[error("no memory was found")]
    NoMemory,
    /// The first byte isn't there or isn't 1.
    #[error("the message has another version")]
    BadVersion,
    /// The second byte isn't there or is the kind of no message.
    #[error("the message has an unknown kind")]
    BadKind,
    /// The field whose first byte stands there isn't whole or breaks its rule.
    #[error("the field at byte {at} is wrong")]
    BadField { at: usize },
    /// A byte stands there, after the last field.
    #[error("byte {at} stands after the message")]
    Trailing { at: usize },
}

// The first fault from the left, where a place is the number of bytes from there to the end.
#[derive(Clone, Copy, Debug, PartialEq, Eq)]
pub enum Misread {
    NoMemory,
    BadVersion,
    BadKind,
    BadField(usize),
    Trailing(usize),
}

impl From<AllocError> for Misread {
    ghost from_gives = { λ _ e. e ≡ NoMemory };

    fn from(_: AllocError) -> Misread {
        Misread::NoMemory
    }
}
