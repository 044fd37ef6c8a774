//! Why a job was not run.
use std::alloc::AllocError;
use target_match::BuildFault;
use thiserror::Error;

/// Why a job was not run. The faults of a target's patterns are those of `target_match`.
#[derive(Clone, Copy, Debug, Error, PartialEq, Eq)]
pub enum RunFault {
    #[error("no memory was found")]
    NoMemory,
    /// The pattern of this leaf of the target, counted from 0 from left to right, cannot be read.
    #[error("the pattern of leaf {leaf} cannot be read")]
    BadPattern { leaf: u32 },
    /// The pattern of this leaf can be read, but its tables would pass 10 MiB, the limit of `regex`.
    #[error("the pattern of leaf {leaf} is too big")]
    TooBig { leaf: u32 },
}

impl From<AllocError> for RunFault {
    ghost use Rattle.std.specs.Prelude.{◌≡◌};
    ghost use Rattle.minion_core.specs.declared.fault.RunFault.TheVariants.{NoMemory};

    ghost from_gives = { λ _ e. e ≡ NoMemory };

    fn from(_: AllocError) -> RunFault {
        RunFault::NoMemory
    }
}
