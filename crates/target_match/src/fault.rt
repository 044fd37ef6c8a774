//! Why a target is not made ready.
use std::alloc::AllocError;
use thiserror::Error;

/// Why a target was not made ready for matching.
#[derive(Clone, Copy, Debug, Error, PartialEq, Eq)]
pub enum BuildFault {
    /// There is no memory for it.
    #[error("no memory was found")]
    NoMemory,
    /// The pattern of this leaf is not one of the grammar, or nests too deep. Leaves are counted from 0 from left to right; the
    /// count stands still at 4,294,967,295.
    #[error("the pattern of leaf {leaf} cannot be read")]
    BadPattern { leaf: u32 },
    /// The pattern of this leaf, counted so, can be read, but its tables would pass 10 MiB, the limit of `regex`.
    #[error("the pattern of leaf {leaf} is too big")]
    TooBig { leaf: u32 },
}

impl From<AllocError> for BuildFault {
    ghost use Rattle.std.specs.Prelude.{◌≡◌};
    ghost use Rattle.target_match.specs.declared.fault.BuildFault.TheVariants.{NoMemory};

    ghost from_gives = { λ _ e. e ≡ NoMemory };

    fn from(_: AllocError) -> BuildFault {
        BuildFault::NoMemory
    }
}
