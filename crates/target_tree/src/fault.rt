//! Why a text is no target.
use std::alloc::AllocError;
use thiserror::Error;

/// Why a text is no target: the first fault of one reading from left to right, in which a nodegroup's words are read where its word stands.
/// `at` is the number of words that were read before, over all texts. The faults are this project's own.
#[derive(Clone, Copy, Debug, Error, PartialEq, Eq)]
pub enum TargetFault {
    /// There is no memory for the tree.
    #[error("no memory for the target")]
    NoMemory,
    /// A compound without a word, or another text without a byte. It comes before `TooLong`.
    #[error("the target is empty")]
    Empty,
    /// A text of more than 4,096 bytes.
    #[error("the target has more than 4,096 bytes")]
    TooLong,
    /// A word with which no compound of its text can go on, or the end of a text where an operand is due.
    #[error("word {at} can't stand there")]
    Word { at: u32 },
    /// A text ends where only closing parentheses are due.
    #[error("a parenthesis is not closed")]
    Unclosed,
    /// The 65th `not` or `(` that stands open, over all texts.
    #[error("more than 64 of `not` and `(` stand open")]
    TooDeep,
    /// The 257th word, over all texts. It comes before every other fault of that word.
    #[error("more than 256 words")]
    TooManyWords,
    /// The 17th leaf with a pattern, over all texts.
    #[error("more than 16 patterns")]
    TooManyPatterns,
    /// No nodegroup has this name.
    #[error("word {at} names no nodegroup")]
    UnknownGroup { at: u32 },
    /// The nodegroup is being read already.
    #[error("word {at} names a nodegroup that it is part of")]
    Circle { at: u32 },
    /// A capital and an `@` that begin no leaf.
    #[error("word {at} begins with a letter without a meaning")]
    BadLetter { at: u32 },
}

impl From<AllocError> for TargetFault {
    ghost use Rattle.std.specs.Prelude.{◌≡◌};
    ghost use Rattle.target_tree.specs.declared.fault.TargetFault.TheVariants.{NoMemory};

    ghost from_gives = { λ _ e. e ≡ NoMemory };

    fn from(_: AllocError) -> TargetFault {
        TargetFault::NoMemory
    }
}
