//! The limits of a target. They are this project's own.

/// The most bytes that a text may have, that of a nodegroup too.
pub const MOST_TEXT_BYTES: usize = 4096;

/// The most words over all texts.
pub const MOST_WORDS: u32 = 256;

/// The most words `not` and `(` that may stand open over all texts.
pub const MOST_OPEN: u32 = 64;

/// The most leaves with a pattern over all texts.
pub const MOST_PATTERNS: u32 = 16;
