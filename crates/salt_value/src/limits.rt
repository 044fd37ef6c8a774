//! The limits, which are this project's own.

// The bytes of the longest id.
pub const MOST_ID_BYTES: usize = 64;

// The bytes of the longest word.
pub const MOST_WORD_BYTES: usize = 256;

// The levels of the deepest value.
pub const MOST_VALUE_LEVELS: usize = 32;

// The bytes of the longest value.
pub const MOST_VALUE_BYTES: usize = 65_536;
