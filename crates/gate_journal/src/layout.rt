//! The layout of a part: the name, the limits, the places and lengths in bytes, and the bytes of a gate.

/// The name of the format, with which each journal begins.
pub const NAME: [u8; 8] = *b"SALTJNL1";

/// The least limit of a journal, in bytes.
pub const LEAST_LIMIT: u64 = 64;

/// The greatest limit of a journal, in bytes.
pub const GREATEST_LIMIT: u64 = 1_073_741_824;

/// The number of bytes of the header: the name of the format and the limit.
pub const HEADER_BYTES: usize = 16;

/// The place of the first gate in bytes from the beginning of the part: it stands right behind the header.
pub const FIRST_GATE: u64 = HEADER_BYTES as u64;

/// The length in bytes of a journal without payloads: the header and a closed gate.
pub const FRESH_LENGTH: u64 = FIRST_GATE + 1;

/// The number of bytes that a record has beside its payload: the gate and the payload's length.
pub const RECORD_OVERHEAD: u64 = 5;

/// The byte of an open gate: a gate with any other byte is closed.
pub const OPEN_GATE: u8 = 1;

/// The byte of a closed gate, as it is written.
pub const CLOSED_GATE: u8 = 0;
