//! Ids, words and job ids.
use salt_value::{Jid, MinionId, Word};
use std::alloc::{AllocError, Global};

/// The id that a text is.
pub fn id(alloc: Global, text: &str) -> Result<String, AllocError> {
    match MinionId::read(text) {
        Ok(id) => String::from_str(alloc, id.as_str()),
        Err(fault) => format!(in alloc; "{fault:?}"),
    }
}

/// The word that a text is.
pub fn word(alloc: Global, text: &str) -> Result<String, AllocError> {
    match Word::read(alloc, text) {
        Ok(word) => String::from_str(alloc, word.as_str()),
        Err(fault) => format!(in alloc; "{fault:?}"),
    }
}

/// The microseconds of a job id.
pub fn jid(alloc: Global, text: &str) -> Result<String, AllocError> {
    match Jid::read(text.as_bytes()) {
        Some(jid) => format!(in alloc; "{}", jid.micros()),
        None => String::from_str(alloc, "none"),
    }
}

/// The job id of a publication at a moment, where none came before it.
pub fn jid_after(alloc: Global, text: &str) -> Result<String, AllocError> {
    match Jid::next(None, text.parse::<u64>().unwrap_or(0)) {
        Ok(jid) => String::from_str(alloc, std::str::from_utf8(&jid.text()).unwrap_or("?")),
        Err(fault) => format!(in alloc; "{fault:?}"),
    }
}
