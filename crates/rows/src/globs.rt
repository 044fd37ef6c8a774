//! Globs.
use crate::spread::cut;
use std::alloc::{AllocError, Global};

/// Whether a glob holds for a text.
pub fn glob(alloc: Global, rest: &str) -> Result<String, AllocError> {
    let (pattern, text) = cut(rest);
    format!(in alloc; "{}", salt_glob::glob(pattern.as_bytes(), text.as_bytes()))
}

/// Whether a glob holds for a text without regard to case.
pub fn glob_caseless(alloc: Global, rest: &str) -> Result<String, AllocError> {
    let (pattern, text) = cut(rest);
    format!(in alloc;
        "{}",
        salt_glob::glob_caseless(pattern.as_bytes(), text.as_bytes())
    )
}
