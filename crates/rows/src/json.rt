//! JSON texts.
use salt_value::Value;
use std::alloc::{AllocError, Global};
use value_json::{from_text, to_text};

/// The bytes of the value of a JSON text, and the value's own text.
pub fn json(alloc: Global, rest: &str) -> Result<String, AllocError> {
    match from_text(alloc, rest) {
        Ok(value) => both(alloc, &value),
        Err(fault) => format!(in alloc; "{fault:?}"),
    }
}

fn both(alloc: Global, value: &Value) -> Result<String, AllocError> {
    if !value.fits() {
        return String::from_str(alloc, "past the limits");
    }
    let mut out = Vec::new(alloc);
    value.write(&mut out)?;
    let text = to_text(alloc, value)?;
    shown(alloc, &out, text.as_str())
}

// Of more than 64 bytes their number is told.
fn shown(alloc: Global, bytes: &[u8], text: &str) -> Result<String, AllocError> {
    if bytes.len() > 64 {
        return format!(in alloc; "{} bytes, a text of {}", bytes.len(), text.len());
    }
    let digits = hex::encode(alloc, bytes)?;
    format!(in alloc; "{digits}, {text}")
}
