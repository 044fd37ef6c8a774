//! Values.
use crate::digits::{bytes_of, digits_of};
use salt_value::Value;
use std::alloc::{AllocError, Global};

/// How many bytes the value that begins these takes, the bytes of its copy, and the text of a scalar.
pub fn value(alloc: Global, rest: &str) -> Result<String, AllocError> {
    match bytes_of(alloc, rest)? {
        Some(bytes) => read(alloc, &bytes),
        None => String::from_str(alloc, "no bytes"),
    }
}

fn read(alloc: Global, bytes: &[u8]) -> Result<String, AllocError> {
    match Value::read(alloc, bytes) {
        Ok((value, taken)) => told(alloc, &value, taken, bytes),
        Err(fault) => format!(in alloc; "{fault:?}"),
    }
}

fn told(alloc: Global, value: &Value, taken: usize, input: &[u8]) -> Result<String, AllocError> {
    let copy = written(alloc, &value.copy(alloc)?, input)?;
    let text = text_of(alloc, value)?;
    format!(in alloc; "{taken} taken, {copy}{text}")
}

// The text of a scalar. Of more than 64 bytes their number is told.
fn text_of(alloc: Global, value: &Value) -> Result<String, AllocError> {
    match value.scalar_text(alloc)? {
        None => Ok(String::new(alloc)),
        Some(text) => shown(alloc, text.as_str()),
    }
}

fn shown(alloc: Global, text: &str) -> Result<String, AllocError> {
    if text.len() <= 64 {
        format!(in alloc; ", the text {text}")
    } else {
        format!(in alloc; ", a text of {} bytes", text.len())
    }
}

fn written(alloc: Global, value: &Value, input: &[u8]) -> Result<String, AllocError> {
    if !value.fits() {
        return String::from_str(alloc, "past the limits");
    }
    let mut out = Vec::new(alloc);
    value.write(&mut out)?;
    digits_of(alloc, &out, input)
}
