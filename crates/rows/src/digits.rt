//! Bytes as hexadecimal digits.
use std::alloc::{AllocError, Global};

/// The bytes of a text of digits, with blanks between some of them; none where another byte stands there.
pub fn bytes_of(alloc: Global, text: &str) -> Result<Option<Vec<u8>>, AllocError> {
    let mut all = Vec::new(alloc);
    for part in text.split(' ') {
        match hex::decode(alloc, part.as_bytes()) {
            Ok(bytes) => all.extend_from_slice(&bytes)?,
            Err(_) => return Ok(None),
        }
    }
    Ok(Some(all))
}

/// The digits of bytes that stand at the front of others. Of more than 64 bytes it is told whether they do.
pub fn digits_of(alloc: Global, bytes: &[u8], input: &[u8]) -> Result<String, AllocError> {
    if bytes.len() <= 64 {
        return hex::encode(alloc, bytes);
    }
    let text = if input.starts_with(bytes) {
        "the same"
    } else {
        "others"
    };
    String::from_str(alloc, text)
}
