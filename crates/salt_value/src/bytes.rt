//! Numbers and texts as bytes.
ghost use Rattle.std.specs.Prelude.{◌≡◌, ◌<◌, ◌^◌, ◌++◌, List, ℕ, length, false, MatchOption, OnOk, OnErr};
ghost use Rattle.std.specs.Int.{w8, w16, w32, w64, to_be_bytes};
ghost use Rattle.std.specs.Str.{is_utf8};
ghost use Rattle.salt_value.specs.Decoding as spec;
ghost use Rattle.salt_value.specs.Decoding.{Returns};
ghost use Rattle.salt_value.specs.Parts.{IsUtf8Of};
ghost use Rattle.salt_value.specs.Spelling as spelling;

use byteorder::{BigEndian, ByteOrder};
use std::alloc::AllocError;

/// The first byte, and the bytes after it. `short` where there is none.
pub fn u8_or<F: Copy>(bytes: &[u8], short: F) -> Result<(u8, &[u8]), F>
    ensures { Returns (λ x. (x.0, x.1.now)) result (spec.number_or w8 short bytes.now) }
{
    match bytes.split_first_chunk::<1>() {
        Some((front, rest)) => Ok((u8::from_be_bytes(*front), rest)),
        None => Err(short),
    }
}

/// The number in the first 2 bytes, the highest byte first, and the bytes after it. `short` where
/// there are fewer.
pub fn u16_or<F: Copy>(bytes: &[u8], short: F) -> Result<(u16, &[u8]), F>
    ensures { Returns (λ x. (x.0, x.1.now)) result (spec.number_or w16 short bytes.now) }
{
    match bytes.split_first_chunk::<2>() {
        Some((front, rest)) => Ok((u16::from_be_bytes(*front), rest)),
        None => Err(short),
    }
}

/// The number in the first 4 bytes, the highest byte first, and the bytes after it. `short` where
/// there are fewer.
pub fn u32_or<F: Copy>(bytes: &[u8], short: F) -> Result<(u32, &[u8]), F>
    ensures { Returns (λ x. (x.0, x.1.now)) result (spec.number_or w32 short bytes.now) }
{
    match bytes.split_first_chunk::<4>() {
        Some((front, rest)) => Ok((u32::from_be_bytes(*front), rest)),
        None => Err(short),
    }
}

/// The number in the first 8 bytes, the highest byte first, and the bytes after it. `short` where
/// there are fewer.
pub fn u64_or<F: Copy>(bytes: &[u8], short: F) -> Result<(u64, &[u8]), F>
    ensures { Returns (λ x. (x.0, x.1.now)) result (spec.number_or w64 short bytes.now) }
{
    match bytes.split_first_chunk::<8>() {
        Some((front, rest)) => Ok((u64::from_be_bytes(*front), rest)),
        None => Err(short),
    }
}

// The text that the bytes are, if they are UTF-8.
fn text_in(bytes: &[u8]) -> Option<&str>
    ensures { MatchOption result (is_utf8 bytes.now ≡ false) (λ s. IsUtf8Of bytes.now s.now) }
{
    match std::str::from_utf8(bytes) {
        Ok(text) => Some(text),
        Err(_) => None,
    }
}

/// The text at the front, after 4 bytes of its length, and the bytes after it. `short` where bytes
/// are missing, `bad` where the text's bytes are no UTF-8.
#[tactic(auto, unfolding(crate::specs::Decoding::text_or))]
pub fn text_or<F: Copy>(bytes: &[u8], short: F, bad: F) -> Result<(&str, &[u8]), F>
    ensures { Returns (λ x. (x.0.now, x.1.now)) result (spec.text_or short bad bytes.now) }
{
    let (length, rest) = u32_or(bytes, short)?;
    let length = length as usize;
    if rest.len() < length {
        return Err(short);
    }
    let (front, after) = rest.split_at(length);
    match text_in(front) {
        Some(text) => Ok((text, after)),
        None => Err(bad),
    }
}

/// Appends the 2 bytes of a number, the highest byte first. An error leaves all as it was.
pub fn put_u16(out: &mut Vec<u8>, number: u16) -> Result<(), AllocError>
    ensures ok { OnOk result (out.new.items ≡ out.old.items ++ to_be_bytes w16 number) }
    ensures err { OnErr result (out.new.items ≡ out.old.items) }
{
    let mut bytes = [0; 2];
    BigEndian::write_u16(&mut bytes, number);
    out.extend_from_slice(&bytes)
}

/// Appends the 4 bytes of a number, the highest byte first. An error leaves all as it was.
pub fn put_u32(out: &mut Vec<u8>, number: u32) -> Result<(), AllocError>
    ensures ok { OnOk result (out.new.items ≡ out.old.items ++ to_be_bytes w32 number) }
    ensures err { OnErr result (out.new.items ≡ out.old.items) }
{
    let mut bytes = [0; 4];
    BigEndian::write_u32(&mut bytes, number);
    out.extend_from_slice(&bytes)
}

/// Appends the 8 bytes of a number, the highest byte first. An error leaves all as it was.
pub fn put_u64(out: &mut Vec<u8>, number: u64) -> Result<(), AllocError>
    ensures ok { OnOk result (out.new.items ≡ out.old.items ++ to_be_bytes w64 number) }
    ensures err { OnErr result (out.new.items ≡ out.old.items) }
{
    let mut bytes = [0; 8];
    BigEndian::write_u64(&mut bytes, number);
    out.extend_from_slice(&bytes)
}

// Appends a text after the 4 bytes of its length. After an error some of these bytes may stand at
// the end.
fn put_parts(out: &mut Vec<u8>, text: &[u8]) -> Result<(), AllocError>
    requires { length text.now < 2 ^ 32 }
    ensures ok { OnOk result (out.new.items ≡ out.old.items ++ spelling.text text.now) }
    ensures err { OnErr result ((more : List ℕ) × (out.new.items ≡ out.old.items ++ more)) }
{
    put_u32(out, text.len() as u32)?;
    out.extend_from_slice(text)
}

/// Appends a text after the 4 bytes of its length. An error leaves all as it was.
pub fn put_text(out: &mut Vec<u8>, text: &[u8]) -> Result<(), AllocError>
    requires { length text.now < 2 ^ 32 }
    ensures ok { OnOk result (out.new.items ≡ out.old.items ++ spelling.text text.now) }
    ensures err { OnErr result (out.new.items ≡ out.old.items) }
{
    let before = out.len();
    match put_parts(out, text) {
        Ok(()) => Ok(()),
        Err(e) => {
            out.truncate(before);
            Err(e)
        }
    }
}
