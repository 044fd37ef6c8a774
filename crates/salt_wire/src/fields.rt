//! The fields of messages read from bytes.
ghost use Rattle.std.specs.Prelude.{◌≡◌, IfOk, IfErr};
ghost use Rattle.salt_wire.specs.Decoding as spec;

use crate::fault::Misread;
use salt_value::{
    Fields, Items, Jid, MinionId, Text, Value, ValueFault, Word, WordFault, text_or, u8_or, u16_or,
    u32_or, u64_or,
};
use std::alloc::{AllocError, Global};
use target_tree::Kind;

// What stands at the front of some bytes, and the bytes after it.
pub type Parsed<'a, T> = Result<(T, &'a [u8]), Misread>;

// A byte.
pub fn byte_at(bytes: &[u8]) -> Parsed<'_, u8>
    ensures { spec.GivesField result (spec.byte_field bytes.now) }
{
    u8_or(bytes, Misread::BadField(bytes.len()))
}

// A number of 32 bits.
pub fn number_at(bytes: &[u8]) -> Parsed<'_, u32>
    ensures { spec.GivesField result (spec.number_field bytes.now) }
{
    u32_or(bytes, Misread::BadField(bytes.len()))
}

// A text of at most so many bytes.
pub fn short_text_at(alloc: Global, most: usize, bytes: &[u8]) -> Parsed<'_, Text>
    ensures { spec.GivesField result (spec.short_text most bytes.now) }
{
    let bad = Misread::BadField(bytes.len());
    let (text, rest) = text_or(bytes, bad, bad)?;
    if text.len() > most {
        return Err(bad);
    }
    Ok((Text::new(String::from_str(alloc, text)?), rest))
}

// A text.
pub fn text_at(alloc: Global, bytes: &[u8]) -> Parsed<'_, Text>
    ensures { spec.GivesField result (spec.text_field bytes.now) }
{
    let bad = Misread::BadField(bytes.len());
    let (text, rest) = text_or(bytes, bad, bad)?;
    Ok((Text::new(String::from_str(alloc, text)?), rest))
}

// An id, after the byte of its length, or this fault.
#[tactic(auto, unfolding(crate::specs::Decoding::counted_or))]
pub fn id_or(bytes: &[u8], bad: Misread) -> Parsed<'_, MinionId>
    ensures gives { spec.GivesField result (spec.id_or bad bytes.now) }
    ensures known { IfErr result (λ e. e ≡ bad) }
{
    let (length, rest) = u8_or(bytes, bad)?;
    let length = length as usize;
    if rest.len() < length {
        return Err(bad);
    }
    let (front, after) = rest.split_at(length);
    match MinionId::from_bytes(front) {
        Ok(id) => Ok((id, after)),
        Err(_) => Err(bad),
    }
}

// An id.
pub fn id_at(bytes: &[u8]) -> Parsed<'_, MinionId>
    ensures gives { spec.GivesField result (spec.id_field bytes.now) }
    ensures known { IfErr result (λ e. e ≡ spec.misreading bytes.now) }
{
    id_or(bytes, Misread::BadField(bytes.len()))
}

// The word that the bytes are.
fn word_in(alloc: Global, bytes: &[u8]) -> Result<Option<Word>, AllocError>
    ensures { IfOk result (spec.IsWordOf bytes.now) }
{
    let Ok(text) = std::str::from_utf8(bytes) else {
        return Ok(None);
    };
    match Word::read(alloc, text) {
        Ok(word) => Ok(Some(word)),
        Err(WordFault::NoMemory) => Err(AllocError),
        Err(_) => Ok(None),
    }
}

// A word, after the two bytes of its length.
#[tactic(auto, unfolding(crate::specs::Decoding::counted_or))]
pub fn word_at(alloc: Global, bytes: &[u8]) -> Parsed<'_, Word>
    ensures { spec.GivesField result (spec.word_field bytes.now) }
{
    let bad = Misread::BadField(bytes.len());
    let (length, rest) = u16_or(bytes, bad)?;
    let length = length as usize;
    if rest.len() < length {
        return Err(bad);
    }
    let (front, after) = rest.split_at(length);
    match word_in(alloc, front)? {
        Some(word) => Ok((word, after)),
        None => Err(bad),
    }
}

// A job id.
#[tactic(auto, unfolding(crate::specs::Decoding::jid_field))]
pub fn jid_at(bytes: &[u8]) -> Parsed<'_, Jid>
    ensures { spec.GivesField result (spec.jid_field bytes.now) }
{
    let bad = Misread::BadField(bytes.len());
    let (micros, rest) = u64_or(bytes, bad)?;
    match Jid::next(None, micros) {
        Ok(jid) => Ok((jid, rest)),
        Err(_) => Err(bad),
    }
}

// The kind of a target.
#[tactic(auto, unfolding(crate::specs::Decoding::kind_field))]
pub fn kind_at(bytes: &[u8]) -> Parsed<'_, Kind>
    ensures { spec.GivesField result (spec.kind_field bytes.now) }
{
    let (code, rest) = byte_at(bytes)?;
    match Kind::of(code) {
        Some(kind) => Ok((kind, rest)),
        None => Err(Misread::BadField(bytes.len())),
    }
}

// A value.
#[tactic(auto, unfolding(crate::specs::Decoding::value_field))]
pub fn value_at(alloc: Global, bytes: &[u8]) -> Parsed<'_, Value>
    ensures { spec.GivesField result (spec.value_field bytes.now) }
{
    match Value::read(alloc, bytes) {
        Ok((value, taken)) => Ok((value, &bytes[taken..])),
        Err(ValueFault::NoMemory) => Err(Misread::NoMemory),
        Err(_) => Err(Misread::BadField(bytes.len())),
    }
}

// A value that is a list.
#[tactic(auto, unfolding(crate::specs::Decoding::items_field))]
pub fn items_at(alloc: Global, bytes: &[u8]) -> Parsed<'_, Items>
    ensures { spec.GivesField result (spec.items_field bytes.now) }
{
    let (value, rest) = value_at(alloc, bytes)?;
    match value {
        Value::List(items) => Ok((items, rest)),
        _ => Err(Misread::BadField(bytes.len())),
    }
}

// A value that is a map.
#[tactic(auto, unfolding(crate::specs::Decoding::fields_field))]
pub fn fields_at(alloc: Global, bytes: &[u8]) -> Parsed<'_, Fields>
    ensures { spec.GivesField result (spec.fields_field bytes.now) }
{
    let (value, rest) = value_at(alloc, bytes)?;
    match value {
        Value::Map(fields) => Ok((fields, rest)),
        _ => Err(Misread::BadField(bytes.len())),
    }
}
