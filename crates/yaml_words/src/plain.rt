//! Plain scalars.
ghost use Rattle.std.specs.Prelude.{◌≡◌, ◌≤◌, ◌==◌, length, IfOk};
ghost use Rattle.std.specs.List.{list_any};
ghost use Rattle.yaml_words.specs.Faults.{GivesYaml};
ghost use Rattle.yaml_words.specs.Plain as spec;

use crate::fault::{YamlCause, YamlFault, refused};
use crate::numbers::{Numeral, read_number};
use crate::places::{Delimiter, is_at, place};
use salt_value::{Text, Value};
use std::alloc::{AllocError, Global};

/// The bytes of the longest scalar (this project's own).
pub const MOST_SCALAR_BYTES: usize = 65_536;

fn is_no_first_byte(byte: u8) -> bool
    ensures { result ≡ list_any (λ c. byte == c) spec.no_first_bytes }
{
    byte == b'*'
        || byte == b'&'
        || byte == b'!'
        || byte == b'|'
        || byte == b'>'
        || byte == b'%'
        || byte == b'@'
        || byte == b'{'
        || byte == b'}'
        || byte == b'['
        || byte == b']'
        || byte == b','
        || byte == b'#'
        || byte == b'`'
}

/// Whether a plain scalar may begin so.
pub fn may_begin(text: &str) -> bool
    ensures { result ≡ spec.may_begin text.now }
{
    match text.as_bytes() {
        [] => false,
        [first, ..] => is_at(Delimiter::Open, text.as_bytes()) || !is_no_first_byte(*first),
    }
}

/// How many bytes stand up to the end of the last `}}`, none where there is none.
fn closed_front(text: &[u8]) -> usize
    ensures value { result ≡ spec.closed_front text.now }
    ensures within { result ≤ length text.now }
{
    let mut end = 0;
    for at in 0..text.len() {
        if is_at(Delimiter::Close, &text[at..]) {
            end = at + 2;
        }
    }
    end
}

/// The place of the first `{{` that no `}}` follows, or the number of bytes.
pub fn unclosed(text: &[u8]) -> usize
    ensures { result ≡ spec.unclosed text.now }
{
    let front = closed_front(text);
    front + place(Delimiter::Open, &text[front..])
}

/// The first fault from the left of a text with so many bytes, which has a mark that may not stand at `bad` and what is no text at `stray`.
pub fn text_fault(stray: usize, bad: usize, size: usize) -> Option<YamlCause>
    ensures { result ≡ spec.text_fault stray bad size }
{
    if stray < bad && stray < MOST_SCALAR_BYTES {
        return Some(YamlCause::Unsupported);
    }
    if bad < size && bad <= MOST_SCALAR_BYTES {
        return Some(YamlCause::BadMark);
    }
    if MOST_SCALAR_BYTES < size {
        return Some(YamlCause::TooLarge);
    }
    None
}

/// What may not stand in such a plain scalar.
fn stray(text: &[u8]) -> Delimiter
    ensures { result ≡ spec.stray text.now }
{
    if is_at(Delimiter::Open, text) {
        Delimiter::Return
    } else {
        Delimiter::Stray
    }
}

/// A text in memory of its own.
pub fn to_text(alloc: Global, text: &str) -> Result<Text, AllocError>
    ensures { IfOk result (λ copy. copy ≡ text.now) }
{
    Ok(Text::new(String::from_str(alloc, text)?))
}

/// What a plain scalar that is no number means.
fn plain_value(alloc: Global, text: &str) -> Result<Value, AllocError>
    ensures { IfOk result (λ value. value ≡ spec.plain_value text.now) }
{
    if text == "null" || text == "~" {
        Ok(Value::Null)
    } else if text == "true" || text == "True" || text == "TRUE" {
        Ok(Value::Flag(true))
    } else if text == "false" || text == "False" || text == "FALSE" {
        Ok(Value::Flag(false))
    } else {
        Ok(Value::Str(to_text(alloc, text)?))
    }
}

/// The first fault of a plain scalar that is no number.
fn plain_fault(text: &[u8]) -> Option<YamlCause>
    ensures { result ≡ spec.plain_fault text.now }
{
    text_fault(place(stray(text), text), unclosed(text), text.len())
}

/// A plain scalar that is no number.
fn plain_text(alloc: Global, line: u32, text: &str) -> Result<Value, YamlFault>
    ensures { GivesYaml result (spec.plain_text line text.now) }
{
    if let Some(cause) = plain_fault(text.as_bytes()) {
        return Err(refused(line, cause));
    }
    Ok(plain_value(alloc, text)?)
}

/// A plain scalar.
pub fn plain(alloc: Global, line: u32, text: &str) -> Result<Value, YamlFault>
    ensures { GivesYaml result (spec.plain line text.now) }
{
    if !may_begin(text) {
        return Err(refused(line, YamlCause::Unsupported));
    }
    match read_number(text) {
        Numeral::Whole(number) => Ok(Value::Int(number)),
        Numeral::Refused => Err(refused(line, YamlCause::Number)),
        Numeral::Other => plain_text(alloc, line, text),
    }
}
