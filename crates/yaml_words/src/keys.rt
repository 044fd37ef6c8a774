//! Items and keys at the front of a line.
ghost use Rattle.std.specs.Prelude.{◌≡◌, ◌<◌, ◌+◌, length, take, drop, slice_index, true, IfSome, option_map};
ghost use Rattle.yaml_words.specs.Faults.{GivesYaml};
ghost use Rattle.yaml_words.specs.Keys as spec;
ghost use Rattle.yaml_words.specs.Places.{IsAsciiPlace};
ghost use Rattle.yaml_words.specs.Spaces as spaces;

use crate::fault::{YamlCause, YamlFault, refused};
use crate::places::{Delimiter, begins_with, is_at, place};
use crate::plain::{may_begin, text_fault, to_text};
use crate::quotes::{QuoteKind, after_quote, quoted_text};
use crate::spaces::{after_byte, after_spaces, uncommented, without_first};
use salt_value::Text;
use std::alloc::Global;

/// Whether an item of a block list begins with this text: `-` alone, or with a space after it.
pub fn is_item(text: &str) -> bool
    ensures { result ≡ spec.is_item text.now }
{
    match text.as_bytes() {
        [] => false,
        [mark] => *mark == b'-',
        [mark, space, ..] => *mark == b'-' && *space == b' ',
    }
}

/// What stands after an item's `-`, without the spaces, nothing where that is a comment.
pub fn after_mark(text: &str) -> &str
    requires { spec.is_item text.now ≡ true }
    ensures { result.now ≡ spec.after_mark text.now }
{
    after_spaces(without_first(text))
}

fn quoted_key_size(text: &str, rest: &str) -> Option<usize>
    ensures { result ≡ spec.quoted_key_size text.now rest.now }
{
    if is_at(Delimiter::KeyEnd, rest.as_bytes()) {
        return Some(text.len().saturating_sub(rest.len()));
    }
    None
}

fn plain_key_size(text: &str) -> Option<usize>
    ensures value { result ≡ spec.plain_key_size text.now }
    ensures within { IfSome result (IsAsciiPlace text.now) }
{
    let size = place(Delimiter::KeyEnd, text.as_bytes());
    if size < text.len() {
        return Some(size);
    }
    None
}

/// How many bytes the key has with which a line begins, if it begins with one.
fn key_size(text: &str) -> Option<usize>
    ensures value { result ≡ spec.key_size text.now }
    ensures within { IfSome result (IsAsciiPlace text.now) }
{
    if begins_with(text.as_bytes(), b'[') || begins_with(text.as_bytes(), b'{') {
        return None;
    }
    if let Some(inner) = after_byte(text, b'\'') {
        return quoted_key_size(text, after_quote(QuoteKind::Single, inner));
    }
    if let Some(inner) = after_byte(text, b'"') {
        return quoted_key_size(text, after_quote(QuoteKind::Double, inner));
    }
    plain_key_size(uncommented(text))
}

/// A key that is cut off at its colon, and what stands after it.
fn cut_key(text: &str, size: usize) -> (&str, &str)
    requires within { size < length text.now }
    requires ascii { slice_index text.now size < 128 }
    ensures key { result.0.now ≡ take size text.now }
    ensures rest { result.1.now ≡ spaces.after_spaces (drop (size + 1) text.now) }
{
    let (key, rest) = text.split_at(size);
    (key, after_spaces(without_first(rest)))
}

/// The key with which a line begins, as it is written, and what stands after its colon.
pub fn split_key(text: &str) -> Option<(&str, &str)>
    ensures { spec.split_key text.now ≡ option_map (λ x. (x.0.now, x.1.now)) result }
{
    match key_size(text) {
        None => None,
        Some(size) => Some(cut_key(text, size)),
    }
}

fn quoted_key(alloc: Global, line: u32, quote: QuoteKind, text: &str) -> Result<Text, YamlFault>
    ensures { GivesYaml result (spec.quoted_key line quote text.now) }
{
    let found = quoted_text(alloc, line, quote, text)?;
    let size = found.as_bytes().len();
    let mark = place(Delimiter::Open, found.as_bytes());
    if let Some(cause) = text_fault(size, mark, size) {
        return Err(refused(line, cause));
    }
    Ok(found)
}

fn plain_key(alloc: Global, line: u32, text: &str) -> Result<Text, YamlFault>
    ensures { GivesYaml result (spec.plain_key line text.now) }
{
    if !may_begin(text) {
        return Err(refused(line, YamlCause::Unsupported));
    }
    let stray = place(Delimiter::Stray, text.as_bytes());
    let mark = place(Delimiter::Open, text.as_bytes());
    if let Some(cause) = text_fault(stray, mark, text.len()) {
        return Err(refused(line, cause));
    }
    Ok(to_text(alloc, text)?)
}

/// Reads the text of a key that is written so. A fault is the first one from the left, told with the line's number.
pub fn read_key(alloc: Global, line: u32, text: &str) -> Result<Text, YamlFault>
    ensures { GivesYaml result (spec.key line text.now) }
{
    if let Some(inner) = after_byte(text, b'\'') {
        return quoted_key(alloc, line, QuoteKind::Single, inner);
    }
    if let Some(inner) = after_byte(text, b'"') {
        return quoted_key(alloc, line, QuoteKind::Double, inner);
    }
    plain_key(alloc, line, text)
}
