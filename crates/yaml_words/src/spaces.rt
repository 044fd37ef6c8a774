//! Spaces and comments.
ghost use Rattle.std.specs.Prelude.{◌≡◌, ◌<◌, ◌≤◌, true, false, length, drop, slice_index, IfNone, IfSome};
ghost use Rattle.yaml_words.specs.Places.{begins_with, IsAfterByte};
ghost use Rattle.yaml_words.specs.Spaces as spec;

use crate::places::{Delimiter, begins_with, place};

/// Without the comment: a space, `#` and what follows.
pub fn uncommented(text: &str) -> &str
    ensures { result.now ≡ spec.uncommented text.now }
{
    let (kept, _comment) = text.split_at(place(Delimiter::Comment, text.as_bytes()));
    kept
}

/// Without the spaces at the front.
pub fn unindented(text: &str) -> &str
    ensures value { result.now ≡ spec.unindented text.now }
    ensures within { length result.now ≤ length text.now }
{
    let mut left = text;
    while let Some(rest) = left.strip_prefix(' ') {
        left = rest;
    }
    left
}

/// Without the spaces at the end.
pub fn trimmed(text: &str) -> &str
    ensures { result.now ≡ spec.trimmed text.now }
{
    let mut left = text;
    while let Some(rest) = left.strip_suffix(' ') {
        left = rest;
    }
    left
}

/// What stands after spaces, nothing where that is a comment. A `#` is a comment behind a space alone.
pub fn after_spaces(text: &str) -> &str
    ensures value { result.now ≡ spec.after_spaces text.now }
    ensures within { length result.now ≤ length text.now }
{
    let rest = unindented(text);
    if begins_with(text.as_bytes(), b' ') && begins_with(rest.as_bytes(), b'#') {
        return "";
    }
    rest
}

/// Without the first byte, which is an ASCII character.
pub fn without_first(text: &str) -> &str
    requires some { 0 < length text.now }
    requires ascii { slice_index text.now 0 < 128 }
    ensures { result.now ≡ drop 1 text.now }
{
    let (_first, rest) = text.split_at(1);
    rest
}

/// What stands after this byte, where the text begins with it.
pub fn after_byte(text: &str, byte: u8) -> Option<&str>
    requires { byte < 128 }
    ensures value { IfSome result (λ rest. IsAfterByte byte text.now rest.now) }
    ensures none { IfNone result (begins_with byte text.now ≡ false) }
    ensures shorter { IfSome result (λ rest. length rest.now < length text.now) }
{
    if begins_with(text.as_bytes(), byte) {
        return Some(without_first(text));
    }
    None
}
