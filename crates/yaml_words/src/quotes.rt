//! Texts in quotes.
ghost use Rattle.std.specs.Prelude.{◌≡◌, ◌<◌, ◌≤◌, ◌∷◌, [], length, IfNone, IfSome, IfOk};
ghost use Rattle.yaml_words.specs.Faults.{GivesYaml};
ghost use Rattle.yaml_words.specs.Places as bytes;
ghost use Rattle.yaml_words.specs.Quotes as spec;

use crate::fault::{YamlCause, YamlFault, refused};
use crate::places::{Delimiter, begins_with, has, place};
use crate::spaces::{after_byte, without_first};
use salt_value::Text;
use std::alloc::{AllocError, Global};

/// The quotes of a text.
#[derive(Clone, Copy)]
pub enum QuoteKind {
    /// `'`.
    Single,
    /// `"`.
    Double,
}

impl QuoteKind {
    /// The byte that closes a text in such quotes.
    pub fn closing_byte(self) -> u8
        ensures value { result ≡ bytes.closing_byte self }
        ensures ascii { result < 128 }
    {
        match self {
            QuoteKind::Single => b'\'',
            QuoteKind::Double => b'"',
        }
    }

    /// The byte that begins an escape.
    pub fn escape_byte(self) -> u8
        ensures value { result ≡ bytes.escape_byte self }
        ensures ascii { result < 128 }
    {
        match self {
            QuoteKind::Single => b'\'',
            QuoteKind::Double => b'\\',
        }
    }

    /// What an escape stands for, by its second byte.
    fn escaped(self, byte: u8) -> Option<char>
        ensures value { result ≡ spec.escaped self byte }
        ensures ascii { IfSome result (λ c. (c < 128) × (byte < 128)) }
    {
        match self {
            QuoteKind::Single => match byte {
                b'\'' => Some('\''),
                _ => None,
            },
            QuoteKind::Double => match byte {
                b'\\' => Some('\\'),
                b'"' => Some('"'),
                b'n' => Some('\n'),
                b'r' => Some('\r'),
                b't' => Some('\t'),
                _ => None,
            },
        }
    }
}

/// The plain bytes at the front of a text in quotes, and the rest.
fn piece(quote: QuoteKind, text: &str) -> (&str, &str)
    ensures parts { spec.ReadsPiece quote text.now result.0.now result.1.now }
    ensures ends { bytes.place (Delimiter.Special quote) result.1.now ≡ 0 }
    ensures shorter { length result.1.now ≤ length text.now }
{
    text.split_at(place(Delimiter::Special(quote), text.as_bytes()))
}

/// What the escape stands for that begins a rest of a text in quotes, and what stands after it.
fn escape(quote: QuoteKind, text: &str) -> Option<(char, &str)>
    requires { bytes.place (Delimiter.Special quote) text.now ≡ 0 }
    ensures parts { IfSome result (λ x. spec.ReadsPiece quote text.now (x.0 ∷ []) x.1.now) }
    ensures none { IfNone result (spec.quoted quote text.now ≡ spec.at_closing quote text.now) }
    ensures shorter { IfSome result (λ x. (length x.1.now < length text.now) × (x.0 < 128)) }
{
    let after = after_byte(text, quote.escape_byte())?;
    let [second, ..] = after.as_bytes() else {
        return None;
    };
    match quote.escaped(*second) {
        Some(meant) => Some((meant, without_first(after))),
        None => None,
    }
}

/// The text after an opening quote, if it is closed and has no other escape.
pub fn unquoted(alloc: Global, quote: QuoteKind, text: &str) -> Result<Option<Text>, AllocError>
    ensures { IfOk result (λ found. found ≡ spec.unquoted quote text.now) }
{
    let mut out = String::new(alloc);
    let mut rest = text;
    'pieces: loop {
        let (front, more) = piece(quote, rest);
        out.push_str(front)?;
        match escape(quote, more) {
            Some((meant, after)) => {
                out.push(meant)?;
                rest = after;
            }
            None => {
                if begins_with(more.as_bytes(), quote.closing_byte()) {
                    return Ok(Some(Text::new(out)));
                }
                return Ok(None);
            }
        }
    }
}

/// What stands after the closing quote, nothing where there is none.
pub fn after_quote(quote: QuoteKind, text: &str) -> &str
    ensures value { result.now ≡ spec.after_quote quote text.now }
    ensures within { length result.now ≤ length text.now }
{
    let mut rest = text;
    'pieces: loop {
        let (_front, more) = piece(quote, rest);
        match escape(quote, more) {
            Some((_meant, after)) => rest = after,
            None => {
                return match after_byte(more, quote.closing_byte()) {
                    Some(left) => left,
                    None => "",
                };
            }
        }
    }
}

/// The text after an opening quote, or why it is none.
pub fn quoted_text(
    alloc: Global,
    line: u32,
    quote: QuoteKind,
    text: &str,
) -> Result<Text, YamlFault>
    ensures { GivesYaml result (spec.quoted_text line quote text.now) }
{
    let Some(found) = unquoted(alloc, quote, text)? else {
        return Err(refused(line, YamlCause::Quote));
    };
    let (written, _rest) = text
        .as_bytes()
        .split_at(text.len() - after_quote(quote, text).len());
    if has(Delimiter::Return, written) {
        return Err(refused(line, YamlCause::Unsupported));
    }
    Ok(found)
}
