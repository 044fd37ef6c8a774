//! Places in a line.
ghost use Rattle.std.specs.Prelude.{◌≡◌, ◌<◌, ◌≤◌, true, false, length, drop, slice_index, MatchOption};
ghost use Rattle.std.specs.Str.{IsCharBoundary};
ghost use Rattle.yaml_words.specs.Places as spec;

use crate::quotes::QuoteKind;

/// What may stand at a place in a line.
#[derive(Clone, Copy)]
pub enum Delimiter {
    /// A space and `#`.
    Comment,
    /// A colon, and then a space or nothing.
    KeyEnd,
    /// What no plain scalar holds: the end of a key, a carriage return.
    Stray,
    /// `{{`.
    Open,
    /// `}}`.
    Close,
    /// A carriage return.
    Return,
    /// A line feed.
    Feed,
    /// `,` or `]`.
    ItemEnd,
    /// The end of a plain item of a list: `,`, `]` or a comment.
    PlainEnd,
    /// What is no plain byte of a text in such quotes: the closing quote, or what begins an escape.
    Special(QuoteKind),
}

/// Whether the first byte is this one.
pub fn begins_with(text: &[u8], byte: u8) -> bool
    ensures { result ≡ spec.begins_with byte text.now }
{
    match text {
        [] => false,
        [first, ..] => *first == byte,
    }
}

/// Whether there is no byte, or the first one is this one.
pub fn ends_or(text: &[u8], byte: u8) -> bool
    ensures { result ≡ spec.ends_or byte text.now }
{
    match text {
        [] => true,
        [first, ..] => *first == byte,
    }
}

fn is_comment(byte: u8, rest: &[u8]) -> bool
    ensures { result ≡ spec.is_comment byte rest.now }
{
    byte == b' ' && begins_with(rest, b'#')
}

fn is_key_end(byte: u8, rest: &[u8]) -> bool
    ensures { result ≡ spec.is_key_end byte rest.now }
{
    byte == b':' && ends_or(rest, b' ')
}

fn is_item_end(byte: u8) -> bool
    ensures { result ≡ spec.is_item_end byte }
{
    byte == b',' || byte == b']'
}

/// Whether a text begins with this.
pub fn is_at(delimiter: Delimiter, text: &[u8]) -> bool
    ensures { result ≡ spec.is_at delimiter text.now }
{
    match text {
        [] => false,
        [first, rest @ ..] => match delimiter {
            Delimiter::Comment => is_comment(*first, rest),
            Delimiter::KeyEnd => is_key_end(*first, rest),
            Delimiter::Stray => *first == b'\r' || is_key_end(*first, rest),
            Delimiter::Open => *first == b'{' && begins_with(rest, b'{'),
            Delimiter::Close => *first == b'}' && begins_with(rest, b'}'),
            Delimiter::Return => *first == b'\r',
            Delimiter::Feed => *first == b'\n',
            Delimiter::ItemEnd => is_item_end(*first),
            Delimiter::PlainEnd => is_item_end(*first) || is_comment(*first, rest),
            Delimiter::Special(quote) => *first == quote.closing_byte()
                || *first == quote.escape_byte(),
        },
    }
}

/// The first such place, or the number of bytes where there is none.
pub fn place(delimiter: Delimiter, text: &[u8]) -> usize
    ensures value { result ≡ spec.place delimiter text.now }
    ensures within { result ≤ length text.now }
    ensures boundary { IsCharBoundary text.now result }
    ensures ascii { result < length text.now → slice_index text.now result < 128 }
{
    for at in 0..text.len() {
        if is_at(delimiter, &text[at..]) {
            return at;
        }
    }
    text.len()
}

/// Whether there is such a place.
pub fn has(delimiter: Delimiter, text: &[u8]) -> bool
    ensures { result ≡ spec.has delimiter text.now }
{
    place(delimiter, text) < text.len()
}
