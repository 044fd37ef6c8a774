//! The parts of a text between its colons.
ghost use Rattle.std.specs.Prelude.{◌≡◌, ◌<◌, ◌∷◌, [], length, IfOk, IfSome, IfNone};
ghost use Rattle.std.specs.List.{list_all};
ghost use Rattle.target_match.specs.Paths.{parts, path_of, pattern_of, is_key_name, is_name_byte};

use salt_value::Text;
use std::alloc::{AllocError, Global};

/// The first part and the text after its colon; None where there is no colon.
pub fn split(text: &str) -> Option<(&str, &str)>
    ensures some { IfSome result (λ r. parts text.now ≡ r.0.now ∷ parts r.1.now) }
    ensures none { IfNone result (parts text.now ≡ text.now ∷ []) }
    ensures shorter { IfSome result (λ r. length r.1.now < length text.now) }
{
    let Some((part, rest)) = text.split_once(':') else {
        return None;
    };
    Some((part, rest))
}

fn is_name_byte(byte: u8) -> bool
    ensures { result ≡ is_name_byte byte }
{
    byte.is_ascii_uppercase()
        || byte.is_ascii_lowercase()
        || byte.is_ascii_digit()
        || byte == b'_'
        || byte == b'-'
}

fn are_name_bytes(bytes: &[u8]) -> bool
    ensures { result ≡ list_all is_name_byte bytes.now }
{
    bytes.iter().all(|b| is_name_byte(*b))
}

/// Whether a part may be one of a path: at least one byte, each of them a letter, a digit, `_` or `-`.
fn is_name(part: &[u8]) -> bool
    ensures { result ≡ is_key_name part.now }
{
    !part.is_empty() && are_name_bytes(part)
}

fn owned(alloc: Global, part: &str) -> Result<Text, AllocError>
    ensures { IfOk result (λ t. t ≡ part.now) }
{
    Ok(Text::new(String::from_str(alloc, part)?))
}

/// The path of a pattern leaf's text, and the pattern after it.
pub fn path_and_pattern(alloc: Global, text: &str) -> Result<(Vec<Text>, &str), AllocError>
    ensures path { IfOk result (λ r. r.0.items ≡ path_of (parts text.now)) }
    ensures pattern { IfOk result (λ r. r.1.now ≡ pattern_of (parts text.now)) }
{
    let mut path = Vec::new(alloc);
    let mut rest = text;
    while let Some((part, more)) = split(rest) {
        if !is_name(part.as_bytes()) {
            break;
        }
        path.push(owned(alloc, part)?)?;
        rest = more;
    }
    Ok((path, rest))
}
