//! The ids that a script may have.
ghost use Rattle.std.specs.Prelude.{◌≡◌, bytes_eq};
ghost use Rattle.std.specs.List.{list_any};
ghost use Rattle.salt_value.specs.Reading.{Decodes};
ghost use Rattle.script_text.specs.Script as spec;
ghost use Rattle.script_text.specs.Script.{IsName, id_line, plain_words};

use crate::lines::strip_front;
use salt_value::MinionId;

// Whether an id begins with a letter.
fn begins_with_letter(id: &[u8]) -> bool
    ensures { result ≡ spec.begins_with_letter id.now }
{
    match id.first() {
        Some(b) => matches!(b, b'A'..=b'Z' | b'a'..=b'z'),
        None => false,
    }
}

// Whether YAML reads the word as null or as a flag.
fn is_plain_word(id: &[u8]) -> bool
    ensures { result ≡ list_any (bytes_eq id.now) plain_words }
{
    id == b"null".as_slice()
        || id == b"true".as_slice()
        || id == b"True".as_slice()
        || id == b"TRUE".as_slice()
        || id == b"false".as_slice()
        || id == b"False".as_slice()
        || id == b"FALSE".as_slice()
}

fn is_name(id: &[u8]) -> bool
    ensures { result ≡ spec.is_node_name id.now }
{
    begins_with_letter(id) && !is_plain_word(id)
}

// The id that this name is.
fn read_name(name: &[u8]) -> Option<MinionId>
    ensures { Decodes IsName (λ id. id) name.now result }
{
    if !is_name(name) {
        return None;
    }
    match MinionId::from_bytes(name) {
        Ok(id) => Some(id),
        Err(_) => None,
    }
}

/// The id that a line `- id: ID` has.
pub fn read_id_line(line: &[u8]) -> Option<MinionId>
    ensures { Decodes IsName id_line line.now result }
{
    match strip_front(line, b"- id: ") {
        Some(name) => read_name(name),
        None => None,
    }
}
