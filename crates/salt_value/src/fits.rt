//! Whether a value is within the limits of its bytes.
ghost use Rattle.std.specs.Prelude.{◌≡◌, ◌≤◌, ◌↔◌, IsTrue, true, length};
ghost use Rattle.salt_value.specs.Spelling as spelling;
ghost use Rattle.salt_value.specs.WellFormed.{ValueFits, is_int, is_text};
ghost use Rattle.salt_value.specs.FitTest as test;
ghost use Rattle.salt_value.specs.Room.{Leaves, LeavesAfterValue, LeavesAfterItems, LeavesAfterPair, LeavesAfterPairs};
ghost use Rattle.salt_value.specs.declared.value.Value.TheVariants as v;

use crate::limits::{MOST_VALUE_BYTES, MOST_VALUE_LEVELS};
use crate::text::Text;
use crate::value::{Fields, Value};

// The room that is left after the bytes of a number.
fn after_int(number: i64, room: usize) -> Option<usize>
    ensures { Leaves (is_int number ≡ true) 0 0 8 room result }
{
    room.checked_sub(number.to_be_bytes().len())
}

// The room that is left after a text.
fn after_text(text: &str, room: usize) -> Option<usize>
    requires { room ≤ 65536 }
    ensures { Leaves (is_text text.now ≡ true) 0 0 (length (spelling.text text.now)) room result }
{
    if room < 4 {
        return None;
    }
    (room - 4).checked_sub(text.len())
}

// The room that is left after a value that may have so many levels.
#[cycle(fits)]
pub fn after(value: &Value, levels: usize, room: usize) -> Option<usize>
    requires { room ≤ 65536 }
    ensures { LeavesAfterValue value.now levels room result }
{
    if levels == 0 || room == 0 {
        return None;
    }
    match value {
        Value::Null => Some(room - 1),
        Value::Flag(_) => Some(room - 1),
        Value::Int(number) => after_int(*number, room - 1),
        Value::Str(text) => after_text(text.as_str(), room - 1),
        Value::List(items) => after_items(items.as_slice(), levels - 1, room),
        Value::Map(fields) => after_pairs(fields.as_slice(), levels - 1, room),
    }
}

// The room that is left after a tag, a count and these values.
#[cycle(fits)]
fn after_items(items: &[Value], levels: usize, room: usize) -> Option<usize>
    requires { room ≤ 65536 }
    ensures { LeavesAfterItems items.now levels room result }
{
    if room < 5 {
        return None;
    }
    let mut left = room - 5;
    for item in items {
        let Some(rest) = after(item, levels, left) else {
            return None;
        };
        left = rest;
    }
    Some(left)
}

// The room that is left after a key and its value.
#[cycle(fits)]
fn after_pair(key: &str, value: &Value, levels: usize, room: usize) -> Option<usize>
    requires { room ≤ 65536 }
    ensures { LeavesAfterPair key.now value.now levels room result }
{
    let Some(rest) = after_text(key, room) else {
        return None;
    };
    after(value, levels, rest)
}

// The room that is left after a tag, a count and these pairs.
#[cycle(fits)]
fn after_pairs(pairs: &[(Text, Value)], levels: usize, room: usize) -> Option<usize>
    requires { room ≤ 65536 }
    ensures { LeavesAfterPairs pairs.now levels room result }
{
    if room < 5 {
        return None;
    }
    let mut left = room - 5;
    for (key, value) in pairs {
        let Some(rest) = after_pair(key.as_str(), value, levels, left) else {
            return None;
        };
        left = rest;
    }
    Some(left)
}

// The room that is left after a map of these pairs, which may have so many levels.
pub fn after_map(fields: &Fields, levels: usize, room: usize) -> Option<usize>
    requires { room ≤ 65536 }
    ensures { LeavesAfterValue (v.Map fields.now) levels room result }
{
    if levels == 0 || room == 0 {
        return None;
    }
    after_pairs(fields.as_slice(), levels - 1, room)
}

// The room that is left after a list of these items, which may have so many levels.
fn after_list(items: &[Value], levels: usize, room: usize) -> Option<usize>
    requires { room ≤ 65536 }
    ensures { LeavesAfterValue (v.List items.now) levels room result }
{
    if levels == 0 || room == 0 {
        return None;
    }
    after_items(items, levels - 1, room)
}

/// Whether the list of these values is within the limits of a value, as `Value::fits` tells it. It takes no memory.
#[tactic(auto, using(crate::proofs::FitTests::fits_by))]
pub fn list_fits(items: &[Value]) -> bool
    ensures ok { IsTrue result ↔ ValueFits (v.List items.now) }
    ensures exact { result ≡ test.fits (v.List items.now) }
{
    after_list(items, MOST_VALUE_LEVELS, MOST_VALUE_BYTES).is_some()
}
