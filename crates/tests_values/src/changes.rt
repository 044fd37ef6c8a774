//! Maps with a pair set or taken out, and values that are the same.
use salt_value::{Fields, Items, Text, Value};
use std::alloc::{AllocError, Global};
use std::process::Abort;

// {"b": 1, "d": 2}
fn sample(alloc: Global) -> Result<Fields, AllocError> {
    Fields::new(alloc)
        .with(alloc, "d", Value::Int(2))?
        .with(alloc, "b", Value::Int(1))
}

// The keys, each with a `;` behind it.
fn keys(alloc: Global, fields: &Fields) -> Result<String, AllocError> {
    let mut text = String::new(alloc);
    for (key, _) in fields.as_slice() {
        text.push_str(key.as_str())?;
        text.push(';')?;
    }
    Ok(text)
}

fn keys_with(alloc: Global, fields: &Fields, key: &str) -> Result<String, AllocError> {
    keys(alloc, &fields.with(alloc, key, Value::Int(7))?)
}

fn keys_without(alloc: Global, fields: &Fields, key: &str) -> Result<String, AllocError> {
    keys(alloc, &fields.without(alloc, key)?)
}

// The number that stands under the key after it was set to 7.
fn set(alloc: Global, fields: &Fields, key: &str) -> Result<Option<i64>, AllocError> {
    match fields.with(alloc, key, Value::Int(7))?.get(key.as_bytes()) {
        Some(Value::Int(number)) => Ok(Some(*number)),
        _ => Ok(None),
    }
}

// A key, the keys after it was set, and the keys after it was taken out.
static KEYS: [(&str, &str, &str); 6] = [
    ("", ";b;d;", "b;d;"),
    ("a", "a;b;d;", "b;d;"),
    ("b", "b;d;", "d;"),
    ("bb", "b;bb;d;", "b;d;"),
    ("d", "b;d;", "b;"),
    ("e", "b;d;e;", "b;d;"),
];

fn keys_change(rt: &impl Abort, alloc: Global, fields: &Fields) {
    for (key, with, without) in KEYS {
        assert_eq!(rt;
            keys_with(alloc, fields, key).expect(rt, "memory").as_str(),
            with
        );
        assert_eq!(rt;
            keys_without(alloc, fields, key)
                .expect(rt, "memory")
                .as_str(),
            without
        );
        assert_eq!(rt; set(alloc, fields, key), Ok(Some(7)));
    }
}

#[test]
fn a_pair_is_set_and_taken_out(rt: HostRuntime) {
    let fields = sample(rt.alloc()).expect(&rt, "memory");
    keys_change(&rt, rt.alloc(), &fields);
    keys_change(
        &rt,
        rt.alloc(),
        &fields.copy(rt.alloc()).expect(&rt, "memory"),
    );
}

fn text(alloc: Global, text: &str) -> Result<Value, AllocError> {
    Ok(Value::Str(Text::new(String::from_str(alloc, text)?)))
}

fn list(alloc: Global, number: i64) -> Result<Value, AllocError> {
    let mut items = Items::new(alloc);
    items.push(Value::Int(number))?;
    Ok(Value::List(items))
}

fn map(alloc: Global, key: &str, number: i64) -> Result<Value, AllocError> {
    Ok(Value::Map(Fields::new(alloc).with(alloc, key, Value::Int(number))?))
}

// Fourteen values, no two of them the same.
fn other(alloc: Global, row: u32) -> Result<Value, AllocError> {
    match row {
        0 => Ok(Value::Null),
        1 => Ok(Value::Flag(true)),
        2 => Ok(Value::Flag(false)),
        3 => Ok(Value::Int(0)),
        4 => Ok(Value::Int(-1)),
        5 => text(alloc, ""),
        6 => text(alloc, "0"),
        7 => Ok(Value::List(Items::new(alloc))),
        8 => list(alloc, 0),
        9 => list(alloc, 1),
        10 => Ok(Value::Map(Fields::new(alloc))),
        11 => map(alloc, "a", 0),
        12 => map(alloc, "a", 1),
        _ => map(alloc, "b", 0),
    }
}

fn are_same(alloc: Global, first: u32, second: u32) -> Result<bool, AllocError> {
    Ok(other(alloc, first)?.is_same(&other(alloc, second)?))
}

#[test]
fn a_value_is_the_same_as_itself_alone(rt: HostRuntime) {
    for first in 0..14 {
        for second in 0..14 {
            assert_eq!(rt;
                are_same(rt.alloc(), first, second),
                Ok(first == second),
                "at {first}, {second}"
            );
        }
    }
}
