//! Texts, pairs and values.
use salt_value::{Fields, Items, Text, Value, copy_items};
use std::alloc::{AllocError, Global};
use std::process::Abort;

fn text(alloc: Global, text: &str) -> Result<Text, AllocError> {
    Ok(Text::new(String::from_str(alloc, text)?))
}

// Puts a pair last, if its key stands after all others.
fn add(fields: &mut Fields, key: Text, value: Value) -> Result<bool, AllocError> {
    if fields.can_push(&key) {
        fields.push(key, value)?;
        Ok(true)
    } else {
        Ok(false)
    }
}

fn list_of(alloc: Global, first: Value, second: Value) -> Result<Value, AllocError> {
    let mut items = Items::new(alloc);
    items.push(first)?;
    items.push(second)?;
    Ok(Value::List(items))
}

// {"a": 1, "list": [-3, null]}
fn sample(alloc: Global) -> Result<Fields, AllocError> {
    let list = list_of(alloc, Value::Int(-3), Value::Null)?;
    let mut fields = Fields::new(alloc);
    add(&mut fields, text(alloc, "a")?, Value::Int(1))?;
    add(&mut fields, text(alloc, "list")?, list)?;
    Ok(fields)
}

// The number that stands there, -1 for a list, and none for another value or no value.
fn number_in(value: Option<&Value>) -> Option<i64> {
    match value {
        Some(Value::Int(number)) => Some(*number),
        Some(Value::List(_)) => Some(-1),
        _ => None,
    }
}

static UNDER: [(&str, Option<i64>); 5] = [
    ("a", Some(1)),
    ("list", Some(-1)),
    ("", None),
    ("lis", None),
    ("b", None),
];

fn stand_under(rt: &impl Abort, fields: &Fields, value: &Value) {
    for (key, number) in UNDER {
        assert_eq!(rt; number_in(fields.get(key.as_bytes())), number, "at {key}");
        assert_eq!(rt; number_in(value.at(key)), number, "at {key}");
    }
}

fn has_no_child(rt: &impl Abort, value: &Value) {
    assert_eq!(rt; number_in(value.at("a")), None);
}

fn has_two_pairs(rt: &impl Abort, fields: &Fields) {
    assert_eq!(rt; fields.as_slice().len(), 2);
    assert_eq!(rt; fields.last_key(), Some(b"list".as_slice()));
}

fn has_text(rt: &impl Abort, found: &Text, wanted: &str) {
    assert_eq!(rt; found.as_str(), wanted);
    assert_eq!(rt; found.as_bytes(), wanted.as_bytes());
}

// Whether each of these keys may stand after `list`.
static KEYS: [(&str, bool); 5] = [
    ("list", false),
    ("lis", false),
    ("", false),
    ("list0", true),
    ("m", true),
];

fn may_push(alloc: Global, fields: &Fields, key: &str) -> Result<bool, AllocError> {
    Ok(fields.can_push(&text(alloc, key)?))
}

fn keys_may_follow(rt: &impl Abort, alloc: Global, fields: &Fields) {
    for (key, answer) in KEYS {
        assert_eq!(rt; may_push(alloc, fields, key), Ok(answer), "at {key}");
    }
}

#[test]
fn texts_are_copied(rt: HostRuntime) {
    let text = text(rt.alloc(), "na\u{ef}ve").expect(&rt, "memory");
    has_text(&rt, &text.copy().expect(&rt, "memory"), "na\u{ef}ve");
}

#[test]
fn keys_ascend(rt: HostRuntime) {
    let fields = sample(rt.alloc()).expect(&rt, "memory");
    has_two_pairs(&rt, &fields);
    keys_may_follow(&rt, rt.alloc(), &fields);
}

#[test]
fn a_child_stands_under_its_key(rt: HostRuntime) {
    let fields = sample(rt.alloc()).expect(&rt, "memory");
    let value = Value::Map(sample(rt.alloc()).expect(&rt, "memory"));
    stand_under(&rt, &fields, &value);
    stand_under(&rt, &fields, &value.copy(rt.alloc()).expect(&rt, "memory"));
    has_no_child(&rt, &Value::Null);
}

// The items of a list in memory of their own.
fn items_again(alloc: Global, value: &Value) -> Option<Items> {
    match value {
        Value::List(items) => copy_items(alloc, items.as_slice()).ok(),
        _ => None,
    }
}

// Are they -3 and null?
fn are_the_items(rt: &impl Abort, items: &Option<Items>) {
    match items {
        Some(items) => {
            let items = items.as_slice();
            let seen = (
                items.len(),
                number_in(items.first()),
                number_in(items.last()),
            );
            assert_eq!(rt; seen, (2, Some(-3), None));
        }
        None => panic!(rt; "memory"),
    }
}

#[test]
fn copied_items_are_equal(rt: HostRuntime) {
    let list = list_of(rt.alloc(), Value::Int(-3), Value::Null).expect(&rt, "memory");
    are_the_items(&rt, &items_again(rt.alloc(), &list));
}
