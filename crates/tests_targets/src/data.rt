//! Grains and pillar as they are written in tables.
use salt_value::{Fields, Items, MinionId, Text, Value};
use std::alloc::{AllocError, Global};
use std::process::Abort;

/// A value; the keys of a map ascend.
pub enum Data {
    Null,
    Flag(bool),
    Int(i64),
    Str(&'static str),
    List(&'static [Data]),
    Map(&'static [(&'static str, Data)]),
}

#[cycle(value_of)]
fn value_of(alloc: Global, data: &Data) -> Result<Value, AllocError> {
    match data {
        Data::Null => Ok(Value::Null),
        Data::Flag(flag) => Ok(Value::Flag(*flag)),
        Data::Int(number) => Ok(Value::Int(*number)),
        Data::Str(text) => Ok(Value::Str(text_of(alloc, text)?)),
        Data::List(items) => Ok(Value::List(items_of(alloc, items)?)),
        Data::Map(pairs) => Ok(Value::Map(fields_of(alloc, pairs)?)),
    }
}

#[cycle(value_of)]
fn items_of(alloc: Global, data: &[Data]) -> Result<Items, AllocError> {
    let mut items = Items::new(alloc);
    for item in data {
        items.push(value_of(alloc, item)?)?;
    }
    Ok(items)
}

#[cycle(value_of)]
fn fields_of(alloc: Global, data: &[(&'static str, Data)]) -> Result<Fields, AllocError> {
    let mut fields = Fields::new(alloc);
    for (key, value) in data {
        let value = value_of(alloc, value)?;
        put(&mut fields, text_of(alloc, key)?, value)?;
    }
    Ok(fields)
}

fn text_of(alloc: Global, text: &str) -> Result<Text, AllocError> {
    Ok(Text::new(String::from_str(alloc, text)?))
}

// A key out of order would be passed over, so a table with one makes its test fail.
fn put(fields: &mut Fields, key: Text, value: Value) -> Result<(), AllocError> {
    if !fields.can_push(&key) {
        return Err(AllocError);
    }
    fields.push(key, value)
}

/// A minion's id, grains and pillar.
#[derive(Drop)]
pub struct Minion {
    pub id: MinionId,
    pub grains: Fields,
    pub pillar: Fields,
}

/// The minion of these tables.
pub fn made_minion(
    rt: &impl Abort,
    alloc: Global,
    name: &str,
    grains: &[(&'static str, Data)],
    pillar: &[(&'static str, Data)],
) -> Minion {
    Minion {
        id: MinionId::read(name).expect(rt, "an id"),
        grains: fields_of(alloc, grains).expect(rt, "keys that ascend"),
        pillar: fields_of(alloc, pillar).expect(rt, "keys that ascend"),
    }
}

/// The grains of the minion that most rows ask.
pub static GRAINS: [(&str, Data); 19] = [
    ("", Data::Str("empty key")),
    ("Os", Data::Str("Gentoo")),
    (
        "alist",
        Data::List(&[
            Data::Str("x"),
            Data::List(&[Data::Str("deep"), Data::Map(&[("k", Data::Str("v"))])]),
            Data::Map(&[
                ("inner", Data::Int(7)),
                ("two", Data::List(&[Data::Str("p"), Data::Str("q")])),
            ]),
        ]),
    ),
    ("count", Data::Int(-12)),
    (
        "ec2",
        Data::Map(&[(
            "tags",
            Data::Map(&[("Role", Data::Str("Db")), ("env", Data::Str("prod"))]),
        )]),
    ),
    ("empty", Data::Str("")),
    ("empty_list", Data::List(&[])),
    ("empty_map", Data::Map(&[])),
    ("flag_off", Data::Flag(false)),
    ("flag_on", Data::Flag(true)),
    ("least", Data::Int(-9_223_372_036_854_775_808)),
    ("mac", Data::Str("aa:bb")),
    ("null", Data::Null),
    ("os", Data::Str("Debian")),
    ("roles", Data::List(&[Data::Str("web"), Data::Str("db")])),
    ("text_none", Data::Str("None")),
    ("text_true", Data::Str("True")),
    ("uni", Data::Str("Größe")),
    ("zero", Data::Int(0)),
];

/// Its pillar.
pub static PILLAR: [(&str, Data); 1] = [("role", Data::Str("db"))];
