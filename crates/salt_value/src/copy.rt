//! Copies of values.
ghost use Rattle.std.specs.Prelude.{◌≡◌, IfOk};
ghost use Rattle.salt_value.specs.Keys.{Ascend, keys_of};

use crate::text::Text;
use crate::value::{Fields, Items, Value};
use std::alloc::{AllocError, Global};

#[cycle(copy)]
pub fn copy(alloc: Global, value: &Value) -> Result<Value, AllocError>
    ensures { IfOk result (λ copy. copy ≡ value.now) }
{
    match value {
        Value::Null => Ok(Value::Null),
        Value::Flag(flag) => Ok(Value::Flag(*flag)),
        Value::Int(number) => Ok(Value::Int(*number)),
        Value::Str(text) => Ok(Value::Str(text.copy()?)),
        Value::List(items) => Ok(Value::List(copy_items(alloc, items.as_slice())?)),
        Value::Map(fields) => Ok(Value::Map(copy_pairs(alloc, fields.as_slice())?)),
    }
}

/// An equal list of values in memory of its own.
#[cycle(copy)]
pub fn copy_items(alloc: Global, items: &[Value]) -> Result<Items, AllocError>
    ensures { IfOk result (λ copies. copies ≡ items.now) }
{
    let mut copies = Items::new(alloc);
    for item in items {
        copies.push(copy(alloc, item)?)?;
    }
    Ok(copies)
}

#[cycle(copy)]
fn copy_pairs(alloc: Global, pairs: &[(Text, Value)]) -> Result<Fields, AllocError>
    requires { Ascend (keys_of pairs.now) }
    ensures { IfOk result (λ copies. copies ≡ pairs.now) }
{
    let mut copies = Fields::new(alloc);
    for (key, value) in pairs {
        let name = key.copy()?;
        copies.push(name, copy(alloc, value)?)?;
    }
    Ok(copies)
}
