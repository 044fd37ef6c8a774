//! Values written as bytes.
ghost use Rattle.std.specs.Prelude.{◌≡◌, ◌<◌, ◌^◌, ◌++◌, List, ℕ, length, OnOk, OnErr};
ghost use Rattle.salt_value.specs.Spelling.{bytes};
ghost use Rattle.salt_value.specs.Parts.{counted_items, counted_pairs};
ghost use Rattle.salt_value.specs.WellFormed.{IsWellFormed, AllWellFormed, PairsWellFormed};

use crate::bytes::{put_text, put_u32, put_u64};
use crate::text::Text;
use crate::value::Value;
use std::alloc::AllocError;

// Appends a value's bytes. After an error some of them may stand at the end.
#[cycle(writing)]
fn put(out: &mut Vec<u8>, value: &Value) -> Result<(), AllocError>
    requires { IsWellFormed value.now }
    ensures ok { OnOk result (out.new.items ≡ out.old.items ++ bytes value.now) }
    ensures err { OnErr result ((more : List ℕ) × (out.new.items ≡ out.old.items ++ more)) }
{
    match value {
        Value::Null => out.push(0x00)?,
        Value::Flag(false) => out.push(0x01)?,
        Value::Flag(true) => out.push(0x02)?,
        Value::Int(number) => {
            out.push(0x03)?;
            put_u64(out, number.cast_unsigned())?;
        }
        Value::Str(text) => {
            out.push(0x04)?;
            put_text(out, text.as_bytes())?;
        }
        Value::List(items) => {
            out.push(0x05)?;
            put_items(out, items.as_slice())?;
        }
        Value::Map(fields) => {
            out.push(0x06)?;
            put_pairs(out, fields.as_slice())?;
        }
    }
    Ok(())
}

#[cycle(writing)]
fn put_items(out: &mut Vec<u8>, items: &[Value]) -> Result<(), AllocError>
    requires { (length items.now < 2 ^ 32) × AllWellFormed items.now }
    ensures ok { OnOk result (out.new.items ≡ out.old.items ++ counted_items items.now) }
    ensures err { OnErr result ((more : List ℕ) × (out.new.items ≡ out.old.items ++ more)) }
{
    put_u32(out, items.len() as u32)?;
    for item in items {
        put(out, item)?;
    }
    Ok(())
}

#[cycle(writing)]
fn put_pairs(out: &mut Vec<u8>, pairs: &[(Text, Value)]) -> Result<(), AllocError>
    requires { (length pairs.now < 2 ^ 32) × PairsWellFormed pairs.now }
    ensures ok { OnOk result (out.new.items ≡ out.old.items ++ counted_pairs pairs.now) }
    ensures err { OnErr result ((more : List ℕ) × (out.new.items ≡ out.old.items ++ more)) }
{
    put_u32(out, pairs.len() as u32)?;
    for (key, value) in pairs {
        put_text(out, key.as_bytes())?;
        put(out, value)?;
    }
    Ok(())
}

// Appends a value's bytes. An error leaves all as it was.
pub fn append(out: &mut Vec<u8>, value: &Value) -> Result<(), AllocError>
    requires { IsWellFormed value.now }
    ensures ok { OnOk result (out.new.items ≡ out.old.items ++ bytes value.now) }
    ensures err { OnErr result (out.new.items ≡ out.old.items) }
{
    let before = out.len();
    match put(out, value) {
        Ok(()) => Ok(()),
        Err(e) => {
            out.truncate(before);
            Err(e)
        }
    }
}
