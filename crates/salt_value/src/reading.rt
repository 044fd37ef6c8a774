//! Values read from bytes.
ghost use Rattle.std.specs.Prelude.{◌≡◌, None};
ghost use Rattle.std.specs.Option.{option_copied};
ghost use Rattle.salt_value.specs.Keys.{comes_after, before};
ghost use Rattle.salt_value.specs.Decoding as spec;
ghost use Rattle.salt_value.specs.Decoding.{after_tag};
ghost use Rattle.salt_value.specs.Readers.{Answers, several};
ghost use Rattle.salt_value.specs.Parts.{ReadsPart, ReadsPair};
ghost use Rattle.salt_value.specs.declared.fault.ValueFault.TheVariants as faults;
ghost use Rattle.salt_value.specs.Tags.{tag_of};
ghost use Rattle.salt_value.specs.FirstFault.{value_fault};

use crate::bytes::{text_or, u32_or, u64_or};
use crate::fault::{Misread, ValueFault};
use crate::limits::{MOST_VALUE_BYTES, MOST_VALUE_LEVELS};
use crate::text::Text;
use crate::value::{Fields, Items, Value};
use std::alloc::Global;

fn int_at(bytes: &[u8]) -> Result<(i64, &[u8]), Misread>
    ensures { ReadsPart result (spec.int_at bytes.now) }
{
    let (number, rest) = u64_or(bytes, Misread::Short)?;
    Ok((number.cast_signed(), rest))
}

fn text_at(alloc: Global, bytes: &[u8]) -> Result<(Text, &[u8]), Misread>
    ensures { ReadsPart result (spec.text_at bytes.now) }
{
    let bad = Misread::NotUtf8(bytes.len().saturating_sub(4));
    let (text, rest) = text_or(bytes, Misread::Short, bad)?;
    Ok((Text::new(String::from_str(alloc, text)?), rest))
}

fn is_before(a: &[u8], b: &[u8]) -> bool
    ensures { result ≡ before a.now b.now }
{
    a.cmp(b).is_lt()
}

fn may_follow(last: Option<&[u8]>, key: &[u8]) -> bool
    ensures { result ≡ comes_after (option_copied last.entry) key.now }
{
    match last {
        None => true,
        Some(last) => is_before(last, key),
    }
}

// A key that stands after the last one.
#[tactic(auto, unfolding(crate::specs::Decoding::key_at))]
fn key_at<'b>(
    alloc: Global,
    last: Option<&[u8]>,
    bytes: &'b [u8],
) -> Result<(Text, &'b [u8]), Misread>
    ensures { ReadsPart result (spec.key_at (option_copied last.entry) bytes.now) }
{
    let (key, rest) = text_at(alloc, bytes)?;
    if !may_follow(last, key.as_bytes()) {
        return Err(Misread::Unsorted(bytes.len().saturating_sub(4)));
    }
    Ok((key, rest))
}

// A value that may have so many levels.
#[cycle(reading)]
#[tactic(auto, using(crate::proofs::ReadLemmas::value_at_steps))]
fn value_at(alloc: Global, levels: usize, bytes: &[u8]) -> Result<(Value, &[u8]), Misread>
    ensures { ReadsPart result (spec.value_at levels bytes.now) }
{
    if levels == 0 {
        return Err(Misread::TooDeep);
    }
    match bytes {
        [] => Err(Misread::Short),
        [tag, rest @ ..] => tagged(alloc, levels - 1, *tag, rest),
    }
}

// What stands after the tag of a value that may have so many levels below its own.
#[cycle(reading)]
#[tactic(auto, unfolding(crate::specs::Decoding::after_tag))]
fn tagged(alloc: Global, levels: usize, tag: u8, bytes: &[u8]) -> Result<(Value, &[u8]), Misread>
    ensures { ReadsPart result (after_tag levels (spec.value_at levels) (tag_of tag) bytes.now) }
{
    match tag {
        0x00 => Ok((Value::Null, bytes)),
        0x01 => Ok((Value::Flag(false), bytes)),
        0x02 => Ok((Value::Flag(true), bytes)),
        0x03 => {
            let (number, rest) = int_at(bytes)?;
            Ok((Value::Int(number), rest))
        }
        0x04 => {
            let (text, rest) = text_at(alloc, bytes)?;
            Ok((Value::Str(text), rest))
        }
        0x05 => {
            let (count, rest) = u32_or(bytes, Misread::Short)?;
            let (items, rest) = items_at(alloc, levels, count, rest)?;
            Ok((Value::List(items), rest))
        }
        0x06 => {
            let (count, rest) = u32_or(bytes, Misread::Short)?;
            let (fields, rest) = pairs_at(alloc, levels, count, rest)?;
            Ok((Value::Map(fields), rest))
        }
        _ => Err(Misread::BadTag(bytes.len().saturating_add(1))),
    }
}

// So many values, one after the other.
#[cycle(reading)]
fn items_at(
    alloc: Global,
    levels: usize,
    count: u32,
    bytes: &[u8],
) -> Result<(Items, &[u8]), Misread>
    ensures { ReadsPart result (several (spec.value_at levels) count bytes.now) }
{
    let mut items = Items::new(alloc);
    let mut rest = bytes;
    for _ in 0..count {
        let (item, after) = value_at(alloc, levels, rest)?;
        items.push(item)?;
        rest = after;
    }
    Ok((items, rest))
}

// A key that stands after the last one, and its value.
#[cycle(reading)]
#[tactic(auto, unfolding(crate::specs::Decoding::pair_at))]
fn pair_at<'b>(
    alloc: Global,
    levels: usize,
    last: Option<&[u8]>,
    bytes: &'b [u8],
) -> Result<(Text, Value, &'b [u8]), Misread>
    ensures { ReadsPair levels (option_copied last.entry) bytes.now result }
{
    if levels == 0 {
        return Err(Misread::TooDeep);
    }
    let (key, rest) = key_at(alloc, last, bytes)?;
    let (value, rest) = value_at(alloc, levels, rest)?;
    Ok((key, value, rest))
}

// So many pairs, each key after the one before it.
#[cycle(reading)]
fn pairs_at(
    alloc: Global,
    levels: usize,
    count: u32,
    bytes: &[u8],
) -> Result<(Fields, &[u8]), Misread>
    ensures { ReadsPart result (spec.pairs_at levels (spec.value_at levels) None count bytes.now) }
{
    let mut fields = Fields::new(alloc);
    let mut rest = bytes;
    for _ in 0..count {
        let (key, value, after) = pair_at(alloc, levels, fields.last_key(), rest)?;
        fields.push(key, value)?;
        rest = after;
    }
    Ok((fields, rest))
}

// A fault by its place from the front, where so many bytes of all were looked at.
fn place(misread: Misread, all: usize, seen: usize) -> ValueFault
    ensures { result ≡ value_fault all seen misread }
{
    match misread {
        Misread::NoMemory => ValueFault::NoMemory,
        Misread::Short => {
            if all < MOST_VALUE_BYTES {
                ValueFault::Short
            } else {
                ValueFault::TooLarge
            }
        }
        Misread::BadTag(left) => ValueFault::BadTag {
            at: seen.saturating_sub(left),
        },
        Misread::Unsorted(left) => ValueFault::Unsorted {
            at: seen.saturating_sub(left),
        },
        Misread::NotUtf8(left) => ValueFault::NotUtf8 {
            at: seen.saturating_sub(left),
        },
        Misread::TooDeep => ValueFault::TooDeep,
    }
}

// The value that begins the input, and how many bytes it takes.
#[tactic(auto, unfolding(crate::specs::Decoding::read_at))]
pub fn whole(alloc: Global, input: &[u8]) -> Result<(Value, usize), ValueFault>
    ensures { Answers faults.NoMemory result (spec.read_at input.now) }
{
    let seen = input.len().min(MOST_VALUE_BYTES);
    match value_at(alloc, MOST_VALUE_LEVELS, &input[..seen]) {
        Ok((value, rest)) => Ok((value, seen.saturating_sub(rest.len()))),
        Err(misread) => Err(place(misread, input.len(), seen)),
    }
}
