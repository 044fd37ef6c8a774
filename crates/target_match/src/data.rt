//! Globs of paths into grains and pillar.
ghost use Rattle.std.specs.Prelude.{◌≡◌, IfOk, map, bytes_eq};
ghost use Rattle.std.specs.List.{list_any};
ghost use Rattle.salt_glob.specs.LowerCase.{glob_caseless};
ghost use Rattle.salt_value.specs.Scalar.{flag_text};
ghost use Rattle.target_match.specs.Paths.{parts};
ghost use Rattle.target_match.specs.Data.{meets, map_meets, child_meets, told_pairs};

use crate::parts::split;
use salt_glob::glob_caseless;
use salt_value::{Text, Value};
use std::alloc::{AllocError, Global};

/// Whether a value meets the parts of a text. It takes memory for the digits of a number alone.
#[cycle(meets)]
pub fn meets(alloc: Global, value: &Value, text: &str) -> Result<bool, AllocError>
    ensures { IfOk result (λ b. b ≡ meets value.now (parts text.now)) }
{
    match value {
        Value::Null => Ok(glob_caseless(text.as_bytes(), b"None")),
        Value::Flag(flag) => Ok(glob_caseless(text.as_bytes(), name_of(*flag).as_bytes())),
        Value::Int(number) => {
            let digits = number.to_string(alloc)?;
            Ok(glob_caseless(text.as_bytes(), digits.as_bytes()))
        }
        Value::Str(own) => Ok(glob_caseless(text.as_bytes(), own.as_bytes())),
        Value::List(items) => any_meets(alloc, items.as_slice(), text),
        Value::Map(fields) => pairs_meet(alloc, fields.as_slice(), text),
    }
}

#[cycle(meets)]
fn any_meets(alloc: Global, items: &[Value], text: &str) -> Result<bool, AllocError>
    ensures { IfOk result (λ b. b ≡ list_any (λ v. meets v (parts text.now)) items.now) }
{
    for item in items {
        if meets(alloc, item, text)? {
            return Ok(true);
        }
    }
    Ok(false)
}

/// Whether a map of these pairs meets the parts of a text.
#[cycle(meets)]
pub fn pairs_meet(alloc: Global, pairs: &[(Text, Value)], text: &str) -> Result<bool, AllocError>
    ensures { IfOk result (λ b. b ≡ map_meets (told_pairs pairs.now) (parts text.now)) }
{
    match split(text) {
        None => Ok(any_key_meets(pairs, text)),
        Some((key, rest)) => child_meets(alloc, pairs, key, rest),
    }
}

#[cycle(meets)]
fn child_meets(
    alloc: Global,
    pairs: &[(Text, Value)],
    key: &str,
    text: &str,
) -> Result<bool, AllocError>
    ensures { IfOk result (λ b. b ≡ child_meets key.now pairs.now (parts text.now)) }
{
    for (name, child) in pairs {
        if is_key(name, key.as_bytes()) {
            return meets(alloc, child, text);
        }
    }
    Ok(false)
}

/// Whether a map's key is the part of a path, with regard to case.
pub fn is_key(name: &Text, key: &[u8]) -> bool
    ensures { result ≡ bytes_eq name.now key.now }
{
    name.as_bytes() == key
}

fn any_key_meets(pairs: &[(Text, Value)], glob: &str) -> bool
    ensures { result ≡ list_any (λ p. glob_caseless glob.now p.0) (told_pairs pairs.now) }
{
    for (name, _) in pairs {
        if glob_caseless(glob.as_bytes(), name.as_bytes()) {
            return true;
        }
    }
    false
}

/// The word that Python has for a flag.
pub fn name_of(flag: bool) -> &'static str
    ensures { result.now ≡ flag_text flag }
{
    if flag { "True" } else { "False" }
}
