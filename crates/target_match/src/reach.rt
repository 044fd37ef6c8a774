//! Patterns at the end of paths into grains and pillar.
ghost use Rattle.std.specs.Prelude.{◌≡◌, IfOk};
ghost use Rattle.regex.specs.Strings.{regex_source, regex_pattern, matcher_pattern};
ghost use Rattle.target_match.specs.Patterns.{IsCompiled, starts};
ghost use Rattle.target_match.specs.Data.{text_reaches};
ghost use Rattle.target_match.specs.Reach.{value_begins, any_begins, map_begins, child_begins, any_key_begins};

use crate::data::{is_key, name_of};
use crate::pattern::starts;
use regex::{Matcher, Regex};
use salt_value::{Text, Value};
use std::alloc::{AllocError, Global};

/// Whether what stands at the end of a path in a value begins with the pattern. One matcher of the pattern serves all texts.
#[cycle(reached)]
pub fn reached(
    alloc: Global,
    matcher: &mut Matcher<'_>,
    pattern: &Regex,
    value: &Value,
    path: &[Text],
) -> Result<bool, AllocError>
    requires compiled { IsCompiled pattern.now }
    requires same { matcher_pattern matcher.old ≡ regex_pattern pattern.now }
    ensures ok { IfOk result (λ b. b ≡ value_begins pattern.now value.now path.now) }
    ensures kept { matcher_pattern matcher.new ≡ matcher_pattern matcher.old }
{
    match value {
        Value::Null => Ok(text_reached(matcher, pattern, "None", path)),
        Value::Flag(flag) => Ok(text_reached(matcher, pattern, name_of(*flag), path)),
        Value::Int(number) => {
            let digits = number.to_string(alloc)?;
            Ok(text_reached(matcher, pattern, digits.as_str(), path))
        }
        Value::Str(text) => Ok(text_reached(matcher, pattern, text.as_str(), path)),
        Value::List(items) => any_reached(alloc, matcher, pattern, items.as_slice(), path),
        Value::Map(fields) => pairs_reached(alloc, matcher, pattern, fields.as_slice(), path),
    }
}

fn text_reached(matcher: &mut Matcher<'_>, pattern: &Regex, text: &str, path: &[Text]) -> bool
    requires compiled { IsCompiled pattern.now }
    requires same { matcher_pattern matcher.old ≡ regex_pattern pattern.now }
    ensures value { result ≡ text_reaches (starts (regex_source pattern.now)) text.now path.now }
    ensures kept { matcher_pattern matcher.new ≡ matcher_pattern matcher.old }
{
    match path {
        [] => starts(matcher, pattern, text),
        _ => false,
    }
}

#[cycle(reached)]
fn any_reached(
    alloc: Global,
    matcher: &mut Matcher<'_>,
    pattern: &Regex,
    items: &[Value],
    path: &[Text],
) -> Result<bool, AllocError>
    requires compiled { IsCompiled pattern.now }
    requires same { matcher_pattern matcher.old ≡ regex_pattern pattern.now }
    ensures ok { IfOk result (λ b. b ≡ any_begins pattern.now items.now path.now) }
    ensures kept { matcher_pattern matcher.new ≡ matcher_pattern matcher.old }
{
    for item in items {
        if reached(alloc, matcher, pattern, item, path)? {
            return Ok(true);
        }
    }
    Ok(false)
}

/// The same of a map of these pairs.
#[cycle(reached)]
pub fn pairs_reached(
    alloc: Global,
    matcher: &mut Matcher<'_>,
    pattern: &Regex,
    pairs: &[(Text, Value)],
    path: &[Text],
) -> Result<bool, AllocError>
    requires compiled { IsCompiled pattern.now }
    requires same { matcher_pattern matcher.old ≡ regex_pattern pattern.now }
    ensures ok { IfOk result (λ b. b ≡ map_begins pattern.now pairs.now path.now) }
    ensures kept { matcher_pattern matcher.new ≡ matcher_pattern matcher.old }
{
    match path {
        [] => Ok(any_key_passes(matcher, pattern, pairs)),
        [key, rest @ ..] => child_reached(alloc, matcher, pattern, pairs, key, rest),
    }
}

#[cycle(reached)]
fn child_reached(
    alloc: Global,
    matcher: &mut Matcher<'_>,
    pattern: &Regex,
    pairs: &[(Text, Value)],
    key: &Text,
    path: &[Text],
) -> Result<bool, AllocError>
    requires compiled { IsCompiled pattern.now }
    requires same { matcher_pattern matcher.old ≡ regex_pattern pattern.now }
    ensures ok { IfOk result (λ b. b ≡ child_begins pattern.now key.now pairs.now path.now) }
    ensures kept { matcher_pattern matcher.new ≡ matcher_pattern matcher.old }
{
    for (name, child) in pairs {
        if is_key(name, key.as_bytes()) {
            return reached(alloc, matcher, pattern, child, path);
        }
    }
    Ok(false)
}

fn any_key_passes(matcher: &mut Matcher<'_>, pattern: &Regex, pairs: &[(Text, Value)]) -> bool
    requires compiled { IsCompiled pattern.now }
    requires same { matcher_pattern matcher.old ≡ regex_pattern pattern.now }
    ensures value { result ≡ any_key_begins pattern.now pairs.now }
    ensures kept { matcher_pattern matcher.new ≡ matcher_pattern matcher.old }
{
    for (name, _) in pairs {
        if starts(matcher, pattern, name.as_str()) {
            return true;
        }
    }
    false
}
