//! Lists on one line.
ghost use Rattle.std.specs.Prelude.{◌≡◌, ◌≤◌, [], length, take, drop};
ghost use Rattle.yaml_words.specs.Faults.{GivesYaml};
ghost use Rattle.yaml_words.specs.Lists as spec;

use crate::fault::{YamlCause, YamlFault, refused};
use crate::flow::FlowNode;
use crate::places::{Delimiter, begins_with, is_at, place};
use crate::plain::{plain, text_fault};
use crate::quotes::{QuoteKind, after_quote, quoted_text};
use crate::spaces::{after_byte, after_spaces, trimmed};
use salt_value::{Items, Value};
use std::alloc::Global;

/// A scalar after its opening quote, where what follows the closing one may follow.
pub fn quoted_value(
    alloc: Global,
    line: u32,
    quote: QuoteKind,
    text: &str,
    may_follow: bool,
) -> Result<Value, YamlFault>
    ensures { GivesYaml result (spec.quoted_value line quote text.now may_follow) }
{
    let found = quoted_text(alloc, line, quote, text)?;
    let size = found.as_bytes().len();
    if let Some(cause) = text_fault(size, size, size) {
        return Err(refused(line, cause));
    }
    if !may_follow {
        return Err(refused(line, YamlCause::Quote));
    }
    Ok(Value::Str(found))
}

fn ends_item(text: &str) -> bool
    ensures { result ≡ spec.ends_item text.now }
{
    text.is_empty() || begins_with(text.as_bytes(), b',') || begins_with(text.as_bytes(), b']')
}

fn quoted_item(alloc: Global, line: u32, quote: QuoteKind, text: &str) -> Result<Value, YamlFault>
    ensures { GivesYaml result (spec.quoted_item line quote text.now) }
{
    let rest = after_spaces(after_quote(quote, text));
    quoted_value(alloc, line, quote, text, ends_item(rest))
}

/// A plain item of a list, with the spaces after it, and what stands after these.
fn cut_item(text: &str) -> (&str, &str)
    ensures item { result.0.now ≡ take (spec.item_size text.now) text.now }
    ensures rest { result.1.now ≡ drop (spec.item_size text.now) text.now }
{
    let end = if is_at(Delimiter::Open, text.as_bytes()) {
        Delimiter::ItemEnd
    } else {
        Delimiter::PlainEnd
    };
    text.split_at(place(end, text.as_bytes()))
}

/// The item that begins a text.
fn item(alloc: Global, line: u32, text: &str) -> Result<Value, YamlFault>
    ensures { GivesYaml result (spec.item line text.now) }
{
    if let Some(inner) = after_byte(text, b'\'') {
        return quoted_item(alloc, line, QuoteKind::Single, inner);
    }
    if let Some(inner) = after_byte(text, b'"') {
        return quoted_item(alloc, line, QuoteKind::Double, inner);
    }
    let (item, _rest) = cut_item(text);
    plain(alloc, line, trimmed(item))
}

/// What stands after the item that begins a text.
fn after_item(text: &str) -> &str
    ensures value { result.now ≡ spec.after_item text.now }
    ensures within { length result.now ≤ length text.now }
{
    if let Some(inner) = after_byte(text, b'\'') {
        return after_spaces(after_quote(QuoteKind::Single, inner));
    }
    if let Some(inner) = after_byte(text, b'"') {
        return after_spaces(after_quote(QuoteKind::Double, inner));
    }
    let (_item, rest) = cut_item(text);
    after_spaces(rest)
}

fn closed_list(line: u32, items: Items, text: &str) -> Result<FlowNode, YamlFault>
    ensures { GivesYaml result (spec.closed_list line items text.now) }
{
    if !after_spaces(text).is_empty() {
        return Err(refused(line, YamlCause::Unsupported));
    }
    Ok(FlowNode::List(items))
}

fn items(alloc: Global, line: u32, text: &str) -> Result<FlowNode, YamlFault>
    ensures { GivesYaml result (spec.items (length text.now) line [] text.now) }
{
    let mut items = Items::new(alloc);
    let mut rest = text;
    'items: loop {
        let found = item(alloc, line, rest)?;
        items.push(found)?;
        let after = after_item(rest);
        if let Some(tail) = after_byte(after, b']') {
            return closed_list(line, items, tail);
        }
        match after_byte(after, b',') {
            Some(more) => rest = after_spaces(more),
            None => return Err(refused(line, YamlCause::Unsupported)),
        }
    }
}

/// A list after its opening bracket and spaces, for which and whose items there are so many levels.
pub fn flow_list(alloc: Global, levels: usize, line: u32, text: &str) -> Result<FlowNode, YamlFault>
    ensures { GivesYaml result (spec.flow_list levels line text.now) }
{
    if text.is_empty() {
        return Err(refused(line, YamlCause::Unsupported));
    }
    if let Some(tail) = after_byte(text, b']') {
        return closed_list(line, Items::new(alloc), tail);
    }
    if levels < 2 {
        return Err(refused(line, YamlCause::TooDeep));
    }
    items(alloc, line, text)
}
