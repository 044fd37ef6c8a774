//! What stands behind a key or an item's mark.
ghost use Rattle.std.specs.Prelude.{◌≡◌};
ghost use Rattle.yaml_words.specs.Faults.{GivesYaml};
ghost use Rattle.yaml_words.specs.FlowNodes as spec;

use crate::fault::{YamlCause, YamlFault, refused};
use crate::lists::{flow_list, quoted_value};
use crate::places::{Delimiter, is_at};
use crate::plain::plain;
use crate::quotes::{QuoteKind, after_quote};
use crate::spaces::{after_byte, after_spaces, trimmed, uncommented};
use salt_value::{Items, Value};
use std::alloc::Global;

/// What a text on one line is.
#[derive(Drop)]
pub enum FlowNode {
    /// Null, a flag, a whole number or a text.
    Scalar(Value),
    /// `[A, B]`, whose items are scalars, or `[]`.
    List(Items),
    /// `{}`.
    EmptyMap,
}

fn quoted_node(
    alloc: Global,
    line: u32,
    quote: QuoteKind,
    text: &str,
) -> Result<FlowNode, YamlFault>
    ensures { GivesYaml result (spec.quoted_node line quote text.now) }
{
    let rest = after_spaces(after_quote(quote, text));
    let value = quoted_value(alloc, line, quote, text, rest.is_empty())?;
    Ok(FlowNode::Scalar(value))
}

/// A plain scalar's text, with neither a comment nor the spaces at its end.
fn plain_part(text: &str) -> &str
    ensures { result.now ≡ spec.plain_part text.now }
{
    if is_at(Delimiter::Open, text.as_bytes()) {
        return trimmed(text);
    }
    trimmed(uncommented(text))
}

fn plain_node(alloc: Global, line: u32, text: &str) -> Result<FlowNode, YamlFault>
    ensures { GivesYaml result (spec.plain_node line text.now) }
{
    let value = plain(alloc, line, plain_part(text))?;
    Ok(FlowNode::Scalar(value))
}

fn flow_map(line: u32, text: &str) -> Result<FlowNode, YamlFault>
    ensures { GivesYaml result (spec.flow_map line text.now) }
{
    let Some(tail) = after_byte(text, b'}') else {
        return Err(refused(line, YamlCause::Unsupported));
    };
    if !after_spaces(tail).is_empty() {
        return Err(refused(line, YamlCause::Unsupported));
    }
    Ok(FlowNode::EmptyMap)
}

/// Reads what a text on one line is, with the comment after it, where there are `levels` levels for it and what is in it. A text is what stands
/// behind a key or `-` and spaces; an empty one is `Unsupported`. A fault is the first one from the left, told with the line's number.
pub fn read_flow_node(
    alloc: Global,
    levels: usize,
    line: u32,
    text: &str,
) -> Result<FlowNode, YamlFault>
    ensures { GivesYaml result (spec.flow_node levels line text.now) }
{
    if let Some(inner) = after_byte(text, b'\'') {
        return quoted_node(alloc, line, QuoteKind::Single, inner);
    }
    if let Some(inner) = after_byte(text, b'"') {
        return quoted_node(alloc, line, QuoteKind::Double, inner);
    }
    if let Some(inner) = after_byte(text, b'[') {
        return flow_list(alloc, levels, line, after_spaces(inner));
    }
    if is_at(Delimiter::Open, text.as_bytes()) {
        return plain_node(alloc, line, text);
    }
    if let Some(inner) = after_byte(text, b'{') {
        return flow_map(line, after_spaces(inner));
    }
    plain_node(alloc, line, text)
}
