//! Texts in the subset of YAML.
use salt_value::Value;
use std::alloc::{AllocError, Global};
use std::fmt::Write;
use value_json::to_text;
use yaml_subset::{Yaml, YamlFault, YamlNode, YamlPair, lines_are_numbered, read_yaml};

/// The tree of a text whose lines are parted by `;`, each part with its line, or the line and the cause of its first fault.
pub fn yaml(alloc: Global, rest: &str) -> Result<String, AllocError> {
    let text = with_feeds(alloc, rest)?;
    lines_are_numbered(text.as_str());
    if text.len() > 1_000_000 {
        return String::from_str(alloc, "too long");
    }
    match read_yaml(alloc, text.as_str(), 1) {
        Ok(tree) => tree_text(alloc, &tree),
        Err(YamlFault::Line { line, cause }) => format!(in alloc; "line {line} {cause:?}"),
        Err(YamlFault::NoMemory) => String::from_str(alloc, "no memory"),
    }
}

// The text with a line feed for each `;`.
fn with_feeds(alloc: Global, lines: &str) -> Result<String, AllocError> {
    let mut text = String::new(alloc);
    let mut parts = lines.split(';');
    if let Some(first) = parts.next() {
        text.push_str(first)?;
    }
    for part in parts {
        text.push_str("\n")?;
        text.push_str(part)?;
    }
    Ok(text)
}

/// What is still to be written.
#[derive(Clone, Copy)]
enum Part<'a> {
    Text(&'static str),
    Tree(&'a Yaml),
    Pair(&'a YamlPair),
}

// A tree of at most 10,000 parts.
fn tree_text(alloc: Global, tree: &Yaml) -> Result<String, AllocError> {
    let mut out = String::new(alloc);
    let mut pending = Vec::new(alloc);
    pending.push(Part::Tree(tree))?;
    for _ in 0..10_000 {
        let Some(part) = pending.pop() else {
            return Ok(out);
        };
        match part {
            Part::Text(text) => out.push_str(text)?,
            Part::Tree(tree) => {
                write!(out, "{}:", tree.line)?;
                write_node(alloc, &tree.node, &mut out)?;
                push_parts(&tree.node, &mut pending)?;
            }
            Part::Pair(pair) => {
                write!(out, "{}{:?} ", pair.line, pair.key.as_str())?;
                pending.push(Part::Tree(&pair.value))?;
            }
        }
    }
    Ok(out)
}

fn write_node(alloc: Global, node: &YamlNode, out: &mut String) -> Result<(), AllocError> {
    match node {
        YamlNode::Scalar(value) => write_scalar(alloc, value, out),
        YamlNode::List(_) => out.push_str("["),
        YamlNode::Map(_) => out.push_str("{"),
    }
}

// Of more than 64 bytes their number is told.
fn write_scalar(alloc: Global, value: &Value, out: &mut String) -> Result<(), AllocError> {
    let text = to_text(alloc, value)?;
    if text.as_bytes().len() > 64 {
        return write!(out, "{} bytes", text.as_bytes().len());
    }
    out.push_str(text.as_str())
}

// What a list or a map has, from the last part to the first.
fn push_parts<'a>(node: &'a YamlNode, pending: &mut Vec<Part<'a>>) -> Result<(), AllocError> {
    match node {
        YamlNode::Scalar(_) => {}
        YamlNode::List(items) => {
            pending.push(Part::Text("]"))?;
            for item in items.as_slice().iter().rev() {
                pending.push(Part::Text(" "))?;
                pending.push(Part::Tree(item))?;
            }
        }
        YamlNode::Map(pairs) => {
            pending.push(Part::Text("}"))?;
            for pair in pairs.as_slice().iter().rev() {
                pending.push(Part::Text(" "))?;
                pending.push(Part::Pair(pair))?;
            }
        }
    }
    Ok(())
}
