//! The text of a tree: each node before what stands under it.
use salt_value::{MinionId, Text};
use std::alloc::{AllocError, Global};
use target_tree::Target;

/// Each node of a tree of at most 600 nodes before what stands under it.
pub fn tree_text(alloc: Global, tree: &Target) -> Result<String, AllocError> {
    let mut out = String::new(alloc);
    let mut pending = Vec::new(alloc);
    pending.push(tree)?;
    for _ in 0..600 {
        let Some(tree) = pending.pop() else {
            return Ok(out);
        };
        write_node(tree, &mut out)?;
        match tree {
            Target::Not(inner) => pending.push(inner.get())?,
            Target::And(left, right) | Target::Or(left, right) => {
                pending.push(right.get())?;
                pending.push(left.get())?;
            }
            _ => {}
        }
    }
    Ok(out)
}

fn write_node(tree: &Target, out: &mut String) -> Result<(), AllocError> {
    match tree {
        Target::IdGlob(text) => write_leaf("g", text, out),
        Target::IdPcre(text) => write_leaf("E", text, out),
        Target::IdList(ids) => write_ids(ids.as_slice(), out),
        Target::GrainGlob(text) => write_leaf("G", text, out),
        Target::GrainPcre(text) => write_leaf("P", text, out),
        Target::PillarGlob(text) => write_leaf("I", text, out),
        Target::PillarPcre(text) => write_leaf("J", text, out),
        Target::Not(_) => out.push_str("!"),
        Target::And(_, _) => out.push_str("&"),
        Target::Or(_, _) => out.push_str("|"),
    }
}

fn write_leaf(letter: &str, text: &Text, out: &mut String) -> Result<(), AllocError> {
    out.push_str(letter)?;
    out.push_str(":")?;
    out.push_str(text.as_str())?;
    out.push_str(" ")
}

fn write_ids(ids: &[MinionId], out: &mut String) -> Result<(), AllocError> {
    out.push_str("L:")?;
    for id in ids {
        out.push_str(id.as_str())?;
        out.push_str(",")?;
    }
    out.push_str(" ")
}
