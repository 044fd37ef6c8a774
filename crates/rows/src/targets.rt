//! Targets and nodegroups.
use crate::spread::cut;
use crate::trees::tree_text;
use salt_value::{MinionId, Text};
use std::alloc::{AllocError, Global};
use target_tree::{Groups, Kind, Target, read_target};

/// Adds a nodegroup of this name and text.
pub fn group(alloc: Global, groups: &mut Groups, rest: &str) -> Result<String, AllocError> {
    let (name, text) = cut(rest);
    let text = Text::new(String::from_str(alloc, text)?);
    let Ok(name) = MinionId::read(name) else {
        return String::from_str(alloc, "no id");
    };
    match groups.add(name, text) {
        Ok(()) => String::from_str(alloc, "added"),
        Err(fault) => format!(in alloc; "{fault:?}"),
    }
}

/// The tree that a text of this kind stands for.
pub fn target(alloc: Global, groups: &Groups, rest: &str) -> Result<String, AllocError> {
    let (kind, text) = cut(rest);
    match Kind::read(kind) {
        Some(kind) => tree_of(alloc, kind, text, groups),
        None => String::from_str(alloc, "no kind"),
    }
}

fn tree_of(alloc: Global, kind: Kind, text: &str, groups: &Groups) -> Result<String, AllocError> {
    match read_target(alloc, kind, text, groups) {
        Ok(tree) => tree_text(alloc, &tree),
        Err(fault) => format!(in alloc; "{fault:?}"),
    }
}

/// The copy of that tree.
pub fn copy(alloc: Global, groups: &Groups, rest: &str) -> Result<String, AllocError> {
    let (kind, text) = cut(rest);
    match Kind::read(kind) {
        Some(kind) => copy_of(alloc, kind, text, groups),
        None => String::from_str(alloc, "no kind"),
    }
}

fn copy_of(alloc: Global, kind: Kind, text: &str, groups: &Groups) -> Result<String, AllocError> {
    match read_target(alloc, kind, text, groups) {
        Ok(tree) => copy_text(alloc, &tree),
        Err(fault) => format!(in alloc; "{fault:?}"),
    }
}

fn copy_text(alloc: Global, tree: &Target) -> Result<String, AllocError> {
    let copy = tree.copy(alloc)?;
    tree_text(alloc, &copy)
}
