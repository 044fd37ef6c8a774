//! Whether a tree is within the limits of a job's target.
ghost use Rattle.std.specs.Prelude.{◌≡◌, ◌↔◌, IsTrue, true};
ghost use Rattle.salt_wire.specs.Limits.{TreeFits};
ghost use Rattle.salt_wire.specs.FitTest as test;
ghost use Rattle.salt_wire.specs.Budget.{LeavesOf, TextLeaves, IdsLeave, ListLeaves, TreeLeaves, BranchLeaves};

use crate::tree::{MOST_LEAF_BYTES, MOST_LEAF_IDS, MOST_NODES, MOST_PATTERNS, MOST_TREE_BYTES};
use salt_value::{MinionId, Text};
use target_tree::Target;

/// What a tree may still have: nodes, pattern leaves and bytes.
#[derive(Clone, Copy)]
pub struct Budget {
    pub nodes: usize,
    pub patterns: usize,
    pub bytes: usize,
}

// What is left after a node with so many patterns and bytes of its own.
fn after_node(left: Budget, patterns: usize, bytes: usize) -> Option<Budget>
    ensures { LeavesOf true 1 patterns bytes left result }
{
    let nodes = left.nodes.checked_sub(1)?;
    let patterns = left.patterns.checked_sub(patterns)?;
    let bytes = left.bytes.checked_sub(bytes)?;
    Some(Budget {
        nodes,
        patterns,
        bytes,
    })
}

// What is left after a leaf with a text and so many patterns.
fn after_text(left: Budget, patterns: usize, text: &Text) -> Option<Budget>
    ensures { TextLeaves text.now patterns left result }
{
    let length = text.as_str().len();
    if length < 1 || length > MOST_LEAF_BYTES {
        return None;
    }
    after_node(left, patterns, 5 + length)
}

// How many of so many bytes are left after these ids.
fn after_ids(bytes: usize, ids: &[MinionId]) -> Option<usize>
    ensures { IdsLeave ids.now bytes result }
{
    let mut left = bytes;
    for id in ids {
        left = left.checked_sub(1 + id.as_bytes().len())?;
    }
    Some(left)
}

// What is left after a leaf with ids.
fn after_list(left: Budget, ids: &[MinionId]) -> Option<Budget>
    ensures { ListLeaves ids.now left result }
{
    if ids.is_empty() || ids.len() > MOST_LEAF_IDS {
        return None;
    }
    let bytes = after_ids(left.bytes, ids)?;
    after_node(Budget { bytes, ..left }, 0, 3)
}

// What is left after a tree.
#[cycle(fits)]
fn after(tree: &Target, left: Budget) -> Option<Budget>
    ensures { TreeLeaves tree.now left result }
{
    match tree {
        Target::IdGlob(glob) => after_text(left, 0, glob),
        Target::IdPcre(pattern) => after_text(left, 1, pattern),
        Target::IdList(ids) => after_list(left, ids.as_slice()),
        Target::GrainGlob(glob) => after_text(left, 0, glob),
        Target::GrainPcre(pattern) => after_text(left, 1, pattern),
        Target::PillarGlob(glob) => after_text(left, 0, glob),
        Target::PillarPcre(pattern) => after_text(left, 1, pattern),
        Target::Not(part) => after(part.get(), after_node(left, 0, 1)?),
        Target::And(one, other) => after_both(one.get(), other.get(), left),
        Target::Or(one, other) => after_both(one.get(), other.get(), left),
    }
}

// What is left after a node and the two trees below it.
#[cycle(fits)]
fn after_both(one: &Target, other: &Target, left: Budget) -> Option<Budget>
    ensures { BranchLeaves one.now other.now left result }
{
    let left = after_node(left, 0, 1)?;
    let left = after(one, left)?;
    after(other, left)
}

/// Whether a tree is within the limits of a job's target: at most 256 nodes, 16 leaves with a
/// pattern and 65,536 bytes of spelling, each leaf with a text of 1 to 4,096 bytes or with 1 to
/// 65,535 ids. It takes no memory. The limits are this project's own.
#[tactic(auto, using(crate::proofs::FitTests::fits_by))]
pub fn tree_fits(tree: &Target) -> bool
    ensures ok { IsTrue result ↔ TreeFits tree.now }
    ensures exact { result ≡ test.tree_fits tree.now }
{
    let whole = Budget {
        nodes: MOST_NODES,
        patterns: MOST_PATTERNS,
        bytes: MOST_TREE_BYTES,
    };
    after(tree, whole).is_some()
}
