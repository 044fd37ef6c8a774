//! Trees of targets at the limits of a job's target.
use salt_value::Text;
use salt_wire::tree_fits;
use sqlite_items::Boxed;
use std::alloc::{AllocError, Global};
use target_tree::Target;

// So many negations over so many leaves, joined by `and`: how many bytes the text of each leaf has, and whether it is a pattern.
type Shape = (u32, u32, u32, bool);

static SHAPES: [(Shape, bool); 11] = [
    ((0, 1, 1, false), true),
    // 256 nodes, and one more
    ((255, 1, 1, false), true),
    ((256, 1, 1, false), false),
    // 16 patterns, and one more
    ((0, 16, 1, true), true),
    ((0, 17, 1, true), false),
    ((0, 17, 1, false), true),
    // a leaf of no byte, of 4,096 bytes, and of one more
    ((0, 1, 0, false), false),
    ((0, 1, 4096, true), true),
    ((0, 1, 4097, true), false),
    // 65,536 bytes, and one more
    ((1, 16, 4090, false), true),
    ((2, 16, 4090, false), false),
];

fn text(alloc: Global, length: u32) -> Result<Text, AllocError> {
    let mut text = String::new(alloc);
    for _ in 0..length {
        text.push('x')?;
    }
    Ok(Text::new(text))
}

fn leaf(alloc: Global, length: u32, is_pattern: bool) -> Result<Boxed<Target>, AllocError> {
    let text = text(alloc, length)?;
    if is_pattern {
        Boxed::new(alloc, Target::IdPcre(text))
    } else {
        Boxed::new(alloc, Target::IdGlob(text))
    }
}

fn joined(
    alloc: Global,
    leaves: u32,
    length: u32,
    is_pattern: bool,
) -> Result<Boxed<Target>, AllocError> {
    let mut tree = leaf(alloc, length, is_pattern)?;
    for _ in 1..leaves {
        tree = Boxed::new(alloc, Target::And(tree, leaf(alloc, length, is_pattern)?))?;
    }
    Ok(tree)
}

fn negated(
    alloc: Global,
    tree: Boxed<Target>,
    negations: u32,
) -> Result<Boxed<Target>, AllocError> {
    let mut tree = tree;
    for _ in 0..negations {
        tree = Boxed::new(alloc, Target::Not(tree))?;
    }
    Ok(tree)
}

fn shape_fits(alloc: Global, shape: Shape) -> Result<bool, AllocError> {
    let (negations, leaves, length, is_pattern) = shape;
    let tree = joined(alloc, leaves, length, is_pattern)?;
    let tree = negated(alloc, tree, negations)?;
    Ok(tree_fits(tree.get()))
}

#[test]
fn a_target_has_256_nodes_and_16_patterns_at_most(rt: HostRuntime) {
    for (i, (shape, fits)) in SHAPES.iter().enumerate() {
        assert_eq!(rt; shape_fits(rt.alloc(), *shape), Ok(*fits), "row {i}");
    }
}
