//! Trees of targets read from bytes.
ghost use Rattle.std.specs.Prelude.{◌≡◌};
ghost use Rattle.salt_wire.specs.Decoding as spec;
ghost use Rattle.salt_value.specs.Readers.{several};

use crate::fault::Misread;
use crate::fields::{Parsed, byte_at, id_or, text_at};
use salt_value::{MinionId, Text, u16_or};
use sqlite_items::{Boxed, Items};
use std::alloc::Global;
use target_tree::Target;

/// The nodes of the greatest tree, and so its levels.
pub const MOST_NODES: usize = 256;

/// The pattern leaves of the greatest tree.
pub const MOST_PATTERNS: usize = 16;

/// The bytes of the longest tree.
pub const MOST_TREE_BYTES: usize = 65_536;

/// The bytes of the longest text of a leaf.
pub const MOST_LEAF_BYTES: usize = 4096;

/// The ids of the longest leaf with ids.
pub const MOST_LEAF_IDS: usize = 65_535;

/// A node at the front of some bytes, what may still come in the tree around it, and the bytes after it.
type Node<'a, T> = Result<(T, Room, &'a [u8]), Misread>;

/// What a tree may still have: nodes, pattern leaves, and bytes up to the place after which `stop`
/// bytes of the body are left.
#[derive(Clone, Copy)]
pub struct Room {
    pub nodes: usize,
    pub patterns: usize,
    pub stop: usize,
}

impl Room {
    ghost use Rattle.std.specs.Prelude.{◌≡◌};
    ghost use Rattle.salt_wire.specs.Decoding.{room_after, whole_room};

    // What a whole tree may have.
    fn whole(bytes: &[u8]) -> Room
        ensures { result ≡ whole_room bytes.now }
    {
        Room {
            nodes: MOST_NODES,
            patterns: MOST_PATTERNS,
            stop: bytes.len().saturating_sub(MOST_TREE_BYTES),
        }
    }

    // What may come after a node of this tag, if this one may stand.
    fn after(self, tag: u8) -> Option<Room>
        ensures { result ≡ room_after self tag }
    {
        if self.nodes == 0 {
            return None;
        }
        let nodes = self.nodes - 1;
        match tag {
            0x02 | 0x05 | 0x07 if self.patterns == 0 => None,
            0x02 | 0x05 | 0x07 => Some(Room {
                nodes,
                patterns: self.patterns - 1,
                ..self
            }),
            _ => Some(Room { nodes, ..self }),
        }
    }
}

// The tag of a node.
#[tactic(auto, unfolding(crate::specs::Decoding::tag_field))]
fn tag_at(room: Room, bytes: &[u8]) -> Node<'_, u8>
    ensures { spec.GivesNode result (spec.tag_field room bytes.now) }
{
    let bad = Misread::BadField(bytes.len());
    let (tag, rest) = byte_at(bytes)?;
    if rest.len() < room.stop {
        return Err(bad);
    }
    match room.after(tag) {
        Some(room) => Ok((tag, room, rest)),
        None => Err(bad),
    }
}

// The text of a leaf.
#[tactic(auto, unfolding(crate::specs::Decoding::leaf_text))]
fn leaf_text_at(alloc: Global, stop: usize, bytes: &[u8]) -> Parsed<'_, Text>
    ensures { spec.GivesField result (spec.leaf_text stop bytes.now) }
{
    let bad = Misread::BadField(bytes.len());
    let (text, rest) = text_at(alloc, bytes)?;
    let length = text.as_bytes().len();
    if length < 1 || length > MOST_LEAF_BYTES || rest.len() < stop {
        return Err(bad);
    }
    Ok((text, rest))
}

// So many ids, or this fault.
fn ids_or(alloc: Global, count: u16, bytes: &[u8], bad: Misread) -> Parsed<'_, Items<MinionId>>
    ensures { spec.GivesField result (several (spec.id_or bad) count bytes.now) }
{
    let mut ids = Items::new(alloc);
    let mut rest = bytes;
    for _ in 0..count {
        let (id, after) = match id_or(rest, bad) {
            Ok(found) => found,
            Err(fault) => return Err(fault),
        };
        ids.push(id)?;
        rest = after;
    }
    Ok((ids, rest))
}

// The ids of a leaf.
#[tactic(auto, unfolding(crate::specs::Decoding::leaf_ids))]
fn leaf_ids_at(alloc: Global, stop: usize, bytes: &[u8]) -> Parsed<'_, Items<MinionId>>
    ensures { spec.GivesField result (spec.leaf_ids stop bytes.now) }
{
    let bad = Misread::BadField(bytes.len());
    let (count, rest) = u16_or(bytes, bad)?;
    let (ids, rest) = ids_or(alloc, count, rest, bad)?;
    if count < 1 || rest.len() < stop {
        return Err(bad);
    }
    Ok((ids, rest))
}

fn is_text_tag(tag: u8) -> bool
    ensures { result ≡ spec.is_text_tag tag }
{
    matches!(tag, 0x01 | 0x02 | 0x04 | 0x05 | 0x06 | 0x07)
}

// The leaf of a tag, with its text.
fn leaf(tag: u8, text: Text) -> Target
    ensures { result ≡ spec.leaf tag text }
{
    match tag {
        0x01 => Target::IdGlob(text),
        0x02 => Target::IdPcre(text),
        0x04 => Target::GrainGlob(text),
        0x05 => Target::GrainPcre(text),
        0x06 => Target::PillarGlob(text),
        _ => Target::PillarPcre(text),
    }
}

// A leaf with a text, after its tag.
#[tactic(auto, unfolding(crate::specs::Decoding::text_node))]
fn text_node(alloc: Global, tag: u8, room: Room, bytes: &[u8]) -> Node<'_, Target>
    ensures { spec.GivesNode result (spec.text_node tag room bytes.now) }
{
    if !is_text_tag(tag) {
        return Err(Misread::BadField(bytes.len().saturating_add(1)));
    }
    let (text, rest) = leaf_text_at(alloc, room.stop, bytes)?;
    Ok((leaf(tag, text), room, rest))
}

// A leaf with ids, after its tag.
#[tactic(auto, unfolding(crate::specs::Decoding::list_node))]
fn list_node(alloc: Global, room: Room, bytes: &[u8]) -> Node<'_, Target>
    ensures { spec.GivesNode result (spec.list_node room bytes.now) }
{
    let (ids, rest) = leaf_ids_at(alloc, room.stop, bytes)?;
    Ok((Target::IdList(ids), room, rest))
}

// A tree of at most so many levels, which may have no more than this.
#[cycle(trees)]
#[tactic(auto, using(crate::proofs::TreeSteps::tree_steps))]
fn levels_at(alloc: Global, levels: usize, room: Room, bytes: &[u8]) -> Node<'_, Target>
    ensures { spec.GivesNode result (spec.tree_at levels room bytes.now) }
{
    if levels == 0 {
        return Err(Misread::BadField(bytes.len()));
    }
    let (tag, room, rest) = tag_at(room, bytes)?;
    node_after(alloc, levels - 1, tag, room, rest)
}

// The same in a box.
#[cycle(trees)]
fn part_at(alloc: Global, levels: usize, room: Room, bytes: &[u8]) -> Node<'_, Boxed<Target>>
    ensures { spec.GivesNode result (spec.tree_at levels room bytes.now) }
{
    let (tree, room, rest) = levels_at(alloc, levels, room, bytes)?;
    Ok((Boxed::new(alloc, tree)?, room, rest))
}

#[cycle(trees)]
#[tactic(auto, unfolding(crate::specs::Decoding::not_node))]
fn not_node(alloc: Global, levels: usize, room: Room, bytes: &[u8]) -> Node<'_, Target>
    ensures { spec.GivesNode result (spec.not_node (spec.tree_at levels) room bytes.now) }
{
    let (part, room, rest) = part_at(alloc, levels, room, bytes)?;
    Ok((Target::Not(part), room, rest))
}

#[cycle(trees)]
#[tactic(auto, unfolding(crate::specs::Decoding::and_node))]
fn and_node(alloc: Global, levels: usize, room: Room, bytes: &[u8]) -> Node<'_, Target>
    ensures { spec.GivesNode result (spec.and_node (spec.tree_at levels) room bytes.now) }
{
    let (left, room, rest) = part_at(alloc, levels, room, bytes)?;
    let (right, room, rest) = part_at(alloc, levels, room, rest)?;
    Ok((Target::And(left, right), room, rest))
}

#[cycle(trees)]
#[tactic(auto, unfolding(crate::specs::Decoding::or_node))]
fn or_node(alloc: Global, levels: usize, room: Room, bytes: &[u8]) -> Node<'_, Target>
    ensures { spec.GivesNode result (spec.or_node (spec.tree_at levels) room bytes.now) }
{
    let (left, room, rest) = part_at(alloc, levels, room, bytes)?;
    let (right, room, rest) = part_at(alloc, levels, room, rest)?;
    Ok((Target::Or(left, right), room, rest))
}

// What stands after the tag of a node whose parts may have so many levels.
#[cycle(trees)]
#[tactic(auto, unfolding(crate::specs::Decoding::node_after))]
fn node_after(alloc: Global, levels: usize, tag: u8, room: Room, bytes: &[u8]) -> Node<'_, Target>
    ensures { spec.GivesNode result (spec.node_after (spec.tree_at levels) tag room bytes.now) }
{
    match tag {
        0x03 => list_node(alloc, room, bytes),
        0x08 => not_node(alloc, levels, room, bytes),
        0x09 => and_node(alloc, levels, room, bytes),
        0x0a => or_node(alloc, levels, room, bytes),
        _ => text_node(alloc, tag, room, bytes),
    }
}

// A whole tree.
#[tactic(auto, unfolding(crate::specs::Decoding::tree_field))]
pub fn tree_at(alloc: Global, bytes: &[u8]) -> Parsed<'_, Boxed<Target>>
    ensures { spec.GivesField result (spec.tree_field bytes.now) }
{
    let (tree, _, rest) = part_at(alloc, MOST_NODES, Room::whole(bytes), bytes)?;
    Ok((tree, rest))
}
