//! The reading of a whole target.
ghost use Rattle.std.specs.Prelude.{◌≡◌, ◌≢◌, ◌≤◌, length, IfOk};
ghost use Rattle.target_tree.specs.Limits.{most_text_bytes};
ghost use Rattle.target_tree.specs.Machine.{GivesTree, machine_tree};
ghost use Rattle.target_tree.specs.Targets.{IsTarget, IsOnlyTarget, IsReadIfTarget, HaveTrees, ReadsTrees, IsAsRead, reading, sole_word};

use crate::items::id_list_of;
use crate::limits::MOST_TEXT_BYTES;
use crate::reader::Reader;
use crate::run::{checked, one_word, run};
use crate::stack::Stack;
use crate::token::{Token, leaf, pattern, to_text};
use crate::{Groups, Kind, Target, TargetFault};
use std::alloc::{AllocError, Global};

/// A text stands for a tree exactly where its reading has no fault, but for the limits.
pub fn trees_are_read()
    ensures has_tree { HaveTrees reading }
    ensures is_read { ReadsTrees reading }
{}

/// The one word of another kind than compound.
fn sole_token(alloc: Global, kind: Kind, text: &str) -> Result<Token, AllocError>
    ensures { IfOk result (λ t. t ≡ sole_word kind text.now) }
{
    match kind {
        Kind::Glob => leaf(alloc, Target::IdGlob(to_text(alloc, text)?)),
        Kind::Pcre => pattern(alloc, Target::IdPcre(to_text(alloc, text)?)),
        Kind::List => id_list_of(alloc, text),
        Kind::Grain => leaf(alloc, Target::GrainGlob(to_text(alloc, text)?)),
        Kind::GrainPcre => pattern(alloc, Target::GrainPcre(to_text(alloc, text)?)),
        Kind::Pillar => leaf(alloc, Target::PillarGlob(to_text(alloc, text)?)),
        Kind::PillarPcre => pattern(alloc, Target::PillarPcre(to_text(alloc, text)?)),
        Kind::Nodegroup => Ok(Token::Nodegroup(to_text(alloc, text)?)),
        Kind::Compound => Ok(Token::NoLeaf),
    }
}

fn read_compound<'a>(
    alloc: Global,
    text: &'a str,
    groups: &'a Groups,
) -> Result<Target, TargetFault>
    ensures { GivesTree result (machine_tree Kind.Compound groups.entry.now text.entry.now) }
{
    let rest = checked(text)?;
    run(
        alloc,
        groups,
        Stack::new(alloc),
        Reader::begin(alloc, 0, 0, 0),
        rest,
    )
}

fn read_sole<'a>(
    alloc: Global,
    kind: Kind,
    text: &'a str,
    groups: &'a Groups,
) -> Result<Target, TargetFault>
    requires { kind ≢ Kind.Compound }
    ensures { GivesTree result (machine_tree kind groups.entry.now text.entry.now) }
{
    if text.is_empty() {
        return Err(TargetFault::Empty);
    }
    if text.len() > MOST_TEXT_BYTES {
        return Err(TargetFault::TooLong);
    }
    let word = sole_token(alloc, kind, text)?;
    let mut outers = Stack::new(alloc);
    let begun = Reader::begin(alloc, 0, 0, 0);
    let (next, rest) = one_word(alloc, groups, &mut outers, begun, word, "")?;
    run(alloc, groups, outers, next, rest)
}

fn read<'a>(
    alloc: Global,
    kind: Kind,
    text: &'a str,
    groups: &'a Groups,
) -> Result<Target, TargetFault>
    ensures { GivesTree result (machine_tree kind groups.entry.now text.entry.now) }
{
    match kind {
        Kind::Compound => read_compound(alloc, text, groups),
        kind => read_sole(alloc, kind, text, groups),
    }
}

/// Reads a target of at most 4,096 bytes. A fault is the first one of a reading from left to right, in which a nodegroup's words are read
/// where its word stands. The language is that of the Salt documentation, Targeting Minions; its precedence, its limits and
/// its faults with their places are this project's own.
pub fn read_target(
    alloc: Global,
    kind: Kind,
    text: &str,
    groups: &Groups,
) -> Result<Target, TargetFault>
    // What is read stands for this tree, and for no other.
    ensures ok { IfOk result (IsTarget kind groups.now text.now) }
    // Each fault comes exactly where the reading has it.
    ensures fault { IsAsRead result (reading kind groups.now text.now) }
    // Every text that stands for a tree is read, but for the limits and memory.
    ensures complete { IsReadIfTarget kind groups.now text.now result }
    ensures unique { IfOk result (IsOnlyTarget kind groups.now text.now) }
    // No text that is read is longer than the limit.
    ensures short { IfOk result (λ _. length text.now ≤ most_text_bytes) }
    // The tree, as one function of the text.
    ensures exact { GivesTree result (machine_tree kind groups.now text.now) }
{
    read(alloc, kind, text, groups)
}
