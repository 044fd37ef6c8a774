//! What has been read of a script.
ghost use Rattle.std.specs.Prelude.{◌≡◌, ◌++◌, codes, IsTrue, ◌↔◌, ◌<◌, length, drop, IfOk};
ghost use Rattle.salt_value.specs.Reading.{Decodes};
ghost use Rattle.script_text.specs.Script.{IsName, id_line, top_lines};

use crate::lines::strip_front;
use crate::names::read_id_line;
use crate::script::Script;
use crate::turns::read_turn;
use fleet_config::MOST_MINIONS;
use fleet_turns::Turn;
use indexmap::IndexSet;
use salt_value::MinionId;
use sqlite_items::Items;
use std::alloc::{AllocError, Global};

/// What the next line may be.
#[derive(Clone, Copy)]
pub enum Stage {
    /// The id of a minion, or `%schedule`.
    Minion,
    /// The role of the minion that was begun last.
    Role,
    /// Its parent.
    Parent,
    /// A turn, or `%end`.
    Turn,
    /// Nothing.
    End,
}

/// A script up to some line.
#[derive(Drop)]
pub struct Draft {
    pub top: MinionId,
    /// That of the top, and then those of the minions whose three lines were read.
    pub ids: IndexSet<MinionId>,
    /// The id of the last `- id:` line.
    pub last: MinionId,
    pub turns: Items<Turn>,
    pub stage: Stage,
}

impl Draft {
    ghost use Rattle.script_text.specs.Draft.{IsDraft, draft_lines, MayFollow, IsLineTaken, IsScriptOf};

    /// The lines of the top alone.
    pub fn new(alloc: Global, top: MinionId) -> Result<Draft, AllocError>
        requires { IsName top }
        ensures { IfOk result (λ d. IsDraft d × (draft_lines d ≡ top_lines top)) }
    {
        let mut ids = IndexSet::new(alloc);
        ids.insert(top)?;
        Ok(Draft {
            top,
            ids,
            last: top,
            turns: Items::new(alloc),
            stage: Stage::Minion,
        })
    }

    /// Takes the next line. Whether the form of a script has it there.
    pub fn take(&mut self, alloc: Global, line: &[u8]) -> Result<bool, AllocError>
        requires { IsDraft self.old }
        ensures { IfOk result (IsLineTaken self.old line.now self.new) }
    {
        match self.stage {
            Stage::Minion => Ok(self.take_minion(line)),
            Stage::Role => Ok(self.take_role(line)),
            Stage::Parent => self.take_parent(line),
            Stage::Turn => self.take_turn(alloc, line),
            Stage::End => Ok(false),
        }
    }

    // The id of one more minion.
    fn next_id(&self, line: &[u8]) -> Option<MinionId>
        requires { IsDraft self.now }
        ensures { Decodes (MayFollow self.now) id_line line.now result }
    {
        let Some(id) = read_id_line(line) else {
            return None;
        };
        if self.ids.len() > MOST_MINIONS as usize {
            return None;
        }
        if self.ids.contains(&id) {
            return None;
        }
        Some(id)
    }

    fn take_minion(&mut self, line: &[u8]) -> bool
        requires draft { IsDraft self.old }
        requires stage { self.old.stage ≡ Stage.Minion }
        ensures { IsLineTaken self.old line.now self.new result }
    {
        if line == b"%schedule".as_slice() {
            self.stage = Stage::Turn;
            return true;
        }
        match self.next_id(line) {
            Some(id) => {
                self.last = id;
                self.stage = Stage::Role;
                true
            }
            None => false,
        }
    }

    fn take_role(&mut self, line: &[u8]) -> bool
        requires draft { IsDraft self.old }
        requires stage { self.old.stage ≡ Stage.Role }
        ensures { IsLineTaken self.old line.now self.new result }
    {
        if line == b"  role: minion".as_slice() {
            self.stage = Stage::Parent;
            true
        } else {
            false
        }
    }

    fn take_parent(&mut self, line: &[u8]) -> Result<bool, AllocError>
        requires draft { IsDraft self.old }
        requires stage { self.old.stage ≡ Stage.Parent }
        ensures { IfOk result (IsLineTaken self.old line.now self.new) }
    {
        if is_parent_line(line, self.top.as_bytes()) {
            self.ids.insert(self.last)?;
            self.stage = Stage::Minion;
            Ok(true)
        } else {
            Ok(false)
        }
    }

    fn take_turn(&mut self, alloc: Global, line: &[u8]) -> Result<bool, AllocError>
        requires draft { IsDraft self.old }
        requires stage { self.old.stage ≡ Stage.Turn }
        ensures { IfOk result (IsLineTaken self.old line.now self.new) }
    {
        if line == b"%end".as_slice() {
            self.stage = Stage::End;
            return Ok(true);
        }
        match read_turn(alloc, &self.ids, line)? {
            Some(turn) => {
                self.turns.push(turn)?;
                Ok(true)
            }
            None => Ok(false),
        }
    }

    /// The script, if it is whole.
    pub fn finish(self, alloc: Global) -> Result<Option<Script>, AllocError>
        requires { IsDraft self }
        ensures { IfOk result (IsScriptOf (draft_lines self)) }
    {
        match self.stage {
            Stage::End => {
                let minions = copied(alloc, &self.ids)?;
                Ok(Some(Script {
                    top: self.top,
                    minions,
                    turns: self.turns,
                }))
            }
            _ => Ok(None),
        }
    }
}

// The ids after the first.
fn copied(alloc: Global, ids: &IndexSet<MinionId>) -> Result<Items<MinionId>, AllocError>
    requires { 0 < length ids.now.keys }
    ensures { IfOk result (λ copies. copies ≡ drop 1 ids.now.keys) }
{
    Items::from_slice(alloc, &ids.as_slice()[1..])
}

// Whether the line names the top as the parent.
fn is_parent_line(line: &[u8], top: &[u8]) -> bool
    ensures { IsTrue result ↔ (line.now ≡ codes "  parent: " ++ top.now) }
{
    match strip_front(line, b"  parent: ") {
        Some(name) => name == top,
        None => false,
    }
}
