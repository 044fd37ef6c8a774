//! The reader of a script.
ghost use Rattle.std.specs.Prelude.{◌≡◌, ◌≤◌, ℕ, length, IfOk, IsErrOf};
ghost use Rattle.script_text.specs.Script.{Spells, most_script_bytes};
ghost use Rattle.script_text.specs.Refusals.{IsRefusedAt};

use crate::draft::Draft;
use crate::lines::cut_line;
use crate::top::read_top;
use fleet_turns::Turn;
use salt_value::MinionId;
use sqlite_items::Items;
use std::alloc::{AllocError, Global};
use thiserror::Error;

/// The greatest number of bytes of a text that is read.
pub const MOST_SCRIPT_BYTES: usize = 16_777_216;

/// A fleet of one top and its minions, and the turns of a schedule.
#[derive(Drop)]
pub struct Script {
    pub top: MinionId,
    /// At most 4,096, with distinct ids.
    pub minions: Items<MinionId>,
    pub turns: Items<Turn>,
}

/// Why a text is no script.
#[derive(Clone, Copy, Debug, Error, PartialEq, Eq)]
pub enum ScriptFault {
    #[error("no memory was found")]
    NoMemory,
    /// `line` counts from 1. It is the first line with which no text of this form goes on, or the number after
    /// the last line where the text ends too early.
    #[error("the script is in no form that is built yet, from line {line} on")]
    NotYet { line: u32 },
}

impl From<AllocError> for ScriptFault {
    ghost use Rattle.script_text.specs.declared.script.ScriptFault.TheVariants.{NoMemory};

    ghost from_gives = { λ _ e. e ≡ NoMemory };

    fn from(_: AllocError) -> ScriptFault {
        ScriptFault::NoMemory
    }
}

/// Reads the script that a text of at most 16,777,216 bytes spells. It is the only one that the text spells. A text that is refused
/// spells none.
pub fn read_script(alloc: Global, text: &[u8]) -> Result<Script, ScriptFault>
    requires { length text.now ≤ most_script_bytes }
    ensures ok { IfOk result (λ s. Spells s text.now) }
    ensures unique { IfOk result (λ s. (other : Script) → Spells other text.now → other ≡ s) }
    ensures not_yet { (n : ℕ) → IsErrOf result (ScriptFault.NotYet n) → IsRefusedAt n text.now }
{
    let (top, mut rest) = match read_top(text) {
        Ok(read) => read,
        Err(line) => return Err(ScriptFault::NotYet { line }),
    };
    let mut draft = Draft::new(alloc, top)?;
    let mut number: u32 = 5;
    while let Some((line, more)) = cut_line(rest) {
        if !draft.take(alloc, line)? {
            return Err(ScriptFault::NotYet { line: number });
        }
        number += 1;
        rest = more;
    }
    match draft.finish(alloc)? {
        Some(script) => Ok(script),
        None => Err(ScriptFault::NotYet { line: number }),
    }
}
