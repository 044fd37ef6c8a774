//! What a job gave.
ghost use Rattle.std.specs.Prelude.{◌≡◌, IfOk};

use crate::id::MinionId;
use crate::value::Value;
use std::alloc::{AllocError, Global};

/// What a job gave on one minion: 0 where its function succeeded, and what the function answered.
#[derive(Drop)]
pub struct Outcome {
    pub retcode: u8,
    pub value: Value,
}

impl Outcome {
    /// An equal outcome in memory of its own.
    pub fn copy(&self, alloc: Global) -> Result<Outcome, AllocError>
        ensures { IfOk result (λ copy. copy ≡ self.now) }
    {
        Ok(Outcome {
            retcode: self.retcode,
            value: self.value.copy(alloc)?,
        })
    }
}

/// One minion's outcome.
#[derive(Drop)]
pub struct Row {
    pub id: MinionId,
    pub outcome: Outcome,
}

/// A list of rows, which contracts see as that list.
pub type Rows = sqlite_items::Items<Row>;
