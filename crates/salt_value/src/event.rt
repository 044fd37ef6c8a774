//! What minions and masters tell of themselves.
ghost use Rattle.std.specs.Prelude.{◌≡◌, IfOk};

use crate::value::Value;
use crate::word::Word;
use std::alloc::{AllocError, Global};

/// An event: its tag and its data. Both have the limits of their types, which are this project's own.
#[derive(Drop)]
pub struct Event {
    pub tag: Word,
    pub body: Value,
}

impl Event {
    /// An equal event in memory of its own.
    pub fn copy(&self, alloc: Global) -> Result<Event, AllocError>
        ensures { IfOk result (λ copy. copy ≡ self.now) }
    {
        Ok(Event {
            tag: self.tag.copy()?,
            body: self.body.copy(alloc)?,
        })
    }
}
