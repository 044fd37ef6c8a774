//! Copies of jobs and entries.
ghost use Rattle.std.specs.Prelude.{◌≡◌, IfOk};
ghost use Rattle.salt_wire.specs.declared.message.Entry.TheVariants.{Return, Fired, Mine};

use crate::message::{Entry, Job};
use salt_value::{Event, Fields, Outcome, copy_items};
use sqlite_items::Boxed;
use std::alloc::{AllocError, Global};

impl Job {
    /// An equal job in memory of its own.
    pub fn copy(&self, alloc: Global) -> Result<Job, AllocError>
        ensures { IfOk result (λ copy. copy ≡ self.now) }
    {
        Ok(Job {
            jid: self.jid,
            kind: self.kind,
            tgt: self.tgt.copy()?,
            target: Boxed::new(alloc, self.target.get().copy(alloc)?)?,
            fun: self.fun.copy()?,
            args: copy_items(alloc, self.args.as_slice())?,
        })
    }
}

fn copy_return(alloc: Global, seq: u32, outcome: &Outcome) -> Result<Entry, AllocError>
    ensures { IfOk result (λ copy. copy ≡ Return seq outcome.now) }
{
    Ok(Entry::Return {
        seq,
        outcome: outcome.copy(alloc)?,
    })
}

fn copy_fired(alloc: Global, event: &Event) -> Result<Entry, AllocError>
    ensures { IfOk result (λ copy. copy ≡ Fired event.now) }
{
    Ok(Entry::Fired {
        event: event.copy(alloc)?,
    })
}

fn copy_mine(
    alloc: Global,
    seq: u32,
    mine: &Fields,
    grains: &Fields,
    pillar: &Fields,
) -> Result<Entry, AllocError>
    ensures { IfOk result (λ copy. copy ≡ Mine seq mine.now grains.now pillar.now) }
{
    Ok(Entry::Mine {
        seq,
        mine: mine.copy(alloc)?,
        grains: grains.copy(alloc)?,
        pillar: pillar.copy(alloc)?,
    })
}

impl Entry {
    /// An equal entry in memory of its own.
    pub fn copy(&self, alloc: Global) -> Result<Entry, AllocError>
        ensures { IfOk result (λ copy. copy ≡ self.now) }
    {
        match self {
            Entry::Return { seq, outcome } => copy_return(alloc, *seq, outcome),
            Entry::Fired { event } => copy_fired(alloc, event),
            Entry::Start { boot } => Ok(Entry::Start { boot: *boot }),
            Entry::Mine {
                seq,
                mine,
                grains,
                pillar,
            } => copy_mine(alloc, *seq, mine, grains, pillar),
        }
    }
}
