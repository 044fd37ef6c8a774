//! The state of a minion.
ghost use Rattle.std.specs.Prelude.{◌≡◌, ◌<◌, ◌+◌, ◌^◌, ◌++◌, [], List, All, IfOk, OnOk, OnErr};
ghost use Rattle.salt_wire.specs.Limits.{JobFits, EntryFits};
ghost use Rattle.salt_wire.specs.declared.message.Entry.{Entry as Told};
ghost use Rattle.salt_wire.specs.declared.deed.Deed.TheVariants.{Boot};
ghost use Rattle.minion_core.specs.Flat as flat;
ghost use Rattle.exec_functions.specs.Limits.{AreWithin};

use crate::RunFault;
use crate::running::job_record;
use exec_functions::Holdings;
use salt_value::{Fields, MinionId};
use salt_wire::{Changed, Deed, Entry, Job};
use std::alloc::{AllocError, Global};
use std::marker::Model;

/// What a minion has in memory: how often it started, how many jobs it has, what it holds, and its log.
#[derive(Drop)]
pub struct MinionCore {
    alloc: Global,
    boots: u32,
    jobs: u32,
    held: Holdings,
    log: Vec<Entry>,
}

impl Model for MinionCore {
    ghost use Rattle.minion_core.specs.Core.{CoreState};
    ghost use Rattle.minion_core.specs.Limits.{StateFits};
    ghost use Rattle.salt_value.specs.contracts.value.Value as value;
    ghost use Rattle.std.specs.Coded.{codes};

    ghost Value = { CoreState };

    ghost coded = { Prim.hlevel (codes, value.the_row.coded) };

    ghost view = { λ m. record { boots = m.boots; jobs = m.jobs; held = m.held; log = m.log.items } };

    ghost invariant = { λ m. StateFits (record { boots = m.boots; jobs = m.jobs; held = m.held; log = m.log.items }) };
}

impl MinionCore {
    ghost use Rattle.minion_core.specs.Core.{CoreState, next_record, with_job_run, core_after};
    ghost use Rattle.minion_core.specs.Limits.{DeedFits, StateFits, HasRoom, HasFewEntries, ChangedFits};
    ghost use Rattle.minion_core.specs.Faults.{IsRunFault};

    /// A minion that holds this and has no start, job or entry.
    pub fn new(alloc: Global, held: Holdings) -> MinionCore
        requires { AreWithin held }
        ensures { result ≡ record { boots = 0; jobs = 0; held = held; log = [] } }
    {
        MinionCore {
            alloc,
            boots: 0,
            jobs: 0,
            held,
            log: Vec::new(alloc),
        }
    }

    /// The record of the next job. It is within the limits of messages, and has at most two entries.
    pub fn run(&self, id: &MinionId, job: &Job) -> Result<Deed, RunFault>
        requires { JobFits job.now }
        ensures ok { IfOk result (λ deed. deed ≡ next_record job.now id.now self.now) }
        ensures fits { IfOk result DeedFits }
        ensures few { IfOk result HasFewEntries }
        ensures fault { IsRunFault result job.now.target }
    {
        job_record(self.alloc, self.jobs, job, id, &self.held)
    }

    /// Takes a record in. An error leaves all as it was.
    pub fn apply(&mut self, deed: &Deed) -> Result<(), AllocError>
        requires fits { DeedFits deed.now }
        requires room { HasRoom deed.now self.old }
        ensures ok { OnOk result (self.new ≡ core_after deed.now self.old) }
        ensures err { OnErr result (self.new ≡ self.old) }
    {
        match deed {
            Deed::Boot => self.start(),
            Deed::Done {
                seq: _,
                changed,
                entries,
            } => self.add_done(changed, entries.as_slice()),
            Deed::Publish { .. } => Ok(()),
            Deed::Up { .. } => Ok(()),
            Deed::Fire { .. } => Ok(()),
            Deed::React { .. } => Ok(()),
            Deed::Intake { .. } => Ok(()),
        }
    }

    // A start more.
    fn start(&mut self) -> Result<(), AllocError>
        requires { self.old.boots + 1 < 2 ^ 32 }
        ensures ok { OnOk result (self.new ≡ core_after Boot self.old) }
        ensures err { OnErr result (self.new ≡ self.old) }
    {
        let boot = self.boots + 1;
        self.log.push(Entry::Start { boot })?;
        self.boots = boot;
        Ok(())
    }

    // A job more, with what it changed and with its entries.
    fn add_done(&mut self, changed: &Option<Changed>, entries: &[Entry]) -> Result<(), AllocError>
        requires changed { ChangedFits changed.now }
        requires entries { All EntryFits entries.now }
        requires room { self.old.jobs + 1 < 2 ^ 32 }
        ensures ok { OnOk result (self.new ≡ with_job_run changed.now entries.now self.old) }
        ensures err { OnErr result (self.new ≡ self.old) }
    {
        let new = copy_changed(self.alloc, changed)?;
        push_copies(self.alloc, &mut self.log, entries)?;
        hold(&mut self.held, new);
        self.jobs += 1;
        Ok(())
    }

    /// How often the minion started.
    pub fn boots(&self) -> u32
        ensures value { result ≡ self.now.boots }
    {
        self.boots
    }

    /// How many jobs it has.
    pub fn jobs(&self) -> u32
        ensures value { result ≡ self.now.jobs }
    {
        self.jobs
    }

    /// What it holds, each part within the limits of a value.
    pub fn held(&self) -> &Holdings
        ensures value { result.now ≡ self.now.held }
        ensures fits { AreWithin self.now.held }
    {
        &self.held
    }

    /// Its log, each entry within the limits of messages.
    pub fn log(&self) -> &[Entry]
        ensures value { result.now ≡ self.now.log }
        ensures fits { All EntryFits self.now.log }
    {
        self.log.as_slice()
    }
}

// What is recorded as changed, in memory of its own.
fn copy_changed(alloc: Global, changed: &Option<Changed>) -> Result<Option<Changed>, AllocError>
    ensures { IfOk result (λ copy. copy ≡ changed.now) }
{
    match changed {
        None => Ok(None),
        Some(new) => Ok(Some(Changed {
            grains: new.grains.copy(alloc)?,
            store: new.store.copy(alloc)?,
            mine: new.mine.copy(alloc)?,
        })),
    }
}

// Copies of the entries more, or some of them.
fn push_all(alloc: Global, log: &mut Vec<Entry>, entries: &[Entry]) -> Result<(), AllocError>
    ensures ok { OnOk result (log.new.items ≡ log.old.items ++ entries.now) }
    ensures err { OnErr result ((more : List Told) × (log.new.items ≡ log.old.items ++ more)) }
{
    for entry in entries {
        log.push(entry.copy(alloc)?)?;
    }
    Ok(())
}

// Copies of the entries more, or none of them.
fn push_copies(alloc: Global, log: &mut Vec<Entry>, entries: &[Entry]) -> Result<(), AllocError>
    ensures ok { OnOk result (log.new.items ≡ log.old.items ++ entries.now) }
    ensures err { OnErr result (log.new.items ≡ log.old.items) }
{
    let count = log.len();
    if push_all(alloc, log, entries).is_err() {
        log.truncate(count);
        return Err(AllocError);
    }
    Ok(())
}

// What is held from then on.
fn hold(held: &mut Holdings, changed: Option<Changed>)
    ensures { held.new ≡ flat.held_with changed held.old }
{
    if let Some(new) = changed {
        let Changed {
            grains,
            store,
            mine,
        } = new;
        held.grains = grains;
        held.store = store;
        held.mine = mine;
    }
}
