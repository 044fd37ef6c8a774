//! A store of jobs, and the calls on it.
ghost use Rattle.std.specs.Prelude.{◌≡◌, ◌==◌, ◌↔◌, ◌<◌, ◌≤◌, ◌^◌, ◌∷◌, [], ◌++◌, IsTrue, IsFalse, None, Err, length, position, slice_get, bytes_eq, OnOk, OnErr};
ghost use Rattle.std.specs.Option.{option_copied};
ghost use Rattle.indexmap.specs.IndexMap.{get, IsUnique};
ghost use Rattle.minion_core.specs.Flat as flat;
ghost use Rattle.job_store.specs.Store.{ReturnOnce, stored_jobs, stored_outcome, has_outcome, is_later_in, with_job, with_return};
ghost use Rattle.job_store.specs.Tables.{AreStored, HasEmptyMore, HasJobMore, KeepsStore};
ghost use Rattle.job_store.specs.declared.faults.AddFault.TheVariants.{NotLater};
ghost use Rattle.job_store.specs.declared.faults.PutFault.TheVariants.{NoJob, Twice};

use crate::{AddFault, PutFault};
use indexmap::IndexMap;
use salt_value::{Jid, MinionId, Outcome, Row};
use salt_wire::Job;
use std::alloc::{AllocError, Global};
use std::marker::Model;

/// The jobs of a master in order, and for each what the minions returned of it. Jobs are numbered from 0, and their jids rise.
#[derive(Drop)]
pub struct JobStore {
    alloc: Global,
    jobs: Vec<Job>,
    returns: Vec<IndexMap<MinionId, Outcome>>,
}

impl Model for JobStore {
    ghost use Rattle.std.specs.Prelude.{List};
    ghost use Rattle.std.specs.Coded.{codes};
    ghost use Rattle.salt_value.specs.contracts.value.Value as value;
    ghost use Rattle.target_tree.specs.contracts.target.Target as target;
    ghost use Rattle.job_store.specs.Store.{StoredJob};

    ghost Value = { List StoredJob };

    ghost coded = { Prim.hlevel (codes, value.the_row.coded, target.the_row.coded) };

    ghost use Rattle.job_store.specs.Tables.{AreStored, store_of};

    ghost view = { λ s. store_of s.jobs.items s.returns.items };

    ghost invariant = { λ s. AreStored s.jobs.items s.returns.items };
}

impl JobStore {
    /// A store without a job. It takes no memory.
    pub fn new(alloc: Global) -> JobStore
        ensures value { result ≡ [] }
    {
        JobStore {
            alloc,
            jobs: Vec::new(alloc),
            returns: Vec::new(alloc),
        }
    }

    /// Adds a job after the others, without a return. `NotLater` comes exactly where its jid is not later than that of the last job.
    /// After an error the store is as before.
    pub fn add(&mut self, job: Job) -> Result<(), AddFault>
        requires room { length self.old < 4_294_967_295 }
        ensures ok { OnOk result (self.new ≡ with_job job self.old) }
        ensures err { OnErr result (self.new ≡ self.old) }
        ensures not_later { (result ≡ Err NotLater) ↔ IsFalse (is_later_in self.old job) }
    {
        add_job(self.alloc, &mut self.jobs, &mut self.returns, job)
    }

    /// Puts a minion's return of the job with this number after those that came before. `NoJob` comes exactly where there is no job with
    /// this number, and `Twice` exactly where there is one and the minion has returned it. After an error the store is as before.
    pub fn put(&mut self, seq: u32, row: Row) -> Result<(), PutFault>
        ensures ok { OnOk result (self.new ≡ with_return seq row self.old) }
        ensures err { OnErr result (self.new ≡ self.old) }
        ensures no_job { (result ≡ Err NoJob) ↔ (length self.old ≤ seq) }
        ensures twice { (result ≡ Err Twice) ↔ IsTrue (has_outcome self.old seq row.id) }
    {
        if self.count() <= seq {
            return Err(PutFault::NoJob);
        }
        if self.outcome(seq, &row.id).is_some() {
            return Err(PutFault::Twice);
        }
        match push_return(&mut self.returns[seq as usize], row) {
            Ok(()) => Ok(()),
            Err(_) => Err(PutFault::NoMemory),
        }
    }

    /// The jobs in order. Their jids rise, and no minion has returned one twice.
    pub fn jobs(&self) -> &[Job]
        ensures value { result.now ≡ stored_jobs self.now }
        ensures rising { IsTrue (flat.is_rising (stored_jobs self.now)) }
        ensures once { ReturnOnce self.now }
    {
        self.jobs.as_slice()
    }

    /// The number of jobs.
    pub fn count(&self) -> u32
        ensures value { result ≡ length self.now }
    {
        self.jobs.len() as u32
    }

    /// The job with this number, from 0 on.
    pub fn job(&self, seq: u32) -> Option<&Job>
        ensures value { option_copied result ≡ slice_get (stored_jobs self.now) seq }
    {
        self.jobs.get(seq as usize)
    }

    /// What a minion returned of the job with this number.
    pub fn outcome(&self, seq: u32, id: &MinionId) -> Option<&Outcome>
        ensures value { option_copied result ≡ stored_outcome self.now seq id.now }
    {
        match self.returns.get(seq as usize) {
            Some(table) => table.get(id),
            None => None,
        }
    }

    /// The number of the job with this jid, from 0 on.
    pub fn number_of(&self, jid: Jid) -> Option<u32>
        ensures value { result ≡ position (λ job. job.jid == jid) (stored_jobs self.now) }
    {
        number_of(self.jobs.as_slice(), jid)
    }
}

// Is a job later than the last of these?
fn is_later(jobs: &[Job], job: &Job) -> bool
    ensures value { result ≡ flat.is_later jobs.now job.now }
{
    match jobs.last() {
        Some(last) => last.jid < job.jid,
        None => true,
    }
}

// The number of the job with this jid.
fn number_of(jobs: &[Job], jid: Jid) -> Option<u32>
    requires rising { IsTrue (flat.is_rising jobs.now) }
    requires few { length jobs.now < 2 ^ 32 }
    ensures value { result ≡ position (λ job. job.jid == jid) jobs.now }
{
    match jobs.binary_search_by_key(&jid, |job| job.jid) {
        Ok(at) => Some(at as u32),
        Err(_) => None,
    }
}

// A job and an empty table more, or neither.
fn push_both(
    alloc: Global,
    jobs: &mut Vec<Job>,
    tables: &mut Vec<IndexMap<MinionId, Outcome>>,
    job: Job,
) -> Result<(), AllocError>
    ensures jobs { OnOk result (jobs.new.items ≡ jobs.old.items ++ job ∷ []) }
    ensures tables { OnOk result (HasEmptyMore tables.old.items tables.new.items) }
    ensures err_jobs { OnErr result (jobs.new.items ≡ jobs.old.items) }
    ensures err_tables { OnErr result (tables.new.items ≡ tables.old.items) }
{
    let count = tables.len();
    tables.push(IndexMap::new(alloc))?;
    match jobs.push(job) {
        Ok(_) => Ok(()),
        Err(_) => {
            tables.truncate(count);
            Err(AllocError)
        }
    }
}

// A job and an empty table more, where it is later than the last one.
fn add_job(
    alloc: Global,
    jobs: &mut Vec<Job>,
    tables: &mut Vec<IndexMap<MinionId, Outcome>>,
    job: Job,
) -> Result<(), AddFault>
    requires stored { AreStored jobs.old.items tables.old.items }
    requires room { length jobs.old.items < 4_294_967_295 }
    ensures ok { OnOk result (HasJobMore job jobs.old tables.old jobs.new tables.new) }
    ensures err { OnErr result (KeepsStore jobs.old tables.old jobs.new tables.new) }
    ensures not_later { (result ≡ Err NotLater) ↔ IsFalse (flat.is_later jobs.old.items job) }
    ensures stored { AreStored jobs.new.items tables.new.items }
{
    if !is_later(jobs.as_slice(), &job) {
        return Err(AddFault::NotLater);
    }
    match push_both(alloc, jobs, tables, job) {
        Ok(()) => Ok(()),
        Err(_) => Err(AddFault::NoMemory),
    }
}

// A return of a minion that has none yet.
fn push_return(table: &mut IndexMap<MinionId, Outcome>, row: Row) -> Result<(), AllocError>
    requires absent { get bytes_eq table.old row.id ≡ None }
    ensures ok { OnOk result (table.new.entries ≡ table.old.entries ++ (row.id, row.outcome) ∷ []) }
    ensures err { OnErr result (table.new.entries ≡ table.old.entries) }
    ensures unique { IsUnique bytes_eq table.new }
{
    match table.insert(row.id, row.outcome) {
        Ok(_) => Ok(()),
        Err(_) => Err(AllocError),
    }
}
