//! What a master keeps, and the calls on it.
ghost use Rattle.std.specs.Prelude.{◌≡◌, ◌<◌, ◌+◌, ◌^◌, length, bytes_eq, All, IfOk, IfSome, OnOk, OnErr};
ghost use Rattle.std.specs.List.{IsDistinct};
ghost use Rattle.salt_wire.specs.Limits.{EntryFits};
ghost use Rattle.salt_wire.specs.declared.message.Entry.TheVariants.{Return};
ghost use Rattle.job_store.specs.Store.{with_job, with_return};
ghost use Rattle.up_logs.specs.UpLogs.{log_at, with_entry};
ghost use Rattle.master_core.specs.Master.{place_in, log_of_id, new_master, master_after, store_after, IsRightFor, IsNewEntry, IsNewReturn, IsNextJob};
ghost use Rattle.master_core.specs.Index.{IsIndexOf};

use indexmap::IndexMap;
use job_store::{AddFault, JobStore, PutFault};
use salt_value::{Ids, MinionId, Row};
use salt_wire::{Deed, Entry, Job};
use std::alloc::{AllocError, Global};
use std::marker::Model;
use up_logs::UpLogs;

/// What a master, the top or a syndic, keeps of its records: its jobs with what the minions returned of each, and the log of each minion
/// below it. Minions have distinct ids and are placed from 0 on, in list order.
#[derive(Drop)]
pub struct MasterCore {
    alloc: Global,
    ids: Ids,
    places: IndexMap<MinionId, u32>,
    store: JobStore,
    ups: UpLogs,
}

impl Model for MasterCore {
    ghost use Rattle.std.specs.Coded.{codes};
    ghost use Rattle.salt_value.specs.contracts.value.Value as value;
    ghost use Rattle.target_tree.specs.contracts.target.Target as target;
    ghost use Rattle.master_core.specs.Master.{MasterState};

    ghost Value = { MasterState };

    ghost coded = { Prim.hlevel (codes, value.the_row.coded, target.the_row.coded) };

    ghost use Rattle.master_core.specs.Index.{AreIndexedLogs};

    ghost view = { λ m. record { ids = m.ids; store = m.store; logs = m.ups } };

    ghost invariant = { λ m. AreIndexedLogs m.ids m.places m.ups };
}

impl MasterCore {
    /// A master of these minions, no id twice, fewer than 4,294,967,296: without a job, and each log without an entry.
    pub fn new(alloc: Global, minions: Ids) -> Result<MasterCore, AllocError>
        requires distinct { IsDistinct bytes_eq minions }
        requires few { length minions < 2 ^ 32 }
        ensures ok { IfOk result (λ core. core ≡ new_master minions) }
    {
        let places = index(alloc, minions.as_slice())?;
        let ups = UpLogs::new(alloc, minions.len() as u32)?;
        Ok(MasterCore {
            alloc,
            ids: minions,
            places,
            store: JobStore::new(alloc),
            ups,
        })
    }

    /// Takes a record in. A published job, or one that was taken in, is later than the last one, and there are fewer than 4,294,967,295
    /// jobs. An entry is one of a minion below and within the limits of messages, that minion's log has fewer than 4,294,967,295 entries,
    /// and a return names a job that is there and that the minion has not returned. Other records leave all as it is. After an error all
    /// is as before.
    pub fn apply(&mut self, deed: Deed) -> Result<(), AllocError>
        requires right { IsRightFor deed self.old }
        ensures ok { OnOk result (self.new ≡ master_after deed self.old) }
        ensures err { OnErr result (self.new ≡ self.old) }
    {
        match deed {
            Deed::Publish { job } | Deed::Intake { job } => add_job(&mut self.store, job),
            Deed::Up { minion, entry } => match self.place(&minion) {
                Some(at) => take_entry(
                    self.alloc,
                    &mut self.store,
                    &mut self.ups,
                    at,
                    minion,
                    entry,
                ),
                None => unreachable!(),
            },
            Deed::Fire { .. } | Deed::React { .. } | Deed::Boot | Deed::Done { .. } => Ok(()),
        }
    }

    /// The jobs, and what the minions returned of each.
    pub fn jobs(&self) -> &JobStore
        ensures value { result.now ≡ self.now.store }
    {
        &self.store
    }

    /// The logs of the minions below, in the order of their places.
    pub fn ups(&self) -> &UpLogs
        ensures value { result.now ≡ self.now.logs }
        ensures paired { length self.now.logs ≡ length self.now.ids }
    {
        &self.ups
    }

    /// The place of the minion with this id, from 0 on, if it is below.
    pub fn place(&self, id: &MinionId) -> Option<u32>
        ensures value { result ≡ place_in self.now.ids id.now }
        ensures within { IfSome result (λ place. place < length self.now.logs) }
    {
        match self.places.get(id) {
            Some(place) => Some(*place),
            None => None,
        }
    }

    /// The log of the minion with this id, each entry within the limits of messages; without an entry where that minion isn't below.
    pub fn log(&self, id: &MinionId) -> &[Entry]
        ensures value { result.now ≡ log_of_id id.now self.now }
        ensures fits { All EntryFits (log_of_id id.now self.now) }
    {
        match self.place(id) {
            Some(place) => self.ups.entries(place),
            None => &[],
        }
    }
}

// The place of each id.
fn index(alloc: Global, ids: &[MinionId]) -> Result<IndexMap<MinionId, u32>, AllocError>
    requires few { length ids.now < 2 ^ 32 }
    requires distinct { IsDistinct bytes_eq ids.now }
    ensures ok { IfOk result (λ places. IsIndexOf ids.now places) }
{
    let mut places = IndexMap::new(alloc);
    for (i, id) in ids.iter().enumerate() {
        match places.insert(*id, i as u32) {
            Ok(_) => {}
            Err(_) => return Err(AllocError),
        }
    }
    Ok(places)
}

// A job more, the next one.
fn add_job(store: &mut JobStore, job: Job) -> Result<(), AllocError>
    requires next { IsNextJob job store.old }
    ensures ok { OnOk result (store.new ≡ with_job job store.old) }
    ensures err { OnErr result (store.new ≡ store.old) }
{
    match store.add(job) {
        Ok(()) => Ok(()),
        Err(AddFault::NoMemory) => Err(AllocError),
        Err(AddFault::NotLater) => unreachable!(),
    }
}

// A return more, a new one.
fn put_row(store: &mut JobStore, seq: u32, row: Row) -> Result<(), AllocError>
    requires new { IsNewReturn row.id seq store.old }
    ensures ok { OnOk result (store.new ≡ with_return seq row store.old) }
    ensures err { OnErr result (store.new ≡ store.old) }
{
    match store.put(seq, row) {
        Ok(()) => Ok(()),
        Err(PutFault::NoMemory) => Err(AllocError),
        Err(PutFault::NoJob) => unreachable!(),
        Err(PutFault::Twice) => unreachable!(),
    }
}

// A return in its minion's log and put to its job, or neither.
fn take_return(
    alloc: Global,
    store: &mut JobStore,
    ups: &mut UpLogs,
    place: u32,
    seq: u32,
    row: Row,
) -> Result<(), AllocError>
    requires place { place < length ups.old }
    requires room { length (log_at ups.old place) + 1 < 2 ^ 32 }
    requires fits { EntryFits (Return seq row.outcome) }
    requires new { IsNewReturn row.id seq store.old }
    ensures store { OnOk result (store.new ≡ with_return seq row store.old) }
    ensures logs { OnOk result (ups.new ≡ with_entry place (Return seq row.outcome) ups.old) }
    ensures err_store { OnErr result (store.new ≡ store.old) }
    ensures err_logs { OnErr result (ups.new ≡ ups.old) }
{
    let outcome = row.outcome.copy(alloc)?;
    ups.push(place, Entry::Return { seq, outcome })?;
    match put_row(store, seq, row) {
        Ok(()) => Ok(()),
        Err(fault) => {
            ups.pop(place);
            Err(fault)
        }
    }
}

// An entry in its minion's log, and where it is a return put to its job, or neither.
fn take_entry(
    alloc: Global,
    store: &mut JobStore,
    ups: &mut UpLogs,
    place: u32,
    id: MinionId,
    entry: Entry,
) -> Result<(), AllocError>
    requires place { place < length ups.old }
    requires room { length (log_at ups.old place) + 1 < 2 ^ 32 }
    requires fits { EntryFits entry }
    requires new { IsNewEntry id entry store.old }
    ensures store { OnOk result (store.new ≡ store_after id entry store.old) }
    ensures logs { OnOk result (ups.new ≡ with_entry place entry ups.old) }
    ensures err_store { OnErr result (store.new ≡ store.old) }
    ensures err_logs { OnErr result (ups.new ≡ ups.old) }
{
    match entry {
        Entry::Return { seq, outcome } => take_return(
            alloc,
            store,
            ups,
            place,
            seq,
            Row { id, outcome },
        ),
        Entry::Fired { event } => ups.push(place, Entry::Fired { event }),
        Entry::Start { boot } => ups.push(place, Entry::Start { boot }),
        Entry::Mine {
            seq,
            mine,
            grains,
            pillar,
        } => ups.push(
            place,
            Entry::Mine {
                seq,
                mine,
                grains,
                pillar,
            },
        ),
    }
}
