//! Records that a master takes in, and what it keeps of them.
ghost use Rattle.std.specs.Prelude.{◌≡◌, ◌<◌, ◌+◌, ◌^◌, length, is_some, IsTrue, IsFalse};
ghost use Rattle.job_store.specs.Store.{is_later_in, has_outcome};
ghost use Rattle.master_core.specs.Master.{place_in, log_of_id};

use crate::made::{FAILED, id, job, row};
use job_store::JobStore;
use master_core::MasterCore;
use salt_value::{Ids, MinionId, Row};
use salt_wire::{Deed, Entry, Job};
use std::alloc::{AllocError, Global};
use std::process::Abort;

// The moments of the jobs that are published, and then of those that are taken in.
static PUBLISHED: [u64; 2] = [10, 20];

static TAKEN: [u64; 1] = [30];

// Returns of jobs by minions with their retcodes.
static RETURNED: [(u32, &str, u8); 3] = [(1, "m2", 5), (0, "m2", 6), (1, "m1", 7)];

// The retcode of a job on a minion then.
static OUTCOMES: [(u32, &str, Option<u8>); 6] = [
    (0, "m1", None),
    (0, "m2", Some(6)),
    (1, "m1", Some(7)),
    (1, "m2", Some(5)),
    (2, "m2", None),
    (3, "m2", None),
];

// A minion, its place, and how many entries its log has then, a start of the minion m1 before its return.
static LOGS: [(&str, Option<u32>, usize); 3] = [
    ("m1", Some(1), 2),
    ("m2", Some(0), 2),
    ("m3", None, 0),
];

// The starts that the first entries of the logs tell, 0 where there is none.
static STARTS: [(&str, u32); 3] = [("m1", 9), ("m2", 0), ("m3", 0)];

// A master of the minions m2 and m1.
fn master(alloc: Global) -> Result<MasterCore, AllocError> {
    let Ok(m2) = MinionId::read("m2") else {
        return Err(AllocError);
    };
    let Ok(m1) = MinionId::read("m1") else {
        return Err(AllocError);
    };
    let mut minions = Ids::new(alloc);
    minions.push(m2)?;
    minions.push(m1)?;
    MasterCore::new(alloc, minions)
}

// Is a job later than the last one of a store?
fn is_later(store: &JobStore, job: &Job) -> bool
    ensures value { result ≡ is_later_in store.now job.now }
{
    match store.jobs().last() {
        Some(last) => last.jid < job.jid,
        None => true,
    }
}

// Is the minion below, and has its log room?
fn has_room(core: &MasterCore, minion: &MinionId) -> bool
    ensures below { IsTrue result → IsTrue (is_some (place_in core.now.ids minion.now)) }
    ensures room { IsTrue result → length (log_of_id minion.now core.now) + 1 < 2 ^ 32 }
{
    match core.place(minion) {
        Some(_) => core.log(minion).len() < u32::MAX as usize,
        None => false,
    }
}

// Is it a return of a job that is there and that the minion has not returned?
fn is_new(store: &JobStore, seq: u32, minion: &MinionId) -> bool
    ensures held { IsTrue result → seq < length store.now }
    ensures first { IsTrue result → IsFalse (has_outcome store.now seq minion.now) }
{
    if store.count() <= seq {
        return false;
    }
    store.outcome(seq, minion).is_none()
}

// A job that can be added.
fn next_job(rt: &impl Abort, alloc: Global, core: &MasterCore, moment: u64) -> Job
    ensures later { IsTrue (is_later_in core.now.store result) }
    ensures room { length core.now.store < 4_294_967_295 }
{
    let job = job(rt, alloc, moment);
    if core.jobs().count() == u32::MAX {
        panic!(rt; "{FAILED}");
    }
    if !is_later(core.jobs(), &job) {
        panic!(rt; "{FAILED}");
    }
    job
}

fn publish(rt: &impl Abort, alloc: Global, core: &mut MasterCore, moments: &[u64]) {
    for moment in moments {
        let job = next_job(rt, alloc, core, *moment);
        core.apply(Deed::Publish { job }).expect(rt, FAILED);
    }
}

fn take_in(rt: &impl Abort, alloc: Global, core: &mut MasterCore, moments: &[u64]) {
    for moment in moments {
        let job = next_job(rt, alloc, core, *moment);
        core.apply(Deed::Intake { job }).expect(rt, FAILED);
    }
}

fn start(rt: &impl Abort, core: &mut MasterCore, minion: &str, boot: u32) {
    let minion = id(rt, minion);
    if !has_room(core, &minion) {
        panic!(rt; "{FAILED}");
    }
    let entry = Entry::Start { boot };
    core.apply(Deed::Up { minion, entry }).expect(rt, FAILED);
}

fn return_row(rt: &impl Abort, core: &mut MasterCore, seq: u32, row: Row) {
    let minion = row.id;
    let outcome = row.outcome;
    if !has_room(core, &minion) {
        panic!(rt; "{FAILED}");
    }
    if !is_new(core.jobs(), seq, &minion) {
        panic!(rt; "{FAILED}");
    }
    if !outcome.value.fits() {
        panic!(rt; "{FAILED}");
    }
    let entry = Entry::Return { seq, outcome };
    core.apply(Deed::Up { minion, entry }).expect(rt, FAILED);
}

fn return_all(rt: &impl Abort, core: &mut MasterCore, rows: &[(u32, &'static str, u8)]) {
    for (seq, minion, retcode) in rows {
        return_row(rt, core, *seq, row(rt, minion, *retcode));
    }
}

// The retcode of a job on a minion.
fn retcode_of(rt: &impl Abort, core: &MasterCore, seq: u32, minion: &str) -> Option<u8> {
    match core.jobs().outcome(seq, &id(rt, minion)) {
        Some(outcome) => Some(outcome.retcode),
        None => None,
    }
}

fn has_outcomes(rt: &impl Abort, core: &MasterCore, rows: &[(u32, &'static str, Option<u8>)]) {
    for (seq, minion, want) in rows {
        assert_eq!(rt;
            retcode_of(rt, core, *seq, minion),
            *want,
            "at {seq} {minion}"
        );
    }
}

fn has_logs(rt: &impl Abort, core: &MasterCore, rows: &[(&'static str, Option<u32>, usize)]) {
    assert_eq!(rt; core.ups().minions(), 2);
    for (minion, place, count) in rows {
        let id = id(rt, minion);
        assert_eq!(rt;
            (core.place(&id), core.log(&id).len()),
            (*place, *count),
            "of {minion}"
        );
    }
}

// The start that the first entry of a log tells, and 0 where there is none.
fn first_start(log: &[Entry]) -> u32 {
    match log.first() {
        Some(Entry::Start { boot }) => *boot,
        _ => 0,
    }
}

fn has_starts(rt: &impl Abort, core: &MasterCore, rows: &[(&'static str, u32)]) {
    for (minion, boot) in rows {
        assert_eq!(rt;
            first_start(core.log(&id(rt, minion))),
            *boot,
            "of {minion}"
        );
    }
}

fn has_count(rt: &impl Abort, core: &MasterCore, count: u32) {
    assert_eq!(rt; core.jobs().count(), count);
}

#[test]
fn a_master_keeps_jobs_returns_and_logs(rt: HostRuntime) {
    let alloc = rt.alloc();
    let mut core = master(alloc).expect(&rt, FAILED);
    has_count(&rt, &core, 0);
    publish(&rt, alloc, &mut core, &PUBLISHED);
    take_in(&rt, alloc, &mut core, &TAKEN);
    start(&rt, &mut core, "m1", 9);
    return_all(&rt, &mut core, &RETURNED);
    has_count(&rt, &core, 3);
    has_outcomes(&rt, &core, &OUTCOMES);
    has_logs(&rt, &core, &LOGS);
    has_starts(&rt, &core, &STARTS);
}

#[test]
fn a_start_of_the_master_leaves_all(rt: HostRuntime) {
    let mut core = master(rt.alloc()).expect(&rt, FAILED);
    core.apply(Deed::Boot).expect(&rt, FAILED);
    has_count(&rt, &core, 0);
}
