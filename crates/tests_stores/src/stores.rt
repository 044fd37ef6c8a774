//! Jobs that are added to a store, what minions return of them, and what is found there.
use crate::made::{FAILED, id, jid, job, row};
use job_store::{AddFault, JobStore, PutFault, outcomes_by_steps};
use std::alloc::Global;
use std::process::Abort;

// The moments of jobs, and what is answered to each.
static ADDED: [(u64, Option<AddFault>); 5] = [
    (10, None),
    (20, None),
    (20, Some(AddFault::NotLater)),
    (15, Some(AddFault::NotLater)),
    (30, None),
];

// The jids that are there then.
static THERE: [u64; 3] = [10, 20, 30];

// The moment of the job with a number.
static NUMBERED: [(u32, Option<u64>); 4] = [(0, Some(10)), (1, Some(20)), (2, Some(30)), (3, None)];

// The number of the job with a jid.
static NUMBERS: [(u64, Option<u32>); 6] = [
    (10, Some(0)),
    (20, Some(1)),
    (30, Some(2)),
    (9, None),
    (15, None),
    (31, None),
];

// Returns of jobs by minions with their retcodes, and what is answered to each.
static PUT: [(u32, &str, u8, Option<PutFault>); 5] = [
    (1, "m2", 0, None),
    (1, "m1", 1, None),
    (0, "m1", 2, None),
    (1, "m1", 3, Some(PutFault::Twice)),
    (3, "m1", 4, Some(PutFault::NoJob)),
];

// The retcode of a job on a minion, once these are put.
static OUTCOMES: [(u32, &str, Option<u8>); 6] = [
    (0, "m1", Some(2)),
    (0, "m2", None),
    (1, "m1", Some(1)),
    (1, "m2", Some(0)),
    (2, "m1", None),
    (3, "m1", None),
];

fn add(rt: &impl Abort, alloc: Global, store: &mut JobStore, moment: u64) -> Option<AddFault> {
    if store.count() == u32::MAX {
        panic!(rt; "{FAILED}");
    }
    store.add(job(rt, alloc, moment)).err()
}

fn adds(rt: &impl Abort, alloc: Global, store: &mut JobStore, rows: &[(u64, Option<AddFault>)]) {
    for (moment, want) in rows {
        assert_eq!(rt; add(rt, alloc, store, *moment), *want, "at {moment}");
    }
}

fn has_jids(rt: &impl Abort, store: &JobStore, jids: &[u64]) {
    assert_eq!(rt; store.count() as usize, jids.len());
    for (job, want) in store.jobs().iter().zip(jids) {
        assert_eq!(rt; job.jid.micros(), *want);
    }
}

// The moment of the job with this number.
fn moment_of(store: &JobStore, seq: u32) -> Option<u64> {
    match store.job(seq) {
        Some(job) => Some(job.jid.micros()),
        None => None,
    }
}

fn has_jobs(rt: &impl Abort, store: &JobStore, rows: &[(u32, Option<u64>)]) {
    for (seq, want) in rows {
        assert_eq!(rt; moment_of(store, *seq), *want, "at {seq}");
    }
}

fn has_numbers(rt: &impl Abort, store: &JobStore, rows: &[(u64, Option<u32>)]) {
    for (moment, want) in rows {
        assert_eq!(rt; store.number_of(jid(rt, *moment)), *want, "at {moment}");
    }
}

fn puts(rt: &impl Abort, store: &mut JobStore, rows: &[(u32, &'static str, u8, Option<PutFault>)]) {
    for (seq, minion, retcode, want) in rows {
        let fault = store.put(*seq, row(rt, minion, *retcode)).err();
        assert_eq!(rt; fault, *want, "at {seq} {minion}");
    }
}

// The retcode of a job on a minion.
fn retcode_of(rt: &impl Abort, store: &JobStore, seq: u32, minion: &str) -> Option<u8> {
    match store.outcome(seq, &id(rt, minion)) {
        Some(outcome) => Some(outcome.retcode),
        None => None,
    }
}

fn has_outcomes(rt: &impl Abort, store: &JobStore, rows: &[(u32, &'static str, Option<u8>)]) {
    for (seq, minion, want) in rows {
        assert_eq!(rt;
            retcode_of(rt, store, *seq, minion),
            *want,
            "at {seq} {minion}"
        );
    }
}

#[test]
fn jobs_are_added_in_the_order_of_their_jids(rt: HostRuntime) {
    let alloc = rt.alloc();
    let mut store = JobStore::new(alloc);
    has_jids(&rt, &store, &[]);
    adds(&rt, alloc, &mut store, &ADDED);
    has_jids(&rt, &store, &THERE);
    has_jobs(&rt, &store, &NUMBERED);
    has_numbers(&rt, &store, &NUMBERS);
}

#[test]
fn a_minion_returns_a_job_once(rt: HostRuntime) {
    let alloc = rt.alloc();
    let mut store = JobStore::new(alloc);
    adds(&rt, alloc, &mut store, &ADDED);
    puts(&rt, &mut store, &PUT);
    outcomes_by_steps();
    has_outcomes(&rt, &store, &OUTCOMES);
    has_jids(&rt, &store, &THERE);
}
