//! Minions, and the flat fleet that every report is measured by.
ghost use Rattle.std.specs.Prelude.{◌≡◌, IfOk};
ghost use Rattle.flat_fleet.specs.Reports.{AreBuiltOf};
ghost use Rattle.minion_core.specs.Limits.{DeedFits};
ghost use Rattle.salt_wire.specs.Limits.{JobFits};

use crate::made::{FAILED, HOLDERS, holdings, id, job, job_for};
use exec_functions::Holdings;
use flat_fleet::{FlatMinion, FlatReport, first_jobs_decide, flat_reports};
use minion_core::{MinionCore, RunFault, does_hold, does_hold_with, flat_by_steps, job_record};
use salt_value::{MinionId, Row, Value};
use salt_wire::{Deed, Job};
use std::alloc::{AllocError, Global};
use std::process::Abort;
use target_match::Matcher;
use target_tree::Kind;

// The number that a value is, and -1 of another one.
fn number_of(value: Option<&Value>) -> i64 {
    match value {
        Some(Value::Int(number)) => *number,
        _ => -1,
    }
}

// What is stored under `n`.
fn stored(held: &Holdings) -> i64 {
    number_of(held.store.get(b"n"))
}

// A minion takes a record in, of which there is room for a thousand.
fn take_in(rt: &impl Abort, minion: &mut MinionCore, deed: &Deed) -> u32
    requires { DeedFits deed.now }
{
    if minion.jobs() > 1000 || minion.boots() > 1000 {
        panic!(rt; "{FAILED}");
    }
    match minion.apply(deed) {
        Ok(()) => minion.jobs(),
        Err(_) => panic!(rt; "{FAILED}"),
    }
}

#[test]
fn a_minion_keeps_what_its_jobs_change(rt: HostRuntime) {
    let alloc = rt.alloc();
    let mut minion = MinionCore::new(alloc, Holdings::none(alloc));
    let me = id(&rt, "m1");
    let count = job(&rt, alloc, 1, "data.incr", &["n"]);
    flat_by_steps();
    run_all(&rt, alloc, &mut minion, &me, &count);
    see_minion(&rt, &minion);
    assert!(rt; does_hold(alloc, &count, &me, minion.held()).expect(&rt, FAILED));
}

// A start, and the same job twice.
fn run_all(rt: &impl Abort, alloc: Global, minion: &mut MinionCore, me: &MinionId, count: &Job)
    requires { JobFits count.now }
{
    take_in(rt, minion, &Deed::Boot);
    run_one(rt, minion, me, count);
    record_one(rt, alloc, minion, me, count);
}

// The record of the next job, made of what the minion lends.
fn record_one(rt: &impl Abort, alloc: Global, minion: &mut MinionCore, me: &MinionId, count: &Job)
    requires { JobFits count.now }
{
    match job_record(alloc, minion.jobs(), count, me, minion.held()) {
        Ok(deed) => {
            take_in(rt, minion, &deed);
        }
        Err(_) => panic!(rt; "{FAILED}"),
    }
}

fn run_one(rt: &impl Abort, minion: &mut MinionCore, me: &MinionId, count: &Job)
    requires { JobFits count.now }
{
    match minion.run(me, count) {
        Ok(deed) => {
            take_in(rt, minion, &deed);
        }
        Err(_) => panic!(rt; "{FAILED}"),
    }
}

fn see_minion(rt: &impl Abort, minion: &MinionCore) {
    let seen = (
        minion.boots(),
        minion.jobs(),
        minion.log().len(),
        stored(minion.held()),
    );
    assert_eq!(rt; seen, (1, 2, 3, 2));
}

// Has the record an entry?
fn has_entries(deed: &Deed) -> bool {
    match deed {
        Deed::Done { entries, .. } => !entries.as_slice().is_empty(),
        _ => false,
    }
}

// Whether a minion runs a job, as its record tells.
fn does_run(minion: &MinionCore, me: &MinionId, job: &Job) -> Result<bool, RunFault>
    requires { JobFits job.now }
{
    match minion.run(me, job) {
        Ok(deed) => Ok(has_entries(&deed)),
        Err(fault) => Err(fault),
    }
}

// The same by the target alone.
fn is_meant(
    alloc: Global,
    minion: &MinionCore,
    me: &MinionId,
    job: &Job,
) -> Result<bool, RunFault> {
    does_hold(alloc, job, me, minion.held())
}

// The same by a matcher, if there is one.
fn is_meant_with(alloc: Global, minion: &MinionCore, me: &MinionId, job: &Job) -> Option<bool> {
    match Matcher::build(alloc, job.target.get()) {
        Ok(matcher) => does_hold_with(&matcher, job, me, minion.held()).ok(),
        Err(_) => None,
    }
}

// The kind and the text of a target, and whether m1 runs a job that is meant for it.
type Meant = (Kind, &'static str, Result<bool, RunFault>);

static MEANT: [Meant; 9] = [
    (Kind::Glob, "m?", Ok(true)),
    (Kind::List, "m2", Ok(false)),
    (Kind::Grain, "os:debian", Ok(true)),
    (Kind::Pillar, "role:web", Ok(false)),
    (Kind::Compound, "G@os:debian and not I@role:web", Ok(true)),
    (Kind::Pcre, "(", Err(RunFault::BadPattern { leaf: 0 })),
    (
        Kind::Compound,
        "m* or E@(",
        Err(RunFault::BadPattern { leaf: 1 }),
    ),
    (
        Kind::Compound,
        "m* or E@a or J@role:(a{1000}){1000}",
        Err(RunFault::TooBig { leaf: 2 }),
    ),
    (Kind::PillarPcre, "role:d", Ok(true)),
];

fn runs_what_is_meant(rt: &impl Abort, alloc: Global, minion: &MinionCore, rows: &[Meant]) {
    let me = id(rt, "m1");
    for (kind, tgt, wanted) in rows {
        let job = job_for(rt, alloc, 1, *kind, tgt, "test.ping", &[]);
        let told = (
            is_meant(alloc, minion, &me, &job),
            does_run(minion, &me, &job),
            is_meant_with(alloc, minion, &me, &job),
        );
        assert_eq!(rt; told, (*wanted, *wanted, wanted.ok()), "at {tgt}");
    }
}

#[test]
fn a_minion_runs_the_jobs_that_are_meant_for_it(rt: HostRuntime) {
    let alloc = rt.alloc();
    let held = holdings(&rt, alloc, HOLDERS[1].1, HOLDERS[1].2);
    let minion = MinionCore::new(alloc, held);
    runs_what_is_meant(&rt, alloc, &minion, &MEANT);
}

static RUN_TEXTS: [(RunFault, &str); 3] = [
    (RunFault::NoMemory, "no memory was found"),
    (
        RunFault::BadPattern { leaf: 3 },
        "the pattern of leaf 3 cannot be read",
    ),
    (
        RunFault::TooBig { leaf: 3 },
        "the pattern of leaf 3 is too big",
    ),
];

#[test]
fn run_faults_have_texts(rt: HostRuntime) {
    for (fault, text) in &RUN_TEXTS {
        let said = fault.to_string(rt.alloc()).expect(&rt, FAILED);
        assert_eq!(rt; said.as_str(), *text);
    }
}

// What a flat fleet is told: the kind and the text of a target, a function and its arguments.
type Order = (Kind, &'static str, &'static str, &'static [&'static str]);

// The report of a job: its function, and what each minion with a row answers, -1 where that is no number.
type Report = (&'static str, &'static [(&'static str, i64)]);

static COUNTING: [Order; 2] = [
    (Kind::Glob, "*", "data.incr", &["n"]),
    (Kind::Glob, "*", "data.incr", &["n"]),
];

static COUNTED: [Report; 2] = [
    ("data.incr", &[("m2", 1), ("m1", 1)]),
    ("data.incr", &[("m2", 2), ("m1", 2)]),
];

// Jobs for what the minions hold then.
static TARGETED: [Order; 6] = [
    (Kind::Grain, "os:arch", "data.incr", &["n"]),
    (Kind::Pillar, "role:db", "data.incr", &["n"]),
    (
        Kind::Compound,
        "m1 and G@os:debian",
        "grains.setval",
        &["os", "Arch"],
    ),
    (Kind::GrainPcre, "os:A", "data.incr", &["n"]),
    (Kind::Grain, "os:debian", "data.incr", &["n"]),
    (Kind::List, "m3,m2", "data.incr", &["n"]),
];

static TARGETED_REPORTS: [Report; 6] = [
    ("data.incr", &[("m2", 1)]),
    ("data.incr", &[("m1", 1)]),
    ("grains.setval", &[("m1", -1)]),
    ("data.incr", &[("m2", 2), ("m1", 2)]),
    ("data.incr", &[]),
    ("data.incr", &[("m2", 3)]),
];

#[test]
fn a_flat_fleet_runs_each_job_where_it_is_meant(rt: HostRuntime) {
    let alloc = rt.alloc();
    let fleet = fleet(&rt, alloc);
    first_jobs_decide();
    see_reports(&rt, &reports(&rt, alloc, &fleet, &COUNTING), &COUNTED);
    see_reports(
        &rt,
        &reports(&rt, alloc, &fleet, &TARGETED),
        &TARGETED_REPORTS,
    );
}

fn fleet(rt: &impl Abort, alloc: Global) -> Vec<FlatMinion> {
    let mut fleet = Vec::new(alloc);
    for (text, grains, pillar) in &HOLDERS {
        let minion = FlatMinion {
            id: id(rt, text),
            held: holdings(rt, alloc, grains, pillar),
        };
        fleet.push(minion).expect(rt, FAILED);
    }
    fleet
}

// The jid of each job is the moment that is its number.
fn jobs(rt: &impl Abort, alloc: Global, orders: &[Order]) -> Vec<Job> {
    let mut jobs = Vec::new(alloc);
    for (i, (kind, tgt, fun, args)) in orders.iter().enumerate() {
        jobs.push(job_for(rt, alloc, i as u64, *kind, tgt, fun, args))
            .expect(rt, FAILED);
    }
    jobs
}

fn matcher_of(alloc: Global, job: &Job) -> Result<Matcher, AllocError>
    ensures ok { IfOk result (λ matcher. matcher ≡ job.now.target) }
{
    match Matcher::build(alloc, job.target.get()) {
        Ok(matcher) => Ok(matcher),
        Err(_) => Err(AllocError),
    }
}

// The matcher of each job.
fn matchers_of(alloc: Global, jobs: &[Job]) -> Result<Vec<Matcher>, AllocError>
    ensures ok { IfOk result (λ matchers. AreBuiltOf jobs.now matchers.items) }
{
    let mut matchers = Vec::new(alloc);
    for job in jobs {
        matchers.push(matcher_of(alloc, job)?)?;
    }
    Ok(matchers)
}

fn reports(
    rt: &impl Abort,
    alloc: Global,
    fleet: &[FlatMinion],
    orders: &[Order],
) -> Vec<FlatReport> {
    let jobs = jobs(rt, alloc, orders);
    let matchers = matchers_of(alloc, &jobs).expect(rt, FAILED);
    flat_reports(alloc, fleet, &jobs, &matchers).expect(rt, FAILED)
}

fn see_reports(rt: &impl Abort, reports: &[FlatReport], wanted: &[Report]) {
    assert_eq!(rt; reports.len(), wanted.len());
    for (i, (report, (fun, rows))) in reports.iter().zip(wanted.iter()).enumerate() {
        let of = (report.jid.micros(), report.fun.as_str());
        assert_eq!(rt; of, (i as u64, *fun));
        see_rows(rt, report.rows.as_slice(), rows);
    }
}

fn see_rows(rt: &impl Abort, found: &[Row], wanted: &[(&'static str, i64)]) {
    assert_eq!(rt; found.len(), wanted.len());
    for (row, (name, number)) in found.iter().zip(wanted.iter()) {
        assert_eq!(rt;
            (row.id.as_str(), number_of(Some(&row.outcome.value))),
            (*name, *number)
        );
    }
}
