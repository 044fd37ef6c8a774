//! Jobs for targets of each kind: each minion runs those that are meant for it, on what it holds then.
use crate::made::{FAILED, HOLDERS, arguments, group, peopled, word};
use crate::steps::{has_outcomes, jobs_for, publish, start_at, takes_jobs};
use node_core::Node;
use std::alloc::Global;
use std::process::Abort;
use target_tree::Kind;

// The kind and the text of a target, a function, and its arguments.
type Order = (Kind, &'static str, &'static str, &'static [&'static str]);

static ORDERS: [Order; 13] = [
    (Kind::Glob, "m*", "test.ping", &[]),
    (Kind::Pcre, "m[2]", "test.ping", &[]),
    (Kind::List, "m1,m3", "test.ping", &[]),
    (Kind::Grain, "os:deb*", "test.ping", &[]),
    (Kind::GrainPcre, "os:A", "test.ping", &[]),
    (Kind::Pillar, "role:db", "test.ping", &[]),
    (Kind::PillarPcre, "role:w", "test.ping", &[]),
    (Kind::Nodegroup, "base", "test.ping", &[]),
    (Kind::Compound, "N@base and not G@os:arch", "test.ping", &[]),
    // a grain that is set decides of the jobs after it
    (Kind::Glob, "m1", "grains.setval", &["os", "Arch"]),
    (Kind::Grain, "os:debian", "test.ping", &[]),
    (Kind::Grain, "os:arch", "test.ping", &[]),
    (Kind::Glob, "m3", "test.ping", &[]),
];

const RAN: Option<(u8, i64)> = Some((0, 0));

// Which of these jobs m2 and m1 ran.
static OF_M2: [(u32, Option<(u8, i64)>); 13] = [
    (0, RAN),
    (1, RAN),
    (2, None),
    (3, None),
    (4, RAN),
    (5, None),
    (6, RAN),
    (7, RAN),
    (8, None),
    (9, None),
    (10, None),
    (11, RAN),
    (12, None),
];

static OF_M1: [(u32, Option<(u8, i64)>); 13] = [
    (0, RAN),
    (1, None),
    (2, RAN),
    (3, RAN),
    (4, None),
    (5, RAN),
    (6, None),
    (7, RAN),
    (8, RAN),
    (9, RAN),
    (10, None),
    (11, RAN),
    (12, None),
];

fn publishes(rt: &impl Abort, alloc: Global, top: &mut Node, orders: &[Order]) {
    for (kind, tgt, fun, args) in orders {
        let fun = word(rt, alloc, fun);
        let args = arguments(rt, alloc, args);
        publish(rt, top, 7, *kind, tgt, &fun, args.as_slice()).expect(rt, FAILED);
    }
}

// The minion at this place takes the jobs that the top has for it.
fn runs(
    rt: &impl Abort,
    alloc: Global,
    top: &Node,
    me: u32,
    name: &str,
    rows: &[(u32, Option<(u8, i64)>)],
) {
    let jobs = jobs_for(rt, top, me);
    let mut node = start_at(rt, alloc, top.fleet(), me);
    takes_jobs(rt, &mut node, jobs.as_slice());
    has_outcomes(rt, &node, name, rows);
}

#[test]
fn minions_run_the_jobs_that_are_meant_for_them(rt: HostRuntime) {
    let alloc = rt.alloc();
    let mut fleet = peopled(&rt, alloc, &HOLDERS);
    group(&rt, alloc, &mut fleet, "base", "m1 or I@role:web");
    let mut top = start_at(&rt, alloc, &fleet, 0);
    publishes(&rt, alloc, &mut top, &ORDERS);
    runs(&rt, alloc, &top, 1, "m2", &OF_M2);
    runs(&rt, alloc, &top, 2, "m1", &OF_M1);
}
