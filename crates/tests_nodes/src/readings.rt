//! What a node tells of itself: at the top, at a syndic and at a minion of a tree, as it starts and later.
use crate::made::{FAILED, TREE, grown, id, word};
use crate::steps::{Reply, Sent, Step, publish, start_at, takes};
use job_store::JobStore;
use node_core::Node;
use salt_value::NodeId;
use std::process::Abort;
use target_tree::Kind;

/// A reading call on a node.
#[derive(Clone, Copy, Debug)]
enum Reading {
    /// Its place.
    Me,
    /// How many nodes its fleet has.
    Nodes,
    /// The place of the minion with this number among those at or below it.
    Below(u32),
    /// How many jobs it lists.
    Jobs,
    /// How many jobs it holds.
    Held,
    /// How many entries it has of a minion.
    Entries(&'static str),
    /// How many jobs a child is known to hold.
    KnownJobs(u32),
    /// How many entries of the minion at this place its parent is known to hold.
    KnownUps(u32),
    /// 1 where a minion has something in its store under this key, 0 where not.
    Holds(&'static str),
    /// A question to what a master keeps of its jobs.
    Store(Question),
}

/// A question to what a master keeps of its jobs.
#[derive(Clone, Copy, Debug)]
enum Question {
    /// How many jobs it has.
    Count,
    /// The jid of the job with this number, in microseconds.
    Jid(u32),
    /// The retcode of the return of the job with this number by a minion.
    Return(u32, &'static str),
}

/// A reading call on a node, and the number that it answers, if it is one.
type Read = (Reading, Option<u64>);

fn ask(rt: &impl Abort, store: &JobStore, question: Question) -> Option<u64> {
    match question {
        Question::Count => Some(store.count() as u64),
        Question::Jid(seq) => Some(store.job(seq)?.jid.micros()),
        Question::Return(seq, minion) => {
            Some(store.outcome(seq, &id(rt, minion))?.retcode as u64)
        }
    }
}

fn holds(node: &Node, key: &str) -> Option<u64> {
    match node.holdings()?.store.get(key.as_bytes()) {
        Some(_) => Some(1),
        None => Some(0),
    }
}

fn read(rt: &impl Abort, node: &Node, reading: Reading) -> Option<u64> {
    match reading {
        Reading::Me => Some(node.me().place() as u64),
        Reading::Nodes => Some(node.fleet().count() as u64),
        Reading::Below(at) => Some(node.below().get(at as usize)?.place() as u64),
        Reading::Jobs => Some(node.jobs().len() as u64),
        Reading::Held => Some(node.jobs_held() as u64),
        Reading::Entries(minion) => Some(node.log(&id(rt, minion)).len() as u64),
        Reading::KnownJobs(child) => Some(node.known_jobs(NodeId::new(child)) as u64),
        Reading::KnownUps(minion) => Some(node.known_ups(NodeId::new(minion)) as u64),
        Reading::Holds(key) => holds(node, key),
        Reading::Store(question) => ask(rt, node.store()?, question),
    }
}

// What each reading call answers.
fn reads(rt: &impl Abort, node: &Node, rows: &[Read]) {
    for (i, (reading, wanted)) in rows.iter().enumerate() {
        assert_eq!(rt; read(rt, node, *reading), *wanted, "of reading {i}");
    }
}

static NEW_TOP: [Read; 14] = [
    (Reading::Me, Some(0)),
    (Reading::Nodes, Some(6)),
    (Reading::Below(0), Some(2)),
    (Reading::Below(1), Some(4)),
    (Reading::Below(2), Some(5)),
    (Reading::Below(3), None),
    (Reading::Jobs, Some(0)),
    (Reading::Held, Some(0)),
    (Reading::Entries("m1"), Some(0)),
    (Reading::KnownJobs(1), Some(0)),
    (Reading::Holds("n"), None),
    (Reading::Store(Question::Count), Some(0)),
    (Reading::Store(Question::Jid(0)), None),
    (Reading::Store(Question::Return(0, "m1")), None),
];

static AT_TOP: [Step; 5] = [
    (1, Sent::Start("m1", 0), Reply::Entries(1)),
    (1, Sent::Return("m1", 1, 0), Reply::Entries(2)),
    (5, Sent::Start("m3", 0), Reply::Entries(1)),
    (1, Sent::Have(1), Reply::Nothing),
    (5, Sent::Have(2), Reply::Nothing),
];

// Two jobs, and the return of the first by m1.
static LATER_TOP: [Read; 18] = [
    (Reading::Me, Some(0)),
    (Reading::Jobs, Some(2)),
    (Reading::Held, Some(2)),
    (Reading::Entries("m1"), Some(2)),
    (Reading::Entries("m2"), Some(0)),
    (Reading::Entries("m3"), Some(1)),
    (Reading::KnownJobs(1), Some(1)),
    (Reading::KnownJobs(5), Some(2)),
    (Reading::KnownJobs(2), Some(0)),
    (Reading::KnownUps(2), Some(0)),
    (Reading::Holds("n"), None),
    (Reading::Store(Question::Count), Some(2)),
    (Reading::Store(Question::Jid(0)), Some(7)),
    (Reading::Store(Question::Jid(1)), Some(8)),
    (Reading::Store(Question::Jid(2)), None),
    (Reading::Store(Question::Return(0, "m1")), Some(0)),
    (Reading::Store(Question::Return(1, "m1")), None),
    (Reading::Store(Question::Return(0, "m3")), None),
];

#[test]
fn a_top_tells_what_it_published_and_took(rt: HostRuntime) {
    let alloc = rt.alloc();
    let fleet = grown(&rt, alloc, &TREE);
    let mut top = start_at(&rt, alloc, &fleet, 0);
    let ping = word(&rt, alloc, "test.ping");
    reads(&rt, &top, &NEW_TOP);
    for _ in 0..2 {
        publish(&rt, &mut top, 7, Kind::Glob, "*", &ping, &[]).expect(&rt, FAILED);
    }
    takes(&rt, alloc, &mut top, &AT_TOP);
    reads(&rt, &top, &LATER_TOP);
}

static NEW_SYNDIC: [Read; 12] = [
    (Reading::Me, Some(1)),
    (Reading::Nodes, Some(6)),
    (Reading::Below(0), Some(2)),
    (Reading::Below(1), Some(4)),
    (Reading::Below(2), None),
    (Reading::Jobs, Some(0)),
    (Reading::Held, Some(0)),
    (Reading::Entries("m1"), Some(0)),
    (Reading::KnownJobs(2), Some(0)),
    (Reading::KnownUps(2), Some(0)),
    (Reading::Holds("n"), None),
    (Reading::Store(Question::Count), Some(0)),
];

static AT_SYNDIC: [Step; 10] = [
    (0, Sent::Pub(0, 7), Reply::Jobs(1)),
    (0, Sent::Pub(1, 9), Reply::Jobs(2)),
    (2, Sent::Have(1), Reply::Nothing),
    (3, Sent::Have(2), Reply::Nothing),
    (2, Sent::Start("m1", 0), Reply::Entries(1)),
    (2, Sent::Return("m1", 1, 0), Reply::Entries(2)),
    (3, Sent::Start("m2", 0), Reply::Entries(1)),
    (3, Sent::Return("m2", 1, 1), Reply::Entries(2)),
    (0, Sent::UpHave("m1", 2), Reply::Nothing),
    (0, Sent::UpHave("m2", 1), Reply::Nothing),
];

// Two jobs, the return of the first by m1 and that of the second by m2.
static LATER_SYNDIC: [Read; 19] = [
    (Reading::Me, Some(1)),
    (Reading::Jobs, Some(2)),
    (Reading::Held, Some(2)),
    (Reading::Entries("m1"), Some(2)),
    (Reading::Entries("m2"), Some(2)),
    (Reading::Entries("m3"), Some(0)),
    (Reading::KnownJobs(2), Some(1)),
    (Reading::KnownJobs(3), Some(2)),
    (Reading::KnownJobs(4), Some(0)),
    (Reading::KnownUps(2), Some(2)),
    (Reading::KnownUps(4), Some(1)),
    (Reading::Holds("n"), None),
    (Reading::Store(Question::Count), Some(2)),
    (Reading::Store(Question::Jid(0)), Some(7)),
    (Reading::Store(Question::Jid(1)), Some(9)),
    (Reading::Store(Question::Return(0, "m1")), Some(0)),
    (Reading::Store(Question::Return(1, "m1")), None),
    (Reading::Store(Question::Return(0, "m2")), None),
    (Reading::Store(Question::Return(1, "m2")), Some(0)),
];

#[test]
fn a_syndic_tells_what_it_took_from_both_sides(rt: HostRuntime) {
    let alloc = rt.alloc();
    let fleet = grown(&rt, alloc, &TREE);
    let mut node = start_at(&rt, alloc, &fleet, 1);
    reads(&rt, &node, &NEW_SYNDIC);
    takes(&rt, alloc, &mut node, &AT_SYNDIC);
    reads(&rt, &node, &LATER_SYNDIC);
}

static NEW_MINION: [Read; 12] = [
    (Reading::Me, Some(2)),
    (Reading::Nodes, Some(6)),
    (Reading::Below(0), Some(2)),
    (Reading::Below(1), None),
    (Reading::Jobs, Some(0)),
    (Reading::Held, Some(0)),
    (Reading::Entries("m1"), Some(1)),
    (Reading::KnownUps(2), Some(0)),
    (Reading::Holds("n"), Some(0)),
    (Reading::Store(Question::Count), None),
    (Reading::Store(Question::Jid(0)), None),
    (Reading::Store(Question::Return(0, "m1")), None),
];

static AT_MINION: [Step; 3] = [
    (1, Sent::Run(0, "data.incr", &["n"]), Reply::Jobs(1)),
    (1, Sent::Run(1, "data.incr", &["n"]), Reply::Jobs(2)),
    (1, Sent::UpHave("m1", 2), Reply::Nothing),
];

// It has run two jobs, and lists none.
static LATER_MINION: [Read; 10] = [
    (Reading::Me, Some(2)),
    (Reading::Jobs, Some(0)),
    (Reading::Held, Some(2)),
    (Reading::Entries("m1"), Some(3)),
    (Reading::KnownJobs(2), Some(0)),
    (Reading::KnownUps(2), Some(2)),
    (Reading::Holds("n"), Some(1)),
    (Reading::Store(Question::Count), None),
    (Reading::Store(Question::Jid(0)), None),
    (Reading::Store(Question::Return(0, "m1")), None),
];

#[test]
fn a_minion_tells_what_it_ran_and_holds(rt: HostRuntime) {
    let alloc = rt.alloc();
    let fleet = grown(&rt, alloc, &TREE);
    let mut node = start_at(&rt, alloc, &fleet, 2);
    reads(&rt, &node, &NEW_MINION);
    takes(&rt, alloc, &mut node, &AT_MINION);
    reads(&rt, &node, &LATER_MINION);
}
