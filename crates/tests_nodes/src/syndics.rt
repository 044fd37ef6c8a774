//! A syndic of a tree: jobs go down through it, and entries up.
use crate::made::{FAILED, TREE, grown, word};
use crate::steps::{
    Asked, Reply, Sent, Step, has_jobs, has_returns, publish, start_at, takes, tells,
};
use node_core::Stray;
use target_tree::Kind;

// What the syndic at place 1 answers: the top is its parent, and the minion at place 2 and the syndic at place 3 its
// children.
static SYNDIC: [Step; 24] = [
    // a job is taken in, repeated, ahead, and stray
    (0, Sent::Pub(0, 7), Reply::Jobs(1)),
    (0, Sent::Pub(0, 7), Reply::Jobs(1)),
    (0, Sent::Pub(2, 9), Reply::Jobs(1)),
    (0, Sent::Pub(1, 7), Reply::Refused(Stray::WrongWay)),
    (0, Sent::Pub(65_535, 9), Reply::Refused(Stray::WrongWay)),
    (2, Sent::Pub(1, 9), Reply::Refused(Stray::WrongWay)),
    (5, Sent::Pub(1, 9), Reply::Refused(Stray::NotNeighbour)),
    (0, Sent::Pub(1, 8), Reply::Jobs(2)),
    // what a child holds
    (2, Sent::Have(1), Reply::Nothing),
    (3, Sent::Have(2), Reply::Nothing),
    (
        3,
        Sent::Have(3),
        Reply::Refused(Stray::AheadJobs { n: 3, have: 2 }),
    ),
    (0, Sent::Have(1), Reply::Refused(Stray::WrongWay)),
    // entries of the minions below, each through its child
    (2, Sent::Start("m1", 0), Reply::Entries(1)),
    (2, Sent::Start("m1", 0), Reply::Entries(1)),
    (2, Sent::Return("m1", 1, 0), Reply::Entries(2)),
    (
        2,
        Sent::Return("m1", 2, 2),
        Reply::Refused(Stray::UnknownJob { seq: 2 }),
    ),
    (3, Sent::Start("m2", 0), Reply::Entries(1)),
    (2, Sent::Start("m2", 1), Reply::Refused(Stray::NotBelow)),
    (3, Sent::Start("m3", 0), Reply::Refused(Stray::NotBelow)),
    (0, Sent::Start("m1", 2), Reply::Refused(Stray::WrongWay)),
    // what the parent holds
    (0, Sent::UpHave("m1", 1), Reply::Nothing),
    (
        0,
        Sent::UpHave("m2", 2),
        Reply::Refused(Stray::AheadUps { n: 2, have: 1 }),
    ),
    (0, Sent::UpHave("m3", 0), Reply::Refused(Stray::NotBelow)),
    (2, Sent::UpHave("m1", 0), Reply::Refused(Stray::WrongWay)),
];

// The second job for the minion and none for the syndic below; for the top the count of jobs, an entry of m1 and one of
// m2.
static SYNDIC_TELLS: [Asked; 6] = [
    (2, 9, 1),
    (3, 9, 0),
    (0, 9, 3),
    (0, 2, 2),
    (4, 9, 99),
    (5, 9, 99),
];

static SYNDIC_RETURNS: [(&str, u32, bool); 3] = [
    ("m1", 0, true),
    ("m1", 1, false),
    ("m2", 0, false),
];

#[test]
fn a_syndic_takes_jobs_down_and_entries_up(rt: HostRuntime) {
    let alloc = rt.alloc();
    let fleet = grown(&rt, alloc, &TREE);
    let mut node = start_at(&rt, alloc, &fleet, 1);
    takes(&rt, alloc, &mut node, &SYNDIC);
    tells(&rt, &node, &SYNDIC_TELLS);
    has_jobs(&rt, &node, 2);
    has_returns(&rt, &node, &SYNDIC_RETURNS);
}

// A syndic matches nothing: it takes a job whatever its patterns are.
static UNMATCHED: [Step; 2] = [
    (0, Sent::For(0, Kind::Pcre, "("), Reply::Jobs(1)),
    (
        0,
        Sent::For(1, Kind::Pcre, "(a{1000}){1000}"),
        Reply::Jobs(2),
    ),
];

#[test]
fn a_syndic_takes_jobs_whose_patterns_it_cannot_read(rt: HostRuntime) {
    let alloc = rt.alloc();
    let fleet = grown(&rt, alloc, &TREE);
    let mut node = start_at(&rt, alloc, &fleet, 1);
    takes(&rt, alloc, &mut node, &UNMATCHED);
    has_jobs(&rt, &node, 2);
}

// A syndic that has begun: nothing for its children, and the count of no jobs for its parent.
static NEW_TELLS: [Asked; 3] = [(2, 9, 0), (3, 9, 0), (0, 9, 1)];

#[test]
fn a_new_syndic_tells_its_count_alone(rt: HostRuntime) {
    let alloc = rt.alloc();
    let fleet = grown(&rt, alloc, &TREE);
    let node = start_at(&rt, alloc, &fleet, 1);
    tells(&rt, &node, &NEW_TELLS);
    has_jobs(&rt, &node, 0);
}

// What the top takes of its syndic: the entries of each minion below it.
static TOP: [Step; 6] = [
    (1, Sent::Start("m1", 0), Reply::Entries(1)),
    (1, Sent::Return("m1", 1, 0), Reply::Entries(2)),
    (1, Sent::Start("m2", 0), Reply::Entries(1)),
    (1, Sent::Start("m3", 0), Reply::Refused(Stray::NotBelow)),
    (5, Sent::Start("m3", 0), Reply::Entries(1)),
    (1, Sent::Have(1), Reply::Nothing),
];

static TOP_TELLS: [Asked; 4] = [(1, 9, 0), (5, 9, 1), (2, 9, 99), (3, 9, 99)];

static TOP_RETURNS: [(&str, u32, bool); 3] = [("m1", 0, true), ("m2", 0, false), ("m3", 0, false)];

#[test]
fn a_top_takes_the_entries_that_a_syndic_relays(rt: HostRuntime) {
    let alloc = rt.alloc();
    let fleet = grown(&rt, alloc, &TREE);
    let mut top = start_at(&rt, alloc, &fleet, 0);
    let ping = word(&rt, alloc, "test.ping");
    publish(&rt, &mut top, 7, Kind::Glob, "*", &ping, &[]).expect(&rt, FAILED);
    takes(&rt, alloc, &mut top, &TOP);
    tells(&rt, &top, &TOP_TELLS);
    has_returns(&rt, &top, &TOP_RETURNS);
}
