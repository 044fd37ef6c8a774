//! The nodes of a flat fleet, step by step. The expectations are worked out by hand from the rules of a call.
use crate::made::{FAILED, pair, word};
use crate::steps::{
    Asked, Reply, Sent, Step, has_jobs, has_outcomes, has_returns, publish, start_at, takes, tells,
};
use fleet_config::Fleet;
use node_core::{Node, PendFault, PublishFault, PublishRefusal, Stray, TakeFault};
use salt_value::Word;
use std::alloc::Global;
use std::process::Abort;
use target_tree::{Kind, TargetFault};

// How many of so many publications are accepted before one is refused.
fn publish_all(rt: &impl Abort, top: &mut Node, tgt: &str, ping: &Word, count: u32) -> u32 {
    for done in 0..count {
        if publish(rt, top, 7, Kind::Glob, tgt, ping, &[]).is_err() {
            return done;
        }
    }
    count
}

// A top that published so many jobs.
fn published<'f>(
    rt: &impl Abort,
    alloc: Global,
    fleet: &'f Fleet,
    tgt: &str,
    count: u32,
) -> Node<'f> {
    let mut top = start_at(rt, alloc, fleet, 0);
    publish_all(rt, &mut top, tgt, &word(rt, alloc, "test.ping"), count);
    top
}

static MINION: [Step; 13] = [
    (0, Sent::Pub(1, 7), Reply::Jobs(0)),
    (0, Sent::Pub(0, 7), Reply::Jobs(1)),
    (0, Sent::Pub(0, 7), Reply::Jobs(1)),
    (0, Sent::Pub(1, 7), Reply::Jobs(2)),
    (0, Sent::Pub(65_534, 7), Reply::Jobs(2)),
    (0, Sent::Pub(65_535, 7), Reply::Refused(Stray::WrongWay)),
    (1, Sent::Pub(2, 7), Reply::Refused(Stray::NotNeighbour)),
    (2, Sent::Pub(2, 7), Reply::Refused(Stray::NotNeighbour)),
    (0, Sent::Have(0), Reply::Refused(Stray::WrongWay)),
    (0, Sent::Start("m2", 0), Reply::Refused(Stray::WrongWay)),
    (0, Sent::UpHave("m1", 0), Reply::Refused(Stray::NotBelow)),
    (
        0,
        Sent::UpHave("m2", 4),
        Reply::Refused(Stray::AheadUps { n: 4, have: 3 }),
    ),
    (0, Sent::UpHave("m2", 3), Reply::Nothing),
];

#[test]
fn a_minion_takes_each_job_once_and_in_order(rt: HostRuntime) {
    let alloc = rt.alloc();
    let fleet = pair(&rt, alloc);
    let mut node = start_at(&rt, alloc, &fleet, 1);
    takes(&rt, alloc, &mut node, &MINION);
    // it has run them, and keeps none
    has_jobs(&rt, &node, 0);
}

static TOP: [Step; 13] = [
    (1, Sent::Start("m2", 1), Reply::Entries(0)),
    (1, Sent::Start("m2", 0), Reply::Entries(1)),
    (1, Sent::Start("m2", 0), Reply::Entries(1)),
    (
        1,
        Sent::Return("m2", 1, 2),
        Reply::Refused(Stray::UnknownJob { seq: 2 }),
    ),
    (1, Sent::Return("m2", 1, 1), Reply::Entries(2)),
    (1, Sent::Return("m2", 2, 1), Reply::Refused(Stray::WrongWay)),
    (1, Sent::Start("m1", 0), Reply::Refused(Stray::NotBelow)),
    (0, Sent::Start("m1", 0), Reply::Refused(Stray::NotNeighbour)),
    (
        1,
        Sent::Have(3),
        Reply::Refused(Stray::AheadJobs { n: 3, have: 2 }),
    ),
    (1, Sent::Have(2), Reply::Nothing),
    (9, Sent::Have(0), Reply::Refused(Stray::NotNeighbour)),
    (1, Sent::Pub(2, 7), Reply::Refused(Stray::WrongWay)),
    (1, Sent::UpHave("m2", 0), Reply::Refused(Stray::WrongWay)),
];

static TOP_RETURNS: [(&str, u32, bool); 3] = [("m2", 1, true), ("m2", 0, false), ("m1", 1, false)];

#[test]
fn a_top_takes_each_entry_once_and_in_order(rt: HostRuntime) {
    let alloc = rt.alloc();
    let fleet = pair(&rt, alloc);
    let mut top = published(&rt, alloc, &fleet, "*", 2);
    takes(&rt, alloc, &mut top, &TOP);
    has_returns(&rt, &top, &TOP_RETURNS);
}

static FIRST_JOB: [Step; 1] = [(0, Sent::Pub(0, 7), Reply::Jobs(1))];

// the count of jobs, the start and the return
static UPWARD: [Asked; 5] = [(0, 9, 3), (0, 2, 2), (0, 0, 0), (1, 9, 99), (2, 9, 99)];

static FIRST_ENTRY: [Step; 1] = [(0, Sent::UpHave("m1", 1), Reply::Nothing)];

static UPWARD_LATER: [Asked; 1] = [(0, 9, 2)];

#[test]
fn a_minion_tells_its_count_and_then_its_entries(rt: HostRuntime) {
    let alloc = rt.alloc();
    let fleet = pair(&rt, alloc);
    let mut node = start_at(&rt, alloc, &fleet, 2);
    takes(&rt, alloc, &mut node, &FIRST_JOB);
    tells(&rt, &node, &UPWARD);
    takes(&rt, alloc, &mut node, &FIRST_ENTRY);
    tells(&rt, &node, &UPWARD_LATER);
}

static TWO_JOBS: [Step; 1] = [(1, Sent::Have(2), Reply::Nothing)];

// the third job for the child that has two, and three jobs for the other one
static DOWNWARD: [Asked; 5] = [(1, 9, 1), (2, 9, 3), (2, 2, 2), (0, 9, 99), (3, 9, 99)];

#[test]
fn a_top_tells_each_child_the_jobs_it_lacks(rt: HostRuntime) {
    let alloc = rt.alloc();
    let fleet = pair(&rt, alloc);
    let mut top = published(&rt, alloc, &fleet, "m?", 3);
    has_jobs(&rt, &top, 3);
    takes(&rt, alloc, &mut top, &TWO_JOBS);
    tells(&rt, &top, &DOWNWARD);
}

// The text of the jid of a publication for all minions.
fn jid_text(
    rt: &impl Abort,
    top: &mut Node,
    moment: u64,
    ping: &Word,
) -> Result<[u8; 20], PublishFault> {
    match publish(rt, top, moment, Kind::Glob, "*", ping, &[]) {
        Ok(jid) => Ok(jid.text()),
        Err(fault) => Err(fault),
    }
}

// Publications at these moments, and the jid of each or its fault.
fn publishes(
    rt: &impl Abort,
    alloc: Global,
    top: &mut Node,
    rows: &[(u64, Result<[u8; 20], PublishFault>)],
) {
    let ping = word(rt, alloc, "test.ping");
    for (moment, jid) in rows {
        assert_eq!(rt; jid_text(rt, top, *moment, &ping), *jid);
    }
}

static LAST_JIDS: [(u64, Result<[u8; 20], PublishFault>); 3] = [
    (
        253402300800000000,
        Err(PublishFault::Refused {
            cause: PublishRefusal::JidEnd,
        }),
    ),
    (253402300799999999, Ok(*b"99991231235959999999")),
    (
        7,
        Err(PublishFault::Refused {
            cause: PublishRefusal::JidEnd,
        }),
    ),
];

#[test]
fn publications_end_at_the_last_jid(rt: HostRuntime) {
    let alloc = rt.alloc();
    let fleet = pair(&rt, alloc);
    let mut top = published(&rt, alloc, &fleet, "*", 0);
    publishes(&rt, alloc, &mut top, &LAST_JIDS);
    has_jobs(&rt, &top, 1);
}

static FULL: [(u64, Result<[u8; 20], PublishFault>); 1] = [(
    7,
    Err(PublishFault::Refused {
        cause: PublishRefusal::JobsFull { max: 65_535 },
    }),
)];

#[test]
fn publications_end_at_65535_jobs(rt: HostRuntime) {
    let alloc = rt.alloc();
    let fleet = pair(&rt, alloc);
    let mut top = published(&rt, alloc, &fleet, "*", 65_600);
    has_jobs(&rt, &top, 65_535);
    publishes(&rt, alloc, &mut top, &FULL);
}

static FULL_AT_2: [(u64, Result<[u8; 20], PublishFault>); 1] = [(
    7,
    Err(PublishFault::Refused {
        cause: PublishRefusal::JobsFull { max: 2 },
    }),
)];

#[test]
fn publications_end_where_the_fleet_says(rt: HostRuntime) {
    let alloc = rt.alloc();
    let mut fleet = pair(&rt, alloc);
    fleet.limits(2, 64);
    let mut top = published(&rt, alloc, &fleet, "*", 9);
    has_jobs(&rt, &top, 2);
    publishes(&rt, alloc, &mut top, &FULL_AT_2);
}

// What a minion runs: a function that is none, and one that counts; and messages that no node takes.
static RUNS: [Step; 6] = [
    (0, Sent::Run(0, "test.nothing", &[]), Reply::Jobs(1)),
    (0, Sent::Run(1, "data.incr", &["n"]), Reply::Jobs(2)),
    (0, Sent::Run(2, "data.incr", &["n"]), Reply::Jobs(3)),
    (0, Sent::Hello("top"), Reply::Refused(Stray::WrongWay)),
    (0, Sent::End, Reply::Refused(Stray::WrongWay)),
    (1, Sent::AskJobs, Reply::Refused(Stray::NotNeighbour)),
];

static OUTCOMES: [(u32, Option<(u8, i64)>); 4] = [
    (0, Some((254, 0))),
    (1, Some((0, 1))),
    (2, Some((0, 2))),
    (3, None),
];

#[test]
fn a_minion_runs_each_job_on_what_it_holds_then(rt: HostRuntime) {
    let alloc = rt.alloc();
    let fleet = pair(&rt, alloc);
    let mut node = start_at(&rt, alloc, &fleet, 1);
    takes(&rt, alloc, &mut node, &RUNS);
    has_outcomes(&rt, &node, "m2", &OUTCOMES);
}

static TELLING: [Step; 2] = [
    (0, Sent::Run(0, "mine.send", &["test.ping"]), Reply::Jobs(1)),
    (
        0,
        Sent::Run(1, "event.send", &["door/open"]),
        Reply::Jobs(2),
    ),
];

// the count of jobs, the start, and of each job its note and its return
static TOLD: [Asked; 1] = [(0, 9, 6)];

#[test]
fn a_minion_tells_its_notes_before_its_returns(rt: HostRuntime) {
    let alloc = rt.alloc();
    let fleet = pair(&rt, alloc);
    let mut node = start_at(&rt, alloc, &fleet, 1);
    takes(&rt, alloc, &mut node, &TELLING);
    tells(&rt, &node, &TOLD);
}

static NOTES: [Step; 5] = [
    (1, Sent::Start("m2", 0), Reply::Entries(1)),
    (1, Sent::Mine("m2", 1, 0), Reply::Entries(2)),
    (
        1,
        Sent::Mine("m2", 2, 1),
        Reply::Refused(Stray::UnknownJob { seq: 1 }),
    ),
    (1, Sent::Fired("m2", 2), Reply::Entries(3)),
    (1, Sent::Return("m2", 3, 0), Reply::Entries(4)),
];

#[test]
fn a_top_takes_the_notes_of_a_minion(rt: HostRuntime) {
    let alloc = rt.alloc();
    let fleet = pair(&rt, alloc);
    let mut top = published(&rt, alloc, &fleet, "*", 1);
    takes(&rt, alloc, &mut top, &NOTES);
    has_outcomes(&rt, &top, "m2", &NOTED);
}

static NOTED: [(u32, Option<(u8, i64)>); 1] = [(0, Some((0, 0)))];

// Jobs whose targets have patterns: a minion reads those of the job that it runs next alone.
static PATTERNS: [Step; 8] = [
    (0, Sent::For(1, Kind::Pcre, "("), Reply::Jobs(0)),
    (
        0,
        Sent::For(0, Kind::Pcre, "("),
        Reply::Refused(Stray::BadPattern { leaf: 0 }),
    ),
    (
        0,
        Sent::For(0, Kind::Compound, "m* or E@("),
        Reply::Refused(Stray::BadPattern { leaf: 1 }),
    ),
    (
        1,
        Sent::For(0, Kind::Pcre, "("),
        Reply::Refused(Stray::NotNeighbour),
    ),
    (
        0,
        Sent::For(0, Kind::Compound, "m* or E@(a{1000}){1000}"),
        Reply::TooBig(1),
    ),
    (0, Sent::For(0, Kind::Pcre, "m[0-9]"), Reply::Jobs(1)),
    (0, Sent::For(0, Kind::Pcre, "("), Reply::Jobs(1)),
    (0, Sent::For(1, Kind::Pcre, "w"), Reply::Jobs(2)),
];

static MATCHED: [(u32, Option<(u8, i64)>); 2] = [(0, Some((0, 0))), (1, None)];

#[test]
fn a_minion_reads_the_patterns_of_its_next_job(rt: HostRuntime) {
    let alloc = rt.alloc();
    let fleet = pair(&rt, alloc);
    let mut node = start_at(&rt, alloc, &fleet, 1);
    takes(&rt, alloc, &mut node, &PATTERNS);
    has_outcomes(&rt, &node, "m2", &MATCHED);
}

static STRAY_TEXTS: [(Stray, &str); 7] = [
    (
        Stray::NotNeighbour,
        "the sender is neither the parent nor a child",
    ),
    (
        Stray::WrongWay,
        "the message is not one that this sender may send here",
    ),
    (Stray::NotBelow, "the minion does not lie below"),
    (Stray::AheadJobs { n: 3, have: 2 }, "3 jobs are told, of 2"),
    (
        Stray::AheadUps { n: 4, have: 3 },
        "4 entries are told, of 3",
    ),
    (
        Stray::UnknownJob { seq: 2 },
        "the entry names the job 2, which is not held",
    ),
    (
        Stray::BadPattern { leaf: 3 },
        "the pattern of leaf 3 cannot be read",
    ),
];

static REFUSAL_TEXTS: [(PublishRefusal, &str); 5] = [
    (
        PublishRefusal::Target {
            fault: TargetFault::Empty,
        },
        "the text is no target: the target is empty",
    ),
    (
        PublishRefusal::BadPattern { leaf: 3 },
        "the pattern of leaf 3 cannot be read",
    ),
    (
        PublishRefusal::TooLarge,
        "the target or the arguments are too large",
    ),
    (PublishRefusal::JobsFull { max: 2 }, "2 jobs are held"),
    (PublishRefusal::JidEnd, "no later job id is left"),
];

static PUBLISH_TEXTS: [(PublishFault, &str); 3] = [
    (
        PublishFault::Refused {
            cause: PublishRefusal::JidEnd,
        },
        "the order is refused: no later job id is left",
    ),
    (
        PublishFault::TooBig { leaf: 3 },
        "the pattern of leaf 3 is too big",
    ),
    (PublishFault::NoMemory, "no memory was found"),
];

static PEND_TEXTS: [(PendFault, &str); 2] = [
    (
        PendFault::NotNeighbour,
        "the peer is neither the parent nor a child",
    ),
    (PendFault::NoMemory, "no memory was found"),
];

static TAKE_TEXTS: [(TakeFault, &str); 3] = [
    (
        TakeFault::Stray {
            cause: Stray::NotBelow,
        },
        "the message is stray: the minion does not lie below",
    ),
    (
        TakeFault::TooBig { leaf: 3 },
        "the pattern of leaf 3 is too big",
    ),
    (TakeFault::NoMemory, "no memory was found"),
];

fn says(rt: &impl Abort, said: &str, text: &str) {
    assert_eq!(rt; said, text);
}

#[test]
fn faults_have_texts(rt: HostRuntime) {
    let alloc = rt.alloc();
    for (fault, text) in &STRAY_TEXTS {
        says(
            &rt,
            fault.to_string(alloc).expect(&rt, FAILED).as_str(),
            text,
        );
    }
    for (fault, text) in &REFUSAL_TEXTS {
        says(
            &rt,
            fault.to_string(alloc).expect(&rt, FAILED).as_str(),
            text,
        );
    }
    for (fault, text) in &PUBLISH_TEXTS {
        says(
            &rt,
            fault.to_string(alloc).expect(&rt, FAILED).as_str(),
            text,
        );
    }
    for (fault, text) in &PEND_TEXTS {
        says(
            &rt,
            fault.to_string(alloc).expect(&rt, FAILED).as_str(),
            text,
        );
    }
    for (fault, text) in &TAKE_TEXTS {
        says(
            &rt,
            fault.to_string(alloc).expect(&rt, FAILED).as_str(),
            text,
        );
    }
}
