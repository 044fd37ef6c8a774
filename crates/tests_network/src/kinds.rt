//! Plays with publications of each kind of target, over minions that hold grains and a pillar at first, and with those that are
//! refused. The expected text is worked out by hand from the rules of targets and of the network.
use crate::plays::{FAILED, Play, Sown, fleet, perform_all, printed, repeated, world_of};
use fleet_config::{Fleet, MOST_JOURNAL_LIMIT, Role};
use salt_outside::MemSink;
use salt_value::{MinionId, Text};
use std::alloc::Global;
use std::process::Abort;
use target_tree::Kind;
use tree_world::StepFault;

// The minion web1 and then the minion db1.
static NODES: [Sown; 2] = [
    (
        "web1",
        Role::Minion,
        0,
        "{\"os\":\"Debian\",\"roles\":[\"web\",\"cache\"]}",
        "{\"rack\":{\"row\":7},\"tier\":\"front\"}",
    ),
    (
        "db1",
        Role::Minion,
        0,
        "{\"os\":\"Ubuntu\",\"roles\":[\"db\"]}",
        "{\"rack\":{\"row\":12},\"tier\":\"back\"}",
    ),
];

// One minion with one grain.
static SITE: [Sown; 1] = [("web1", Role::Minion, 0, "{\"site\":\"a\"}", "{}")];

// Nodegroups: their names and their texts. The last two name each other.
static GROUPS: [(&str, &str); 5] = [
    ("fronts", "web* and G@os:debian"),
    ("two", "N@long or N@long"),
    ("four", "N@two or N@two"),
    ("a", "N@b"),
    ("b", "N@a"),
];

fn add_group(rt: &impl Abort, alloc: Global, fleet: &mut Fleet, name: &str, text: &str) {
    let name = MinionId::read(name).expect(rt, FAILED);
    let text = String::from_str(alloc, text).expect(rt, FAILED);
    fleet.add_group(name, Text::new(text)).expect(rt, FAILED);
}

// The nodegroups, and before them one with a glob of 4,096 bytes.
fn add_groups(rt: &impl Abort, alloc: Global, fleet: &mut Fleet) {
    let long = repeated(rt, alloc, "*", 4096);
    add_group(rt, alloc, fleet, "long", long.as_str());
    for (name, text) in &GROUPS {
        add_group(rt, alloc, fleet, name, text);
    }
}

// A top and these nodes, with the nodegroups.
fn grouped(rt: &impl Abort, alloc: Global, nodes: &[Sown]) -> Fleet {
    let mut fleet = fleet(rt, alloc, nodes);
    add_groups(rt, alloc, &mut fleet);
    fleet
}

// The same, whose top may hold one job.
fn narrow(rt: &impl Abort, alloc: Global, nodes: &[Sown]) -> Fleet {
    let mut fleet = fleet(rt, alloc, nodes);
    add_groups(rt, alloc, &mut fleet);
    fleet.limits(1, MOST_JOURNAL_LIMIT);
    fleet
}

// Nine jobs, each for a target of another kind, and one more. Both minions take all of them, run those that are for them, and
// their returns come up.
static KINDS: [Play; 26] = [
    Play::Publish(1700000000000000, Kind::Glob, "web*"),
    // an id in which the first match begins at its start: db1, and not web1
    Play::Publish(1700000000000000, Kind::Pcre, "d?b1"),
    Play::Publish(1700000000000000, Kind::List, "db1, web1,db2"),
    // without regard to case: web1
    Play::Publish(1700000000000000, Kind::Grain, "os:debian"),
    Play::Publish(1700000000000000, Kind::GrainPcre, "os:U.*u$"),
    // the text of the number 12 at the end of a path: db1
    Play::Publish(1700000000000000, Kind::Pillar, "rack:row:1*"),
    // the first match in 12 begins at 1, so web1 alone
    Play::Publish(1700000000000000, Kind::PillarPcre, "rack:row:[0-9]$"),
    Play::Publish(1700000000000000, Kind::Nodegroup, "fronts"),
    // web1 by its left side, db1 by its right side
    Play::Publish(
        1700000000000000,
        Kind::Compound,
        "N@fronts or not I@tier:front",
    ),
    // both by what stands in the parentheses, and then not web1
    Play::Publish(
        1700000000000000,
        Kind::Compound,
        "( E@d?b1 or P@roles:c ) and J@tier:[bf] and not L@web1",
    ),
    // 0 to 9: the jobs for web1, and 10 to 19: those for db1
    Play::Send(0, 1, 99),
    Play::Send(0, 2, 99),
    // 20 to 39: the counts of both
    Play::DeliverEach(0, 20),
    // 40 to 47: web1's count, its start, and six returns; 48 to 55: db1's count, its start, and six returns
    Play::Send(1, 0, 99),
    Play::Send(2, 0, 99),
    Play::DeliverEach(40, 56),
    Play::Report("20231114221320000000"),
    Play::Report("20231114221320000001"),
    Play::Report("20231114221320000002"),
    Play::Report("20231114221320000003"),
    Play::Report("20231114221320000004"),
    Play::Report("20231114221320000005"),
    Play::Report("20231114221320000006"),
    Play::Report("20231114221320000007"),
    Play::Report("20231114221320000008"),
    Play::Report("20231114221320000009"),
];

static KINDS_TEXT: &str = "publish 20231114221320000000\n\
publish 20231114221320000001\n\
publish 20231114221320000002\n\
publish 20231114221320000003\n\
publish 20231114221320000004\n\
publish 20231114221320000005\n\
publish 20231114221320000006\n\
publish 20231114221320000007\n\
publish 20231114221320000008\n\
publish 20231114221320000009\n\
report 20231114221320000000 test.ping 1\n\
web1 0 true\n\
report 20231114221320000001 test.ping 1\n\
db1 0 true\n\
report 20231114221320000002 test.ping 2\n\
db1 0 true\n\
web1 0 true\n\
report 20231114221320000003 test.ping 1\n\
web1 0 true\n\
report 20231114221320000004 test.ping 1\n\
db1 0 true\n\
report 20231114221320000005 test.ping 1\n\
db1 0 true\n\
report 20231114221320000006 test.ping 1\n\
web1 0 true\n\
report 20231114221320000007 test.ping 1\n\
web1 0 true\n\
report 20231114221320000008 test.ping 2\n\
db1 0 true\n\
web1 0 true\n\
report 20231114221320000009 test.ping 1\n\
db1 0 true\n";

// The grain is another one after each `grains.setval`, and a job's target is asked when the job comes. Jobs and entries come out
// of order and again.
static SETS: [Play; 24] = [
    Play::Publish(1700000000000000, Kind::Grain, "site:a"),
    Play::Run(1700000000000000, "grains.setval", &["\"site\"", "\"b\""]),
    Play::Publish(1700000000000000, Kind::Grain, "site:a"),
    Play::Publish(1700000000000000, Kind::Grain, "site:b"),
    Play::Run(1700000000000000, "grains.setval", &["\"site\"", "\"c\""]),
    Play::Publish(1700000000000000, Kind::Grain, "site:c"),
    // 0 to 5: the jobs
    Play::Send(0, 1, 99),
    // the fourth job is not the next one, and is told again later; 6 to 10: counts
    Play::Deliver(3),
    Play::DeliverEach(0, 4),
    // the second job is not run twice, now and at the end; 11 to 15: counts
    Play::Deliver(1),
    Play::DeliverEach(4, 6),
    Play::Deliver(1),
    Play::Deliver(4),
    // 16: the count, 17: the start, 18 to 22: the returns of all jobs but the third
    Play::Send(1, 0, 99),
    Play::Deliver(19),
    Play::DeliverEach(16, 23),
    Play::Deliver(20),
    Play::Deliver(17),
    Play::Report("20231114221320000000"),
    Play::Report("20231114221320000001"),
    Play::Report("20231114221320000002"),
    Play::Report("20231114221320000003"),
    Play::Report("20231114221320000004"),
    Play::Report("20231114221320000005"),
];

static SETS_TEXT: &str = "publish 20231114221320000000\n\
publish 20231114221320000001\n\
publish 20231114221320000002\n\
publish 20231114221320000003\n\
publish 20231114221320000004\n\
publish 20231114221320000005\n\
report 20231114221320000000 test.ping 1\n\
web1 0 true\n\
report 20231114221320000001 grains.setval 1\n\
web1 0 {\"site\":\"b\"}\n\
report 20231114221320000002 test.ping 0\n\
report 20231114221320000003 test.ping 1\n\
web1 0 true\n\
report 20231114221320000004 grains.setval 1\n\
web1 0 {\"site\":\"c\"}\n\
report 20231114221320000005 test.ping 1\n\
web1 0 true\n";

// The top may hold one job, which has the greatest jid: so each cause but the last one below comes before JobsFull, and that one
// before JidEnd. What is refused leaves no job.
static REFUSED: [Play; 16] = [
    Play::Publish(253402300799999999, Kind::Nodegroup, "fronts"),
    Play::Publish(7, Kind::List, ""),
    Play::Publish(7, Kind::Compound, "( a or"),
    Play::Publish(7, Kind::Compound, "( a"),
    Play::Publish(7, Kind::Compound, "R@x"),
    Play::Publish(7, Kind::Nodegroup, "a"),
    Play::Publish(7, Kind::Nodegroup, "c"),
    Play::Publish(7, Kind::Compound, "web* and E@("),
    Play::Publish(7, Kind::PillarPcre, "rack:("),
    // sixteen globs of 4,096 bytes are too large, and fifteen are not
    Play::Publish(7, Kind::Compound, "N@four or N@four or N@four or N@four"),
    Play::Publish(
        7,
        Kind::Compound,
        "N@four or N@four or N@four or N@two or N@long",
    ),
    // with the list around it an argument of 32 levels is too deep, and one of 31 levels is not
    Play::Run(
        7,
        "test.echo",
        &["[[[[[[[[[[[[[[[[[[[[[[[[[[[[[[[[]]]]]]]]]]]]]]]]]]]]]]]]]]]]]]]]"],
    ),
    Play::Run(
        7,
        "test.echo",
        &["[[[[[[[[[[[[[[[[[[[[[[[[[[[[[[[]]]]]]]]]]]]]]]]]]]]]]]]]]]]]]]"],
    ),
    Play::Report("99991231235959999999"),
    Play::Send(0, 1, 99),
    Play::Packet(1),
];

static REFUSED_TEXT: &str = "publish 99991231235959999999\n\
refused publish Target Empty\n\
refused publish Target Word 3\n\
refused publish Target Unclosed\n\
refused publish Target BadLetter 0\n\
refused publish Target Circle 2\n\
refused publish Target UnknownGroup 0\n\
refused publish BadPattern 1\n\
refused publish BadPattern 0\n\
refused publish TooLarge\n\
refused publish JobsFull\n\
refused publish TooLarge\n\
refused publish JobsFull\n\
report 99991231235959999999 test.ping 0\n\
packet 1 none\n";

// After the greatest jid no job is published, whatever its target.
static LAST: [Play; 4] = [
    Play::Publish(253402300799999998, Kind::Grain, "os:debian"),
    Play::Publish(7, Kind::Pillar, "tier:back"),
    Play::Publish(7, Kind::Compound, "G@os:debian"),
    Play::Publish(7, Kind::Compound, "G@"),
];

static LAST_TEXT: &str = "publish 99991231235959999998\n\
publish 99991231235959999999\n\
refused publish JidEnd\n\
refused publish Target Word 0\n";

// The second publication's pattern can be read, and is too big to match with. The play ends there.
static BIG: [Play; 3] = [
    Play::Publish(1700000000000000, Kind::Glob, "*"),
    Play::Publish(
        1700000000000000,
        Kind::Compound,
        "web* or P@os:(a{1000}){1000} or E@(",
    ),
    Play::Report("20231114221320000000"),
];

static BIG_TEXT: &str = "publish 20231114221320000000\n";

// A play in the world of this fleet ends so, and prints this.
fn play(
    rt: &impl Abort,
    alloc: Global,
    fleet: &Fleet,
    plays: &[Play],
    wanted: Result<(), StepFault>,
    text: &str,
) {
    let mut world = world_of(rt, alloc, fleet);
    let mut sink = MemSink::new(alloc, Vec::new(alloc));
    let ended = perform_all(rt, alloc, &mut world, &mut sink, plays);
    printed(rt, &sink, ended, wanted, text);
}

#[test]
fn a_job_is_run_where_its_target_holds(rt: HostRuntime) {
    let alloc = rt.alloc();
    let fleet = grouped(&rt, alloc, &NODES);
    play(&rt, alloc, &fleet, &KINDS, Ok(()), KINDS_TEXT);
}

#[test]
fn a_target_is_asked_of_what_the_jobs_before_left(rt: HostRuntime) {
    let alloc = rt.alloc();
    let fleet = grouped(&rt, alloc, &SITE);
    play(&rt, alloc, &fleet, &SETS, Ok(()), SETS_TEXT);
}

#[test]
fn each_refusal_is_told_by_its_first_cause(rt: HostRuntime) {
    let alloc = rt.alloc();
    let fleet = narrow(&rt, alloc, &NODES);
    play(&rt, alloc, &fleet, &REFUSED, Ok(()), REFUSED_TEXT);
}

#[test]
fn no_job_is_published_after_the_greatest_jid(rt: HostRuntime) {
    let alloc = rt.alloc();
    let fleet = grouped(&rt, alloc, &NODES);
    play(&rt, alloc, &fleet, &LAST, Ok(()), LAST_TEXT);
}

#[test]
fn a_pattern_that_is_too_big_ends_the_play(rt: HostRuntime) {
    let alloc = rt.alloc();
    let fleet = grouped(&rt, alloc, &NODES);
    let fault = Err(StepFault::TooBig { leaf: 1 });
    play(&rt, alloc, &fleet, &BIG, fault, BIG_TEXT);
}
