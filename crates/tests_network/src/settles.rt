//! Plays with settles. The expected text is worked out by hand from the rules of the network.
use crate::plays::{Play, Sown, fleet, perform_all, printed, world_of};
use fleet_config::Role;
use salt_outside::MemSink;
use std::alloc::Global;
use std::process::Abort;
use target_tree::Kind;

// The minion m1, which holds a grain, and the minion m2.
static FLAT: [Sown; 2] = [
    ("m1", Role::Minion, 0, "{\"os\":\"Debian\"}", "{}"),
    ("m2", Role::Minion, 0, "{}", "{}"),
];

// The syndic sa under the top, with the minion m1 and the syndic sb; m2 under sb, and m3 under the top.
static TREE: [Sown; 5] = [
    ("sa", Role::Syndic, 0, "{}", "{}"),
    ("m1", Role::Minion, 1, "{}", "{}"),
    ("sb", Role::Syndic, 1, "{}", "{}"),
    ("m2", Role::Minion, 3, "{}", "{}"),
    ("m3", Role::Minion, 0, "{}", "{}"),
];

// Two packets carry the job to each minion and its count back, and four each minion's start and its return up and the counts
// back, those of m2 first: 2 * 1 * 2 + 2 * 4 * 1 packets.
static PING: [Play; 12] = [
    Play::Publish(1700000000000000, Kind::Glob, "*"),
    Play::Settle,
    Play::Report("20231114221320000000"),
    Play::Exit("20231114221320000000"),
    Play::Jobs,
    Play::Summary,
    Play::Data(1),
    Play::Counts(0),
    Play::Counts(1),
    Play::Counts(2),
    Play::Packet(11),
    Play::Packet(12),
];

static PING_TEXT: &str = "publish 20231114221320000000\n\
settled\n\
report 20231114221320000000 test.ping 2\n\
m1 0 true\n\
m2 0 true\n\
exit 20231114221320000000 2\n\
m1 true\n\
m2 true\n\
jobs 1\n\
20231114221320000000 test.ping glob \"*\"\n\
summary jobs 1 rows 2\n\
data m1 {\"os\":\"Debian\"} {} {}\n\
counts top jobs 1 m1:2 m2:2\n\
counts m1 jobs 1 m1:2\n\
counts m2 jobs 1 m2:2\n\
packet 11 top m1 0104026d3100000002\n\
packet 12 none\n";

// Two jobs. Before the settle, sa gets the second one first and the first one twice; m1's return comes to sa before its start;
// and each reply is lost.
static LOSSES: [Play; 23] = [
    Play::Publish(1700000000000000, Kind::Glob, "*"),
    Play::Publish(1700000000000000, Kind::Compound, "m1 or m3"),
    // 0 and 1: the jobs for sa, 2 to 4: its counts
    Play::Send(0, 1, 9),
    Play::Deliver(1),
    Play::Deliver(0),
    Play::Deliver(0),
    // 5: the first job for m1, 6: m1's count, 7 to 9: its count, start and return, 10 and 11: sa's counts
    Play::Send(1, 2, 9),
    Play::Deliver(5),
    Play::Send(2, 1, 9),
    Play::Deliver(9),
    Play::Deliver(8),
    // 12 and 13: sa's count and m1's start, 14: the top's count
    Play::Send(1, 0, 9),
    Play::Deliver(13),
    Play::Settle,
    Play::Report("20231114221320000000"),
    Play::Report("20231114221320000001"),
    Play::Jobs,
    Play::Counts(0),
    Play::Counts(1),
    Play::Counts(2),
    Play::Counts(3),
    Play::Counts(4),
    Play::Counts(5),
];

static LOSSES_TEXT: &str = "publish 20231114221320000000\n\
publish 20231114221320000001\n\
settled\n\
report 20231114221320000000 test.ping 3\n\
m1 0 true\n\
m2 0 true\n\
m3 0 true\n\
report 20231114221320000001 test.ping 2\n\
m1 0 true\n\
m3 0 true\n\
jobs 2\n\
20231114221320000000 test.ping glob \"*\"\n\
20231114221320000001 test.ping compound \"m1 or m3\"\n\
counts top jobs 2 m1:3 m2:2 m3:3\n\
counts sa jobs 2 m1:3 m2:2\n\
counts m1 jobs 2 m1:3\n\
counts sb jobs 2 m2:2\n\
counts m2 jobs 2 m2:2\n\
counts m3 jobs 2 m3:3\n";

// The first settle carries the minions' starts, m2's first, and the second one nothing.
static NOTHING: [Play; 4] = [Play::Settle, Play::Settle, Play::Packet(3), Play::Packet(4)];

static NOTHING_TEXT: &str = "settled\n\
settled\n\
packet 3 top m1 0104026d3100000001\n\
packet 4 none\n";

// A job after each settle, the last one of a function that there is none of.
static AGAIN: [Play; 13] = [
    Play::Publish(1700000000000000, Kind::Glob, "m1"),
    Play::Settle,
    Play::Run(1700000000000000, "data.incr", &["\"n\""]),
    Play::Settle,
    Play::Run(1700000000000000, "no.such", &[]),
    Play::Settle,
    Play::Report("20231114221320000001"),
    Play::Exit("20231114221320000000"),
    Play::Exit("20231114221320000002"),
    Play::Summary,
    Play::Data(1),
    Play::Exit("19700101000000000000"),
    Play::Report("19700101000000000000"),
];

static AGAIN_TEXT: &str = "publish 20231114221320000000\n\
settled\n\
publish 20231114221320000001\n\
settled\n\
publish 20231114221320000002\n\
settled\n\
report 20231114221320000001 data.incr 2\n\
m1 0 1\n\
m2 0 1\n\
exit 20231114221320000000 1\n\
m1 true\n\
exit 20231114221320000002 2\n\
m1 false\n\
m2 false\n\
summary jobs 3 rows 5\n\
data m1 {\"os\":\"Debian\"} {\"n\":1} {}\n\
unknown 19700101000000000000\n\
unknown 19700101000000000000\n";

// A play in a new world of these nodes ends well, and prints this.
fn play(rt: &impl Abort, alloc: Global, nodes: &[Sown], plays: &[Play], text: &str) {
    let fleet = fleet(rt, alloc, nodes);
    let mut world = world_of(rt, alloc, &fleet);
    let mut sink = MemSink::new(alloc, Vec::new(alloc));
    let ended = perform_all(rt, alloc, &mut world, &mut sink, plays);
    printed(rt, &sink, ended, Ok(()), text);
}

#[test]
fn a_settle_carries_a_job_down_and_its_returns_up(rt: HostRuntime) {
    play(&rt, rt.alloc(), &FLAT, &PING, PING_TEXT);
}

#[test]
fn a_settle_makes_up_for_what_was_lost(rt: HostRuntime) {
    play(&rt, rt.alloc(), &TREE, &LOSSES, LOSSES_TEXT);
}

#[test]
fn a_settle_with_nothing_to_do_sends_nothing(rt: HostRuntime) {
    play(&rt, rt.alloc(), &FLAT, &NOTHING, NOTHING_TEXT);
}

#[test]
fn a_job_after_a_settle_takes_another_one(rt: HostRuntime) {
    play(&rt, rt.alloc(), &FLAT, &AGAIN, AGAIN_TEXT);
}
