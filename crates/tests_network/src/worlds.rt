//! Whole plays over a top with two minions. The expected text is worked out by hand from the rules of the network.
use crate::plays::{FAILED, PAIR, Play, fleet, perform_all, printed, world_of};
use salt_outside::MemSink;
use std::alloc::Global;
use std::process::Abort;
use target_tree::Kind;
use tree_world::StepFault;

// The first job goes to both minions. m2 runs it, and its return comes twice; m1 answers last of all.
static PING: [Play; 16] = [
    Play::Publish(1700000000000000, Kind::Glob, "m*"),
    Play::Send(0, 1, 9),
    Play::Send(0, 2, 9),
    Play::Deliver(0),
    Play::Deliver(9),
    Play::Report("20231114221320000000"),
    Play::Send(1, 0, 9),
    Play::Deliver(4),
    Play::Deliver(5),
    Play::Deliver(5),
    Play::Report("20231114221320000000"),
    Play::Deliver(1),
    Play::Send(2, 0, 9),
    Play::Deliver(11),
    Play::Deliver(12),
    Play::Report("20231114221320000000"),
];

// One ping of m1, and then a packet of each kind, and two that are not there.
static PACKETS: [Play; 16] = [
    Play::Publish(1700000000000000, Kind::Glob, "*"),
    Play::Send(0, 2, 1),
    Play::Deliver(0),
    Play::Send(2, 0, 3),
    Play::Deliver(3),
    Play::Deliver(4),
    Play::Deliver(4),
    Play::Report("20231114221320000000"),
    Play::Packet(0),
    Play::Packet(1),
    Play::Packet(3),
    Play::Packet(4),
    Play::Packet(5),
    Play::Packet(7),
    Play::Packet(8),
    Play::Packet(18446744073709551615),
];

// Three jobs for m1: their packets come out of order and again, and so do its entries. What it counts is counted once for each job.
static COUNTED: [Play; 20] = [
    Play::Run(1700000000000000, "data.incr", &["\"n\""]),
    Play::Run(1700000000000000, "data.incr", &["\"n\""]),
    Play::Run(1700000000000000, "no.such", &[]),
    Play::Send(0, 2, 9),
    Play::Deliver(1),
    Play::Deliver(0),
    Play::Deliver(0),
    Play::Deliver(1),
    Play::Deliver(2),
    Play::Deliver(1),
    Play::Send(2, 0, 9),
    Play::Deliver(12),
    Play::Deliver(10),
    Play::Deliver(11),
    Play::Deliver(11),
    Play::Deliver(12),
    Play::Deliver(13),
    Play::Report("20231114221320000000"),
    Play::Report("20231114221320000001"),
    Play::Report("20231114221320000002"),
];

static COUNTED_TEXT: &str = "publish 20231114221320000000\n\
publish 20231114221320000001\n\
publish 20231114221320000002\n\
report 20231114221320000000 data.incr 1\n\
m1 0 1\n\
report 20231114221320000001 data.incr 1\n\
m1 0 2\n\
report 20231114221320000002 no.such 1\n\
m1 254 \"'no.such' is not available.\"\n";

static LAST_JID: [Play; 3] = [
    Play::Publish(253402300799999999, Kind::Glob, "*"),
    Play::Publish(7, Kind::Glob, "*"),
    Play::Report("19700101000000000000"),
];

// Each limit of a target is passed by one, and then the longest one is published: its job goes to m2 and comes back.
static LIMITS: [Play; 11] = [
    Play::Repeat(1700000000000000, Kind::Glob, "*", 4097),
    Play::Repeat(1700000000000000, Kind::Compound, "not ", 65),
    Play::Repeat(1700000000000000, Kind::Compound, "x or ", 129),
    Play::Repeat(1700000000000000, Kind::Compound, "E@a or ", 17),
    Play::Repeat(1700000000000000, Kind::Glob, "*", 4096),
    Play::Send(0, 1, 1),
    Play::Deliver(0),
    Play::Send(1, 0, 9),
    Play::Deliver(3),
    Play::Deliver(4),
    Play::Report("20231114221320000000"),
];

static LIMITS_TEXT: &str = "refused publish Target TooLong\n\
refused publish Target TooDeep\n\
refused publish Target TooManyWords\n\
refused publish Target TooManyPatterns\n\
publish 20231114221320000000\n\
report 20231114221320000000 test.ping 1\n\
m2 0 true\n";

static PING_TEXT: &str = "publish 20231114221320000000\n\
report 20231114221320000000 test.ping 0\n\
report 20231114221320000000 test.ping 1\n\
m2 0 true\n\
report 20231114221320000000 test.ping 2\n\
m1 0 true\n\
m2 0 true\n";

static PACKETS_TEXT: &str = "publish 20231114221320000000\n\
report 20231114221320000000 test.ping 1\n\
m1 0 true\n\
packet 0 top m1 01010000000000060a24181e400001000000012a01000000012a0009746573742e70696e670500000000\n\
packet 1 m1 top 010200000001\n\
packet 3 m1 top 0103026d31000000000300000001\n\
packet 4 m1 top 0103026d310000000101000000000002\n\
packet 5 top m1 0104026d3100000001\n\
packet 7 top m1 0104026d3100000002\n\
packet 8 none\n\
packet 18446744073709551615 none\n";

static LAST_JID_TEXT: &str = "publish 99991231235959999999\n\
refused publish JidEnd\n\
unknown 19700101000000000000\n";

// A play in a new world ends well, and prints this.
fn play(rt: &impl Abort, alloc: Global, plays: &[Play], text: &str) {
    let fleet = fleet(rt, alloc, &PAIR);
    let mut world = world_of(rt, alloc, &fleet);
    let mut sink = MemSink::new(alloc, Vec::new(alloc));
    let ended = perform_all(rt, alloc, &mut world, &mut sink, plays);
    printed(rt, &sink, ended, Ok(()), text);
}

#[test]
fn a_report_has_the_returns_that_came(rt: HostRuntime) {
    play(&rt, rt.alloc(), &PING, PING_TEXT);
}

#[test]
fn a_function_runs_once_for_each_job_whatever_is_repeated(rt: HostRuntime) {
    play(&rt, rt.alloc(), &COUNTED, COUNTED_TEXT);
}

#[test]
fn a_packet_is_printed_with_its_body(rt: HostRuntime) {
    play(&rt, rt.alloc(), &PACKETS, PACKETS_TEXT);
}

#[test]
fn a_refused_publication_and_an_unknown_job_are_told(rt: HostRuntime) {
    play(&rt, rt.alloc(), &LAST_JID, LAST_JID_TEXT);
}

#[test]
fn the_longest_target_is_sent(rt: HostRuntime) {
    play(&rt, rt.alloc(), &LIMITS, LIMITS_TEXT);
}

#[test]
fn a_sink_that_fails_ends_the_play(rt: HostRuntime) {
    let alloc = rt.alloc();
    let fleet = fleet(&rt, alloc, &PAIR);
    let mut world = world_of(&rt, alloc, &fleet);
    let mut sink = MemSink::new(alloc, [2].to_vec(alloc).expect(&rt, FAILED));
    let ended = perform_all(&rt, alloc, &mut world, &mut sink, &PING);
    let fault = Err(StepFault::WriteFault);
    printed(&rt, &sink, ended, fault, "publish 20231114221320000000\n");
}
