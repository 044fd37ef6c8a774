//! Plays over a tree with syndics: jobs go down through them, and entries come up. The expected text is worked out by
//! hand from the rules of the network.
use crate::plays::{Play, Sown, fleet, perform_all, printed, world_of};
use fleet_config::Role;
use salt_outside::MemSink;
use target_tree::Kind;

// The syndic sa under the top, with the minion m1 and the syndic sb; m2 under sb, and m3 under the top.
static TREE: [Sown; 5] = [
    ("sa", Role::Syndic, 0, "{}", "{}"),
    ("m1", Role::Minion, 1, "{}", "{}"),
    ("sb", Role::Syndic, 1, "{}", "{}"),
    ("m2", Role::Minion, 3, "{}", "{}"),
    ("m3", Role::Minion, 0, "{}", "{}"),
];

// One job for all minions. It goes down to sa, m1, sb and m2, each of which tells its count; then m1's return comes up
// through sa, and m2's through sb and sa. The job doesn't reach m3.
static PING: [Play; 33] = [
    Play::Publish(1700000000000000, Kind::Glob, "m*"),
    // 0: the job for sa, and 1: sa's count
    Play::Send(0, 1, 9),
    Play::Deliver(0),
    // 2: the job for m1, 3: m1's count, 4: the job for sb, 5: sb's count, 6: the job for m2, 7: m2's count
    Play::Send(1, 2, 9),
    Play::Deliver(2),
    Play::Send(1, 3, 9),
    Play::Deliver(4),
    Play::Send(3, 4, 9),
    Play::Deliver(6),
    Play::Report("20231114221320000000"),
    // 8 to 10: m1's count, start and return, taken by sa, which replies 11 and 12
    Play::Send(2, 1, 9),
    Play::Deliver(8),
    Play::Deliver(9),
    Play::Deliver(10),
    // a repeated return, with its reply 13
    Play::Deliver(10),
    // 14 to 16: sa's count, and m1's start and return, taken by the top, which replies 17 and 18
    Play::Send(1, 0, 9),
    Play::Deliver(14),
    Play::Deliver(15),
    Play::Deliver(16),
    Play::Report("20231114221320000000"),
    // 19 to 21: m2's count, start and return, taken by sb, which replies 22 and 23
    Play::Send(4, 3, 9),
    Play::Deliver(20),
    Play::Deliver(21),
    // 24 to 26: sb's count, and m2's start and return, taken by sa, which replies 27 and 28
    Play::Send(3, 1, 9),
    Play::Deliver(25),
    Play::Deliver(26),
    // sa has heard that the top holds what m1 sent: 29 to 31 are its count, and m2's start and return
    Play::Deliver(17),
    Play::Deliver(18),
    Play::Send(1, 0, 9),
    Play::Deliver(30),
    Play::Deliver(31),
    Play::Report("20231114221320000000"),
    Play::Packet(31),
];

static PING_TEXT: &str = "publish 20231114221320000000\n\
report 20231114221320000000 test.ping 0\n\
report 20231114221320000000 test.ping 1\n\
m1 0 true\n\
report 20231114221320000000 test.ping 2\n\
m1 0 true\n\
m2 0 true\n\
packet 31 sa top 0103026d320000000101000000000002\n";

#[test]
fn a_job_goes_down_and_its_returns_come_up(rt: HostRuntime) {
    let alloc = rt.alloc();
    let fleet = fleet(&rt, alloc, &TREE);
    let mut world = world_of(&rt, alloc, &fleet);
    let mut sink = MemSink::new(alloc, Vec::new(alloc));
    let ended = perform_all(&rt, alloc, &mut world, &mut sink, &PING);
    printed(&rt, &sink, ended, Ok(()), PING_TEXT);
}
