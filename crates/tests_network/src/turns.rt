//! Which turns a fleet has.
use crate::plays::{Play, Sown, fleet, turn_of};
use fleet_config::{Fleet, Role};
use std::alloc::Global;
use std::process::Abort;
use target_tree::Kind;

// The syndic sa under the top, the minion m1 under sa, and the minion m2 under the top: four nodes.
static SMALL: [Sown; 3] = [
    ("sa", Role::Syndic, 0, "{}", "{}"),
    ("m1", Role::Minion, 1, "{}", "{}"),
    ("m2", Role::Minion, 0, "{}", "{}"),
];

static TURNS: [(Play, bool); 28] = [
    // neighbours, both ways, with any count
    (Play::Send(0, 1, 1), true),
    (Play::Send(1, 0, 0), true),
    (Play::Send(1, 2, 4294967296), true),
    (Play::Send(2, 1, 18446744073709551615), true),
    (Play::Send(3, 0, 1), true),
    // no neighbours: two levels apart, of one level, and of different parents
    (Play::Send(0, 2, 1), false),
    (Play::Send(2, 0, 1), false),
    (Play::Send(1, 3, 1), false),
    (Play::Send(2, 3, 1), false),
    // to itself
    (Play::Send(0, 0, 1), false),
    (Play::Send(1, 1, 1), false),
    // past the end
    (Play::Send(0, 4, 1), false),
    (Play::Send(4, 0, 1), false),
    (Play::Send(4, 4, 1), false),
    // only a minion has data
    (Play::Data(0), false),
    (Play::Data(1), false),
    (Play::Data(2), true),
    (Play::Data(3), true),
    (Play::Data(4), false),
    (Play::Counts(0), true),
    (Play::Counts(3), true),
    (Play::Counts(4), false),
    (Play::Counts(4294967295), false),
    // each number of 64 bits, and each jid
    (Play::Publish(18446744073709551615, Kind::Glob, "*"), true),
    (Play::Deliver(18446744073709551615), true),
    (Play::Packet(18446744073709551615), true),
    (Play::Report("99991231235959999999"), true),
    (Play::Settle, true),
];

fn is_told(rt: &impl Abort, alloc: Global, fleet: &Fleet, turns: &[(Play, bool)]) {
    for (play, wanted) in turns {
        assert_eq!(rt; turn_of(rt, alloc, *play).is_of(fleet), *wanted);
    }
}

#[test]
fn a_turn_is_of_a_fleet_or_not(rt: HostRuntime) {
    let fleet = fleet(&rt, rt.alloc(), &SMALL);
    is_told(&rt, rt.alloc(), &fleet, &TURNS);
}
