//! Orders at a top: what it publishes, and why it refuses the rest.
use crate::made::{FAILED, Given, group, pair, value, word};
use crate::steps::{publish, start_at};
use node_core::{Node, PublishFault, PublishRefusal};
use salt_value::{Items, Word};
use std::alloc::Global;
use std::process::Abort;
use target_tree::{Kind, TargetFault};

// A moment, the kind and the text of a target, an argument, and why the order is refused, if it is.
type Order = (u64, Kind, &'static str, Given, Option<PublishFault>);

static ORDERS: [Order; 16] = [
    (
        7,
        Kind::Compound,
        "( a or",
        Given::Nothing,
        Some(PublishFault::Refused {
            cause: PublishRefusal::Target {
                fault: TargetFault::Word { at: 3 },
            },
        }),
    ),
    (
        7,
        Kind::Nodegroup,
        "none",
        Given::Nothing,
        Some(PublishFault::Refused {
            cause: PublishRefusal::Target {
                fault: TargetFault::UnknownGroup { at: 0 },
            },
        }),
    ),
    (
        7,
        Kind::Glob,
        "",
        Given::Nothing,
        Some(PublishFault::Refused {
            cause: PublishRefusal::Target {
                fault: TargetFault::Empty,
            },
        }),
    ),
    (
        7,
        Kind::Compound,
        "m* and E@(",
        Given::Nothing,
        Some(PublishFault::Refused {
            cause: PublishRefusal::BadPattern { leaf: 1 },
        }),
    ),
    (
        7,
        Kind::Compound,
        "m* and E@(a{1000}){1000}",
        Given::Nothing,
        Some(PublishFault::TooBig { leaf: 1 }),
    ),
    // the arguments are a list of 32 levels, or of 65,536 bytes, and one more
    (
        7,
        Kind::Glob,
        "*",
        Given::Levels(32),
        Some(PublishFault::Refused {
            cause: PublishRefusal::TooLarge,
        }),
    ),
    (
        7,
        Kind::Glob,
        "*",
        Given::Bytes(65_527),
        Some(PublishFault::Refused {
            cause: PublishRefusal::TooLarge,
        }),
    ),
    (
        253_402_300_800_000_000,
        Kind::Glob,
        "*",
        Given::Nothing,
        Some(PublishFault::Refused {
            cause: PublishRefusal::JidEnd,
        }),
    ),
    // of two causes the first is told
    (
        253_402_300_800_000_000,
        Kind::Compound,
        "( a or",
        Given::Levels(32),
        Some(PublishFault::Refused {
            cause: PublishRefusal::Target {
                fault: TargetFault::Word { at: 3 },
            },
        }),
    ),
    (
        253_402_300_800_000_000,
        Kind::Pcre,
        "(",
        Given::Levels(32),
        Some(PublishFault::Refused {
            cause: PublishRefusal::BadPattern { leaf: 0 },
        }),
    ),
    (
        253_402_300_800_000_000,
        Kind::Glob,
        "*",
        Given::Levels(32),
        Some(PublishFault::Refused {
            cause: PublishRefusal::TooLarge,
        }),
    ),
    // two jobs, and no third one
    (7, Kind::Nodegroup, "base", Given::Levels(31), None),
    (
        7,
        Kind::Compound,
        "N@base or E@m",
        Given::Bytes(65_526),
        None,
    ),
    (
        7,
        Kind::Glob,
        "*",
        Given::Nothing,
        Some(PublishFault::Refused {
            cause: PublishRefusal::JobsFull { max: 2 },
        }),
    ),
    (
        253_402_300_800_000_000,
        Kind::Glob,
        "*",
        Given::Nothing,
        Some(PublishFault::Refused {
            cause: PublishRefusal::JobsFull { max: 2 },
        }),
    ),
    (
        7,
        Kind::Glob,
        "*",
        Given::Bytes(65_527),
        Some(PublishFault::Refused {
            cause: PublishRefusal::TooLarge,
        }),
    ),
];

// One argument, and none where nothing is given.
fn argument(rt: &impl Abort, alloc: Global, given: Given) -> Items {
    let mut items = Items::new(alloc);
    match given {
        Given::Nothing => {}
        given => items.push(value(rt, alloc, given)).expect(rt, FAILED),
    }
    items
}

fn fault_of(
    rt: &impl Abort,
    top: &mut Node,
    fun: &Word,
    order: &Order,
    args: &Items,
) -> Option<PublishFault> {
    let (moment, kind, tgt, _, _) = *order;
    publish(rt, top, moment, kind, tgt, fun, args.as_slice()).err()
}

// Each answer, and one job more exactly where no fault is told.
fn answers(rt: &impl Abort, alloc: Global, top: &mut Node, orders: &[Order]) {
    let fun = word(rt, alloc, "test.echo");
    for (i, order) in orders.iter().enumerate() {
        let before = top.jobs().len();
        let args = argument(rt, alloc, order.3);
        let fault = fault_of(rt, top, &fun, order, &args);
        let count = if order.4.is_none() { 1 } else { 0 };
        let more = top.jobs().len().saturating_sub(before);
        assert_eq!(rt; (fault, more), (order.4, count), "order {i}");
    }
}

#[test]
fn a_top_publishes_or_tells_the_first_cause(rt: HostRuntime) {
    let alloc = rt.alloc();
    let mut fleet = pair(&rt, alloc);
    fleet.limits(2, 64);
    group(&rt, alloc, &mut fleet, "base", "m1 or G@os:arch");
    let mut top = start_at(&rt, alloc, &fleet, 0);
    answers(&rt, alloc, &mut top, &ORDERS);
}
