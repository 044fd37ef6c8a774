//! Compounds tell the minions of a fleet apart.
use crate::data::{Data, made_minion};
use crate::matching::{Told, answer_of};
use std::alloc::Global;
use std::process::Abort;
use target_tree::{Groups, Kind, TargetFault};

/// A compound, a minion's id, its grains and its pillar, and what the compound says of it.
type Row = (
    &'static str,
    &'static str,
    &'static [(&'static str, Data)],
    &'static [(&'static str, Data)],
    Told,
);

static FLEET: [Row; 12] = [
    (
        "web* and G@os:debian or E@db[0-9]",
        "web1.example.com",
        &[("os", Data::Str("Debian")), ("osrelease", Data::Str("12"))],
        &[],
        Told::ByData(true),
    ),
    (
        "web* and G@os:debian or E@db[0-9]",
        "web2.example.com",
        &[("os", Data::Str("Arch"))],
        &[],
        Told::ByData(false),
    ),
    (
        "web* and G@os:debian or E@db[0-9]",
        "db1",
        &[("os", Data::Str("Arch"))],
        &[],
        Told::ByData(true),
    ),
    (
        "web* and G@os:debian or E@db[0-9]",
        "db12",
        &[("os", Data::Str("Arch"))],
        &[],
        Told::ByData(true),
    ),
    (
        "not ( L@a,b and not I@role:db )",
        "a",
        &[],
        &[("role", Data::Str("db"))],
        Told::ByData(true),
    ),
    (
        "not ( L@a,b and not I@role:db )",
        "b",
        &[],
        &[("role", Data::Str("web"))],
        Told::ByData(false),
    ),
    (
        "not ( L@a,b and not I@role:db )",
        "c",
        &[],
        &[],
        Told::ByData(true),
    ),
    (
        "not (L@a,b and not I@role:db)",
        "a",
        &[],
        &[("role", Data::Str("db"))],
        Told::Misread(TargetFault::Word { at: 1 }),
    ),
    (
        "( a or",
        "a",
        &[],
        &[],
        Told::Misread(TargetFault::Word { at: 3 }),
    ),
    ("( a", "a", &[], &[], Told::Misread(TargetFault::Unclosed)),
    (
        "R@x",
        "a",
        &[],
        &[],
        Told::Misread(TargetFault::BadLetter { at: 0 }),
    ),
    ("web* or L@a", "a", &[], &[], Told::ById(true)),
];

fn row_told(rt: &impl Abort, alloc: Global, row: &Row) -> Told {
    let minion = made_minion(rt, alloc, row.1, row.2, row.3);
    let groups = Groups::new(alloc);
    answer_of(rt, alloc, Kind::Compound, row.0, &groups, &minion)
}

#[test]
fn compounds_tell_a_fleet_apart(rt: HostRuntime) {
    let alloc = rt.alloc();
    for row in &FLEET {
        assert_eq!(rt;
            row_told(&rt, alloc, row),
            row.4,
            "at {} of {}",
            row.0,
            row.1
        );
    }
}
