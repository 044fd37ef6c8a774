//! Which records a node may add next. The expectations are worked out by hand from the rule.
use crate::made::{FAILED, grown, id, job, word};
use fleet_config::Fleet;
use node_core::{Node, records_by_calls};
use salt_value::{Event, Fields, NodeId, Outcome, Value};
use salt_wire::{Deed, Entries, Entry, ReactDeeds};
use std::alloc::Global;
use std::process::Abort;
use target_tree::Kind;

/// An entry of a record.
#[derive(Clone, Copy, Debug)]
enum Told {
    Return(u32),
    Fired,
    Start(u32),
    Shared(u32),
}

/// A record: a job by the moment of its jid, an entry by its minion, what a minion ran by its number.
#[derive(Clone, Copy, Debug)]
enum Noted {
    Published(u64),
    Taken(u64),
    Entry(&'static str, Told),
    Fired,
    Reacted,
    Boot,
    Ran(u32, &'static [Told]),
}

fn event(rt: &impl Abort, alloc: Global) -> Event {
    Event {
        tag: word(rt, alloc, "door/open"),
        body: Value::Null,
    }
}

fn entry(rt: &impl Abort, alloc: Global, told: Told) -> Entry {
    match told {
        Told::Return(seq) => Entry::Return {
            seq,
            outcome: Outcome {
                retcode: 0,
                value: Value::Flag(true),
            },
        },
        Told::Fired => Entry::Fired {
            event: event(rt, alloc),
        },
        Told::Start(boot) => Entry::Start { boot },
        Told::Shared(seq) => Entry::Mine {
            seq,
            mine: Fields::new(alloc),
            grains: Fields::new(alloc),
            pillar: Fields::new(alloc),
        },
    }
}

fn entries(rt: &impl Abort, alloc: Global, all: &[Told]) -> Entries {
    let mut entries = Entries::new(alloc);
    for told in all {
        entries.push(entry(rt, alloc, *told)).expect(rt, FAILED);
    }
    entries
}

fn deed(rt: &impl Abort, alloc: Global, noted: Noted) -> Deed {
    match noted {
        Noted::Published(moment) => Deed::Publish {
            job: job(rt, alloc, moment),
        },
        Noted::Taken(moment) => Deed::Intake {
            job: job(rt, alloc, moment),
        },
        Noted::Entry(minion, told) => Deed::Up {
            minion: id(rt, minion),
            entry: entry(rt, alloc, told),
        },
        Noted::Fired => Deed::Fire {
            event: event(rt, alloc),
        },
        Noted::Reacted => Deed::React {
            items: ReactDeeds::new(alloc),
        },
        Noted::Boot => Deed::Boot,
        Noted::Ran(seq, all) => Deed::Done {
            seq,
            changed: None,
            entries: entries(rt, alloc, all),
        },
    }
}

// May a node add the record, and has it room for it?
fn answers(rt: &impl Abort, alloc: Global, node: &Node, noted: Noted) -> (bool, bool) {
    let deed = deed(rt, alloc, noted);
    (node.is_next(&deed), node.has_room(&deed))
}

// Whether a node may add each of these records; it has room for all of them.
fn may_add(rt: &impl Abort, alloc: Global, node: &Node, rows: &[(Noted, bool)]) {
    for (i, (noted, wanted)) in rows.iter().enumerate() {
        let answers = answers(rt, alloc, node, *noted);
        assert_eq!(rt; answers, (*wanted, true), "row {i}");
    }
}

// The node at this place of a fleet, without a record.
fn node_at<'f>(rt: &impl Abort, alloc: Global, fleet: &'f Fleet, me: u32) -> Node<'f> {
    if me >= fleet.count() {
        panic!(rt; "{FAILED}");
    }
    Node::empty(alloc, fleet, NodeId::new(me)).expect(rt, FAILED)
}

static AT_A_MINION: [(Noted, bool); 15] = [
    (Noted::Boot, true),
    (Noted::Ran(0, &[]), true),
    (Noted::Ran(0, &[Told::Return(0)]), true),
    (Noted::Ran(0, &[Told::Fired, Told::Return(0)]), true),
    (
        Noted::Ran(0, &[Told::Fired, Told::Shared(0), Told::Return(0)]),
        true,
    ),
    (Noted::Ran(0, &[Told::Return(0), Told::Return(0)]), false),
    (Noted::Ran(0, &[Told::Return(1)]), false),
    (Noted::Ran(0, &[Told::Shared(1)]), false),
    (Noted::Ran(0, &[Told::Start(1)]), false),
    (Noted::Ran(1, &[]), false),
    (Noted::Published(7), false),
    (Noted::Taken(7), false),
    (Noted::Entry("m1", Told::Start(1)), false),
    (Noted::Fired, false),
    (Noted::Reacted, false),
];

#[test]
fn a_minion_adds_its_starts_and_its_first_job(rt: HostRuntime) {
    let alloc = rt.alloc();
    let fleet = grown(&rt, alloc);
    let node = node_at(&rt, alloc, &fleet, 2);
    may_add(&rt, alloc, &node, &AT_A_MINION);
}

static AT_THE_TOP: [(Noted, bool); 8] = [
    (Noted::Published(7), true),
    (Noted::Taken(7), false),
    (Noted::Boot, false),
    (Noted::Ran(0, &[]), false),
    (Noted::Fired, false),
    (Noted::Reacted, false),
    (Noted::Entry("m1", Told::Start(1)), true),
    (Noted::Entry("m1", Told::Return(0)), false),
];

static WITH_A_JOB: [(Noted, bool); 11] = [
    (Noted::Published(6), false),
    (Noted::Published(7), false),
    (Noted::Published(8), true),
    (Noted::Entry("m1", Told::Return(0)), true),
    (Noted::Entry("m1", Told::Return(1)), false),
    (Noted::Entry("m1", Told::Shared(0)), true),
    (Noted::Entry("m1", Told::Shared(1)), false),
    (Noted::Entry("m1", Told::Fired), true),
    (Noted::Entry("m9", Told::Fired), false),
    (Noted::Entry("sa", Told::Fired), false),
    (Noted::Entry("top", Told::Fired), false),
];

// A publication of the top.
fn publish(rt: &impl Abort, alloc: Global, top: &mut Node) {
    if top.me().place() != 0 {
        panic!(rt; "{FAILED}");
    }
    let ping = word(rt, alloc, "test.ping");
    top.publish(7, Kind::Glob, "*", &ping, &[])
        .expect(rt, FAILED);
}

#[test]
fn the_top_adds_publications_and_entries(rt: HostRuntime) {
    let alloc = rt.alloc();
    let fleet = grown(&rt, alloc);
    let mut top = node_at(&rt, alloc, &fleet, 0);
    may_add(&rt, alloc, &top, &AT_THE_TOP);
    publish(&rt, alloc, &mut top);
    may_add(&rt, alloc, &top, &WITH_A_JOB);
    top.records_are_right();
    records_by_calls();
}

static AT_A_SYNDIC: [(Noted, bool); 6] = [
    (Noted::Taken(7), true),
    (Noted::Published(7), false),
    (Noted::Entry("m1", Told::Start(1)), true),
    (Noted::Entry("m2", Told::Start(1)), true),
    (Noted::Entry("m3", Told::Start(1)), false),
    (Noted::Boot, false),
];

#[test]
fn a_syndic_adds_jobs_from_its_parent_and_entries(rt: HostRuntime) {
    let alloc = rt.alloc();
    let fleet = grown(&rt, alloc);
    let node = node_at(&rt, alloc, &fleet, 1);
    may_add(&rt, alloc, &node, &AT_A_SYNDIC);
}
