//! Nodes over their disks: what each call keeps, what a stop within it leaves, which records are damage, and when a journal is full. The
//! expectations are worked out by hand from the rules.
ghost use Rattle.std.specs.Prelude.{◌<◌};
ghost use Rattle.salt_wire.specs.Limits.{Within};
ghost use Rattle.node_core.specs.Node.{IsCounted};
ghost use Rattle.journalled_node.specs.State.{StandsIfUp};

use crate::made::{FAILED, grown, id, job, word};
use checkpoint_log::Log;
use fleet_config::Fleet;
use journal_records::write_record;
use journalled_node::{JournalledNode, LoadFault, PublishFault, TakeFault};
use node_core::{PublishRefusal, Stray};
use salt_disk::{Disk, MemDisk, Part};
use salt_value::NodeId;
use salt_wire::{Deed, Entry, Message};
use std::alloc::Global;
use std::process::Abort;
use target_tree::{Kind, TargetFault};

/// A call on a node that was just loaded.
#[derive(Clone, Copy, Debug)]
enum Call {
    /// No call: it was loaded alone.
    Load,
    /// An order at the top: `test.ping` for all minions, at this moment.
    Publish(u64),
    /// An order at the top whose target is no text of a target.
    PublishNothing,
    /// The job with this number from this node, by the moment of its jid.
    Job(u32, u32, u64),
    /// The entry with this number of a minion from this node: that it has started.
    Start(u32, &'static str, u32),
}

/// How it ended.
#[derive(Clone, Copy, Debug, PartialEq, Eq)]
enum Ending {
    Loaded,
    Unloaded(LoadFault),
    Published,
    Unpublished(PublishFault),
    /// It holds so many jobs.
    Jobs(u32),
    /// It holds so many entries of that minion.
    Entries(u32),
    Untaken(TakeFault),
    Other,
}

fn start_of(rt: &impl Abort, minion: &str, n: u32) -> Message
    requires { n < 1000 }
    ensures value { Within result }
    ensures counted { IsCounted result }
{
    let minion = id(rt, minion);
    let _bytes = minion.as_bytes();
    let entry = Entry::Start { boot: 1 };
    Message::Up { minion, n, entry }
}

fn job_of(rt: &impl Abort, alloc: Global, seq: u32, moment: u64) -> Message
    ensures value { Within result }
    ensures counted { IsCounted result }
{
    let job = job(rt, alloc, moment);
    Message::Pub { seq, job }
}

fn replied(answer: &Result<Option<Message>, TakeFault>) -> Ending {
    match answer {
        Ok(Some(Message::Have { jobs })) => Ending::Jobs(*jobs),
        Ok(Some(Message::UpHave { n, .. })) => Ending::Entries(*n),
        Ok(_) => Ending::Other,
        Err(fault) => Ending::Untaken(*fault),
    }
}

fn take_start(
    rt: &impl Abort,
    node: &mut JournalledNode,
    disk: &mut MemDisk,
    from: u32,
    minion: &str,
    n: u32,
) -> Ending
    requires { StandsIfUp ⟦<MemDisk as Disk>⟧ disk.old node.old }
    ensures { StandsIfUp ⟦<MemDisk as Disk>⟧ disk.new node.new }
{
    if n >= 1000 {
        return Ending::Other;
    }
    let message = start_of(rt, minion, n);
    replied(&node.take(disk, NodeId::new(from), &message))
}

fn take_job(
    rt: &impl Abort,
    alloc: Global,
    node: &mut JournalledNode,
    disk: &mut MemDisk,
    from: u32,
    seq: u32,
    moment: u64,
) -> Ending
    requires { StandsIfUp ⟦<MemDisk as Disk>⟧ disk.old node.old }
    ensures { StandsIfUp ⟦<MemDisk as Disk>⟧ disk.new node.new }
{
    let message = job_of(rt, alloc, seq, moment);
    replied(&node.take(disk, NodeId::new(from), &message))
}

fn publish(
    rt: &impl Abort,
    alloc: Global,
    node: &mut JournalledNode,
    disk: &mut MemDisk,
    moment: u64,
    tgt: &str,
) -> Ending
    requires { StandsIfUp ⟦<MemDisk as Disk>⟧ disk.old node.old }
    ensures { StandsIfUp ⟦<MemDisk as Disk>⟧ disk.new node.new }
{
    let ping = word(rt, alloc, "test.ping");
    if node.node().me().place() != 0 {
        return Ending::Other;
    }
    match node.publish(disk, moment, Kind::Glob, tgt, &ping, &[]) {
        Ok(_) => Ending::Published,
        Err(fault) => Ending::Unpublished(fault),
    }
}

fn ask(
    rt: &impl Abort,
    alloc: Global,
    node: &mut JournalledNode,
    disk: &mut MemDisk,
    call: Call,
) -> Ending
    requires { StandsIfUp ⟦<MemDisk as Disk>⟧ disk.old node.old }
    ensures { StandsIfUp ⟦<MemDisk as Disk>⟧ disk.new node.new }
{
    match call {
        Call::Load => Ending::Loaded,
        Call::Publish(moment) => publish(rt, alloc, node, disk, moment, "*"),
        Call::PublishNothing => publish(rt, alloc, node, disk, 7, ""),
        Call::Job(from, seq, moment) => take_job(rt, alloc, node, disk, from, seq, moment),
        Call::Start(from, minion, n) => take_start(rt, node, disk, from, minion, n),
    }
}

// Loads the node at this place, and calls it.
fn run(
    rt: &impl Abort,
    alloc: Global,
    fleet: &Fleet,
    me: u32,
    disk: &mut MemDisk,
    call: Call,
) -> Ending {
    if me >= fleet.count() {
        return Ending::Other;
    }
    match JournalledNode::load(alloc, fleet, NodeId::new(me), disk) {
        Ok(mut node) => ask(rt, alloc, &mut node, disk, call),
        Err(fault) => Ending::Unloaded(fault),
    }
}

// Loads the node at this place, and calls it twice.
fn run_both(
    rt: &impl Abort,
    alloc: Global,
    fleet: &Fleet,
    me: u32,
    disk: &mut MemDisk,
    calls: (Call, Call),
) -> (Ending, Ending, bool) {
    if me >= fleet.count() {
        return (Ending::Other, Ending::Other, false);
    }
    match JournalledNode::load(alloc, fleet, NodeId::new(me), disk) {
        Ok(mut node) => {
            let first = ask(rt, alloc, &mut node, disk, calls.0);
            let second = ask(rt, alloc, &mut node, disk, calls.1);
            (first, second, node.is_down())
        }
        Err(fault) => (Ending::Unloaded(fault), Ending::Other, false),
    }
}

// How many jobs the node at this place holds, and how many entries of a minion, once it is loaded.
fn held(
    rt: &impl Abort,
    alloc: Global,
    fleet: &Fleet,
    me: u32,
    disk: &mut MemDisk,
    minion: &str,
) -> (u32, usize) {
    let minion = id(rt, minion);
    if me >= fleet.count() {
        return (99, 99);
    }
    match JournalledNode::load(alloc, fleet, NodeId::new(me), disk) {
        Ok(node) => (node.node().jobs_held(), node.node().log(&minion).len()),
        Err(_) => (99, 99),
    }
}

// A disk with the log of a node without a record, of this limit.
fn fresh(rt: &impl Abort, alloc: Global, limit: u64) -> MemDisk {
    let mut disk = MemDisk::new(alloc);
    if limit < 64 || limit > 1_073_741_824 {
        panic!(rt; "{FAILED}");
    }
    JournalledNode::create(&mut disk, limit).expect(rt, FAILED);
    disk
}

/// Calls on the node at this place, each after a load, and how they end.
type Steps = (u32, &'static [(Call, Ending)]);

// What a node of each role does over a restart before each call: it goes on with its records.
static STEPS: [Steps; 3] = [
    (
        0,
        &[
            (Call::Publish(7), Ending::Published),
            (Call::Publish(8), Ending::Published),
            (Call::Start(1, "m1", 0), Ending::Entries(1)),
            (Call::Start(1, "m1", 0), Ending::Entries(1)),
            (Call::Start(1, "m1", 1), Ending::Entries(2)),
            (
                Call::Start(1, "m3", 0),
                Ending::Untaken(TakeFault::Stray {
                    cause: Stray::NotBelow,
                }),
            ),
            (Call::Load, Ending::Loaded),
        ],
    ),
    (
        1,
        &[
            (Call::Job(0, 0, 7), Ending::Jobs(1)),
            (Call::Job(0, 0, 7), Ending::Jobs(1)),
            (
                Call::Job(0, 1, 7),
                Ending::Untaken(TakeFault::Stray {
                    cause: Stray::WrongWay,
                }),
            ),
            (Call::Job(0, 1, 8), Ending::Jobs(2)),
            (Call::Start(2, "m1", 0), Ending::Entries(1)),
        ],
    ),
    (
        2,
        &[
            (Call::Job(1, 0, 7), Ending::Jobs(1)),
            (Call::Job(1, 0, 7), Ending::Jobs(1)),
            (Call::Job(1, 1, 7), Ending::Jobs(2)),
        ],
    ),
];

fn does(
    rt: &impl Abort,
    alloc: Global,
    fleet: &Fleet,
    me: u32,
    disk: &mut MemDisk,
    steps: &[(Call, Ending)],
) {
    for (i, (call, ending)) in steps.iter().enumerate() {
        assert_eq!(rt;
            run(rt, alloc, fleet, me, disk, *call),
            *ending,
            "step {i} at {me}"
        );
    }
}

fn holds(
    rt: &impl Abort,
    alloc: Global,
    fleet: &Fleet,
    me: u32,
    disk: &mut MemDisk,
    wanted: (u32, usize),
) {
    assert_eq!(rt; held(rt, alloc, fleet, me, disk, "m1"), wanted);
}

// The jobs that each of them then holds, and the entries of m1: a minion has its own starts, one of each load, and a return of each job.
static HELD: [(u32, usize); 3] = [(2, 2), (2, 1), (2, 6)];

#[test]
fn nodes_go_on_with_their_records(rt: HostRuntime) {
    let alloc = rt.alloc();
    let fleet = grown(&rt, alloc);
    for ((me, steps), wanted) in STEPS.iter().zip(HELD.iter()) {
        let mut disk = fresh(&rt, alloc, 4096);
        does(&rt, alloc, &fleet, *me, &mut disk, steps);
        holds(&rt, alloc, &fleet, *me, &mut disk, *wanted);
    }
}

/// A call at the node of this place; the changing calls of its load; and what the node holds, loaded once more, with the call's record and
/// without it.
type Stopped = (u32, Call, u64, (u32, usize), (u32, usize));

static STOPPED: [Stopped; 5] = [
    (0, Call::Publish(7), 3, (1, 0), (0, 0)),
    (0, Call::Start(1, "m1", 0), 3, (0, 1), (0, 0)),
    (1, Call::Job(0, 0, 7), 3, (1, 0), (0, 0)),
    (1, Call::Start(2, "m1", 0), 3, (0, 1), (0, 0)),
    (2, Call::Job(1, 0, 7), 7, (1, 3), (0, 2)),
];

static PICKS: [u8; 4] = [0x00, 0x01, 0x07, 0xff];

static CUTS: [u64; 3] = [0, 1, 1000];

// The call's record is kept where its append ended, and from its third changing call on where the byte of an open gate is picked.
fn is_kept(passes: u64, pick: u8) -> bool {
    if passes >= 4 {
        return true;
    }
    if passes >= 2 {
        return pick == 0x01;
    }
    false
}

// What is left where so many changing calls of the load and the call passed.
fn left(
    rt: &impl Abort,
    alloc: Global,
    fleet: &Fleet,
    me: u32,
    call: Call,
    passes: u64,
    crash: (u8, u64),
) -> (u32, usize) {
    let mut disk = fresh(rt, alloc, 4096);
    disk.crash(0, 0).expect(rt, FAILED);
    disk.arm(passes);
    let _ending = run(rt, alloc, fleet, me, &mut disk, call);
    disk.crash(crash.0, crash.1).expect(rt, FAILED);
    held(rt, alloc, fleet, me, &mut disk, "m1")
}

fn leaves(rt: &impl Abort, alloc: Global, fleet: &Fleet, stopped: Stopped, crash: (u8, u64)) {
    let (me, call, before, with, without) = stopped;
    for passes in 0..5 {
        let wanted = if is_kept(passes, crash.0) {
            with
        } else {
            without
        };
        let left = left(
            rt,
            alloc,
            fleet,
            me,
            call,
            before.saturating_add(passes),
            crash,
        );
        assert_eq!(rt; left, wanted, "{passes} calls at {me}");
    }
}

#[test]
fn what_a_stop_leaves_of_a_call(rt: HostRuntime) {
    let alloc = rt.alloc();
    let fleet = grown(&rt, alloc);
    for stopped in &STOPPED {
        for pick in &PICKS {
            for cut in &CUTS {
                leaves(&rt, alloc, &fleet, *stopped, (*pick, *cut));
            }
        }
    }
}

// What is left of a load: how many changing calls pass, the byte that the crash picks, and how many starts the minion then has, loaded once
// more.
static LOADS: [(u64, u8, usize); 11] = [
    (0, 0x01, 1),
    (2, 0x01, 1),
    (3, 0x01, 1),
    (4, 0x01, 1),
    (5, 0x00, 1),
    (5, 0x01, 2),
    (5, 0x07, 1),
    (6, 0x00, 1),
    (6, 0x01, 2),
    (7, 0x00, 2),
    (7, 0x01, 2),
];

fn starts(rt: &impl Abort, alloc: Global, fleet: &Fleet, load: (u64, u8, usize)) {
    let (passes, pick, count) = load;
    for cut in &CUTS {
        let left = left(rt, alloc, fleet, 2, Call::Load, passes, (pick, *cut));
        assert_eq!(rt; left, (0, count), "{passes} calls");
    }
}

#[test]
fn what_a_stop_leaves_of_a_load(rt: HostRuntime) {
    let alloc = rt.alloc();
    let fleet = grown(&rt, alloc);
    for load in &LOADS {
        starts(&rt, alloc, &fleet, *load);
    }
}

/// Two calls on the node at a place, of which so many changing calls pass with its load's, and how they end.
type Failing = (u32, u64, (Call, Call), (Ending, Ending, bool));

static FAILING: [Failing; 4] = [
    (
        0,
        4,
        (Call::Publish(7), Call::Publish(8)),
        (
            Ending::Unpublished(PublishFault::Disk),
            Ending::Unpublished(PublishFault::Down),
            true,
        ),
    ),
    (
        0,
        6,
        (Call::Start(1, "m1", 0), Call::Start(1, "m1", 0)),
        (
            Ending::Untaken(TakeFault::Disk),
            Ending::Untaken(TakeFault::Down),
            true,
        ),
    ),
    (
        2,
        8,
        (Call::Job(1, 0, 7), Call::Publish(7)),
        (Ending::Untaken(TakeFault::Disk), Ending::Other, true),
    ),
    (
        2,
        6,
        (Call::Load, Call::Load),
        (Ending::Unloaded(LoadFault::Disk), Ending::Other, false),
    ),
];

fn fails(rt: &impl Abort, alloc: Global, fleet: &Fleet, failing: Failing) {
    let (me, passes, calls, endings) = failing;
    let mut disk = fresh(rt, alloc, 4096);
    disk.crash(0, 0).expect(rt, FAILED);
    disk.arm(passes);
    let ended = run_both(rt, alloc, fleet, me, &mut disk, calls);
    assert_eq!(rt; ended, endings);
}

#[test]
fn a_node_is_down_after_its_disk_failed(rt: HostRuntime) {
    let alloc = rt.alloc();
    let fleet = grown(&rt, alloc);
    for failing in &FAILING {
        fails(&rt, alloc, &fleet, *failing);
    }
}

// The top's refusals, after which the next order is published as if they had not been.
static REFUSED: [(Call, Ending); 3] = [
    (
        Call::PublishNothing,
        Ending::Unpublished(PublishFault::Refused {
            cause: PublishRefusal::Target {
                fault: TargetFault::Empty,
            },
        }),
    ),
    (
        Call::Job(1, 0, 7),
        Ending::Untaken(TakeFault::Stray {
            cause: Stray::WrongWay,
        }),
    ),
    (Call::Publish(7), Ending::Published),
];

#[test]
fn what_is_refused_leaves_no_record(rt: HostRuntime) {
    let alloc = rt.alloc();
    let fleet = grown(&rt, alloc);
    let mut disk = fresh(&rt, alloc, 4096);
    does(&rt, alloc, &fleet, 0, &mut disk, &REFUSED);
    holds(&rt, alloc, &fleet, 0, &mut disk, (1, 0));
}

// A journal of 64 bytes has room for seven starts, of six bytes each behind the first seventeen.
const LONG: Ending = Ending::Unloaded(LoadFault::Full {
    length: 65,
    limit: 64,
});

fn fills(rt: &impl Abort, alloc: Global, fleet: &Fleet, disk: &mut MemDisk) {
    for count in 1..10 {
        let wanted = if count <= 7 { Ending::Loaded } else { LONG };
        assert_eq!(rt;
            run(rt, alloc, fleet, 2, disk, Call::Load),
            wanted,
            "load {count}"
        );
    }
}

// A record of such a job has 37 bytes, so that there is room for one.
static ONE_ORDER: [(Call, Ending); 2] = [
    (Call::Publish(7), Ending::Published),
    (
        Call::Publish(8),
        Ending::Unpublished(PublishFault::Full {
            length: 101,
            limit: 64,
        }),
    ),
];

static ONE_JOB: [(Call, Ending); 2] = [
    (Call::Job(0, 0, 7), Ending::Jobs(1)),
    (
        Call::Job(0, 1, 8),
        Ending::Untaken(TakeFault::Full {
            length: 101,
            limit: 64,
        }),
    ),
];

#[test]
fn a_full_journal(rt: HostRuntime) {
    let alloc = rt.alloc();
    let fleet = grown(&rt, alloc);
    let mut disk = fresh(&rt, alloc, 64);
    fills(&rt, alloc, &fleet, &mut disk);
    let mut top = fresh(&rt, alloc, 64);
    does(&rt, alloc, &fleet, 0, &mut top, &ONE_ORDER);
    holds(&rt, alloc, &fleet, 0, &mut top, (1, 0));
    let mut syndic = fresh(&rt, alloc, 64);
    does(&rt, alloc, &fleet, 1, &mut syndic, &ONE_JOB);
    holds(&rt, alloc, &fleet, 1, &mut syndic, (1, 0));
}

// Adds a payload to the log of a disk.
fn add(rt: &impl Abort, alloc: Global, disk: &mut MemDisk, payload: &[u8]) {
    match Log::load(alloc, disk) {
        Ok((mut log, _content)) => log.append(alloc, disk, payload).expect(rt, FAILED),
        Err(_) => panic!(rt; "{FAILED}"),
    }
}

/// The payloads of a log, the place of a node, and that of the gate at which its load finds damage, if it does. A byte 6 is a start; 7, a job
/// that a minion ran, by its number; 2, an entry of a minion at a master, here its start.
type Damage = (&'static [&'static [u8]], u32, Option<u64>);

static DAMAGE: [Damage; 16] = [
    (&[], 2, None),
    (&[b"\x06", b"\x06"], 2, None),
    (
        &[b"\x07\0\0\0\0\0\0\0\0\0", b"\x07\0\0\0\x01\0\0\0\0\0"],
        2,
        None,
    ),
    (&[b"\x06", b"\x07\0\0\0\x01\0\0\0\0\0"], 2, Some(22)),
    (
        &[b"\x07\0\0\0\0\0\0\0\0\0", b"\x07\0\0\0\0\0\0\0\0\0"],
        2,
        Some(31),
    ),
    (&[b""], 2, Some(16)),
    (&[b"\x08"], 2, Some(16)),
    (&[b"\x06\0"], 2, Some(16)),
    (&[b"\x06", b"\x07\0\0\0\0\x02\0\0\0\0"], 2, Some(22)),
    (&[b"\x02\x02m1\x03\0\0\0\x01"], 2, Some(16)),
    (&[b"\x06"], 0, Some(16)),
    (&[b"\x06"], 1, Some(16)),
    (
        &[b"\x02\x02m1\x03\0\0\0\x01", b"\x02\x02m3\x03\0\0\0\x01"],
        0,
        None,
    ),
    (
        &[b"\x02\x02m1\x03\0\0\0\x01", b"\x02\x02m3\x03\0\0\0\x01"],
        1,
        Some(30),
    ),
    (
        &[b"\x02\x02m1\x03\0\0\0\x01", b"\x02\x02sa\x03\0\0\0\x01"],
        0,
        Some(30),
    ),
    // A return of a job that the top doesn't hold.
    (&[b"\x02\x02m1\x01\0\0\0\0\0\x01"], 0, Some(16)),
];

fn found(place: Option<u64>) -> Ending {
    match place {
        None => Ending::Loaded,
        Some(at) => Ending::Unloaded(LoadFault::Damaged {
            part: Part::Even,
            at,
        }),
    }
}

fn with_payloads(rt: &impl Abort, alloc: Global, payloads: &[&'static [u8]]) -> MemDisk {
    let mut disk = fresh(rt, alloc, 4096);
    for payload in payloads {
        add(rt, alloc, &mut disk, payload);
    }
    disk
}

fn finds(
    rt: &impl Abort,
    alloc: Global,
    fleet: &Fleet,
    me: u32,
    disk: &mut MemDisk,
    wanted: Ending,
) {
    assert_eq!(rt; run(rt, alloc, fleet, me, disk, Call::Load), wanted);
}

#[test]
fn strange_records_are_damage(rt: HostRuntime) {
    let alloc = rt.alloc();
    let fleet = grown(&rt, alloc);
    for (payloads, me, place) in &DAMAGE {
        let mut disk = with_payloads(&rt, alloc, payloads);
        finds(&rt, alloc, &fleet, *me, &mut disk, found(*place));
    }
}

// The record of a publication with the jid of this moment.
fn published(rt: &impl Abort, alloc: Global, moment: u64) -> Vec<u8> {
    let job = job(rt, alloc, moment);
    write_record(alloc, &Deed::Publish { job }).expect(rt, FAILED)
}

#[test]
fn a_jid_that_does_not_rise_is_damage(rt: HostRuntime) {
    let alloc = rt.alloc();
    let fleet = grown(&rt, alloc);
    let record = published(&rt, alloc, 7);
    let mut disk = fresh(&rt, alloc, 4096);
    add(&rt, alloc, &mut disk, record.as_slice());
    finds(&rt, alloc, &fleet, 0, &mut disk, Ending::Loaded);
    finds(&rt, alloc, &fleet, 1, &mut disk, found(Some(16)));
    add(&rt, alloc, &mut disk, record.as_slice());
    let at = 21 + record.len() as u64;
    finds(&rt, alloc, &fleet, 0, &mut disk, found(Some(at)));
}

#[test]
fn a_disk_without_a_journal(rt: HostRuntime) {
    let alloc = rt.alloc();
    let fleet = grown(&rt, alloc);
    let mut disk = MemDisk::new(alloc);
    finds(
        &rt,
        alloc,
        &fleet,
        0,
        &mut disk,
        Ending::Unloaded(LoadFault::NotAJournal),
    );
}
