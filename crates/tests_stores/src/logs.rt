//! Logs of minions, and how they grow.
use salt_wire::Entry;
use std::process::Abort;
use up_logs::UpLogs;

// What is said where a step that must succeed doesn't.
const FAILED: &str = "memory, and room in a log";

// What is told in order: at which place, and the number of the start.
static TOLD: [(u32, u32); 5] = [(2, 7), (0, 1), (2, 8), (0, 4294967295), (2, 9)];

// A place, how many entries its log has, and the starts that the first and the last one tell, 0 where there is none.
type Seen = (u32, u32, u32, u32);

// What is seen at each place then.
static SEEN: [Seen; 4] = [
    (0, 2, 1, 4294967295),
    (1, 0, 0, 0),
    (2, 3, 7, 9),
    (3, 0, 0, 0),
];

// What is seen at each place once the last entry of the logs at 1 and 2 is gone.
static POPPED: [Seen; 4] = [
    (0, 2, 1, 4294967295),
    (1, 0, 0, 0),
    (2, 2, 7, 8),
    (3, 0, 0, 0),
];

// A start more in the log at a place.
fn tell(rt: &impl Abort, logs: &mut UpLogs, minion: u32, boot: u32) {
    if minion >= logs.minions() {
        panic!(rt; "{FAILED}");
    }
    if logs.count(minion) == 4294967295 {
        panic!(rt; "{FAILED}");
    }
    logs.push(minion, Entry::Start { boot }).expect(rt, FAILED);
}

// All that is told.
fn tell_all(rt: &impl Abort, logs: &mut UpLogs, told: &[(u32, u32)]) {
    for (minion, boot) in told {
        tell(rt, logs, *minion, *boot);
    }
}

// The last entry of the log at a place is gone.
fn pop(rt: &impl Abort, logs: &mut UpLogs, minion: u32) {
    if minion >= logs.minions() {
        panic!(rt; "{FAILED}");
    }
    logs.pop(minion);
}

// The start that an entry tells, and 0 where there is none.
fn boot_of(entry: Option<&Entry>) -> u32 {
    match entry {
        Some(Entry::Start { boot }) => *boot,
        _ => 0,
    }
}

// What is seen at a place.
fn seen_at(rt: &impl Abort, logs: &UpLogs, minion: u32) -> Seen {
    if minion >= logs.minions() {
        panic!(rt; "{FAILED}");
    }
    let entries = logs.entries(minion);
    (
        minion,
        logs.count(minion),
        boot_of(entries.first()),
        boot_of(entries.last()),
    )
}

// There is a log for each row of the table, which says what is seen of it.
fn has_logs(rt: &impl Abort, logs: &UpLogs, table: &[Seen]) {
    assert_eq!(rt; logs.minions() as usize, table.len());
    for row in table {
        assert_eq!(rt; seen_at(rt, logs, row.0), *row);
    }
}

#[test]
fn each_entry_is_the_last_of_its_log(rt: HostRuntime) {
    let mut logs = UpLogs::new(rt.alloc(), 4).expect(&rt, FAILED);
    tell_all(&rt, &mut logs, &TOLD);
    has_logs(&rt, &logs, &SEEN);
}

#[test]
fn the_last_entry_is_taken_away(rt: HostRuntime) {
    let mut logs = UpLogs::new(rt.alloc(), 4).expect(&rt, FAILED);
    tell_all(&rt, &mut logs, &TOLD);
    pop(&rt, &mut logs, 1);
    pop(&rt, &mut logs, 2);
    has_logs(&rt, &logs, &POPPED);
}

#[test]
fn without_minions_there_is_no_log(rt: HostRuntime) {
    let logs = UpLogs::new(rt.alloc(), 0).expect(&rt, FAILED);
    has_logs(&rt, &logs, &[]);
}
