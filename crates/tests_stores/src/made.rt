//! What the tests make: ids, jobs and returns.
use salt_value::{Items, Jid, MinionId, Outcome, Row, Text, Value, Word};
use salt_wire::Job;
use sqlite_items::Boxed;
use std::alloc::Global;
use std::process::Abort;
use target_tree::{Groups, Kind, read_target};

/// What is said where a step that must succeed doesn't.
pub const FAILED: &str = "memory, or a right text";

/// The id that a text is.
pub fn id(rt: &impl Abort, text: &str) -> MinionId {
    MinionId::read(text).expect(rt, FAILED)
}

/// The jid of a moment, in microseconds.
pub fn jid(rt: &impl Abort, moment: u64) -> Jid {
    Jid::next(None, moment).expect(rt, FAILED)
}

/// A ping of all minions, with the jid of this moment.
pub fn job(rt: &impl Abort, alloc: Global, moment: u64) -> Job {
    let groups = Groups::new(alloc);
    let tree = read_target(alloc, Kind::Glob, "*", &groups).expect(rt, FAILED);
    Job {
        jid: jid(rt, moment),
        kind: Kind::Glob,
        tgt: Text::new(String::from_str(alloc, "*").expect(rt, FAILED)),
        target: Boxed::new(alloc, tree).expect(rt, FAILED),
        fun: Word::read(alloc, "test.ping").expect(rt, FAILED),
        args: Items::new(alloc),
    }
}

/// A minion's return with this retcode.
pub fn row(rt: &impl Abort, text: &str, retcode: u8) -> Row {
    Row {
        id: id(rt, text),
        outcome: Outcome {
            retcode,
            value: Value::Flag(true),
        },
    }
}
