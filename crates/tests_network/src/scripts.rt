//! Scripts: what is read of a text, and the most minions. Which texts are refused, and at which line, is told by rows.
use script_text::{MOST_SCRIPT_BYTES, Script, ScriptFault, Turn, read_script};
use std::alloc::Global;
use std::process::Abort;
use target_tree::Kind;

// What is said where a step that must succeed doesn't.
const FAILED: &str = "memory, or a right text";

// The script of a text, which is not too long.
fn read(alloc: Global, text: &str) -> Result<Script, ScriptFault> {
    let bytes = text.as_bytes();
    if bytes.len() > MOST_SCRIPT_BYTES {
        return Err(ScriptFault::NoMemory);
    }
    read_script(alloc, bytes)
}

const TEXT: &str =
    "%fleet\nnodes:\n- id: top\n  role: top\n- id: m1\n  role: minion\n  parent: top\n- id: m2\n  role: minion\n  parent: top\n%schedule\n\
publish 7 glob test.ping [\"m[!1]\"]\n\
send m2 top 9\n\
send top m1 3\n\
deliver 11\n\
report 20231114221320000000\n\
%end\n";

static MINIONS: [&str; 2] = ["m1", "m2"];

fn has_nodes(rt: &impl Abort, script: &Script) {
    assert_eq!(rt;
        (script.top.as_str(), script.minions.len()),
        ("top", MINIONS.len())
    );
    for (minion, id) in script.minions.as_slice().iter().zip(MINIONS.iter()) {
        assert_eq!(rt; minion.as_str(), *id);
    }
}

// The kind of a turn, and its numbers.
fn told(turn: &Turn) -> (&'static str, u64, u64, u64) {
    match turn {
        Turn::Publish { moment, .. } => ("publish", *moment, 0, 0),
        Turn::Send { from, to, count } => (
            "send",
            u64::from(from.place()),
            u64::from(to.place()),
            *count,
        ),
        Turn::Deliver { packet } => ("deliver", *packet, 0, 0),
        Turn::Report { .. } => ("report", 0, 0, 0),
        Turn::Settle => ("settle", 0, 0, 0),
        Turn::Exit { .. } => ("exit", 0, 0, 0),
        Turn::Jobs => ("jobs", 0, 0, 0),
        Turn::Summary => ("summary", 0, 0, 0),
        Turn::Data { node } => ("data", u64::from(node.place()), 0, 0),
        Turn::Counts { node } => ("counts", u64::from(node.place()), 0, 0),
        Turn::Packet { packet } => ("packet", *packet, 0, 0),
    }
}

// Is this the glob of a publication, or the job id of a report? Other turns have none.
fn has_text(turn: &Turn, text: &str) -> bool {
    match turn {
        Turn::Publish { kind, tgt, .. } => *kind == Kind::Glob && tgt.as_str() == text,
        Turn::Report { jid } => jid.text().as_slice() == text.as_bytes(),
        _ => text.is_empty(),
    }
}

// What the turns of the text tell, in order.
static TURNS: [((&str, u64, u64, u64), &str); 5] = [
    (("publish", 7, 0, 0), "m[!1]"),
    (("send", 2, 0, 9), ""),
    (("send", 0, 1, 3), ""),
    (("deliver", 11, 0, 0), ""),
    (("report", 0, 0, 0), "20231114221320000000"),
];

fn has_turns(rt: &impl Abort, turns: &[Turn]) {
    assert_eq!(rt; turns.len(), TURNS.len());
    for (turn, (wanted, text)) in turns.iter().zip(TURNS.iter()) {
        assert_eq!(rt; (told(turn), has_text(turn, text)), (*wanted, true));
    }
}

#[test]
fn a_script_is_what_stands_there(rt: HostRuntime) {
    let script = read(rt.alloc(), TEXT).expect(&rt, FAILED);
    has_nodes(&rt, &script);
    has_turns(&rt, script.turns.as_slice());
}

// The text of a top and so many minions, and of these lines after them.
fn fleet(rt: &impl Abort, alloc: Global, count: u32, end: &str) -> String {
    let mut text = String::from_str(alloc, "%fleet\nnodes:\n- id: top\n  role: top\n").expect(
        rt, FAILED,
    );
    for n in 0..count {
        let member = format!(in alloc; "- id: m{n}\n  role: minion\n  parent: top\n").expect(
            rt, FAILED,
        );
        text.push_str(member.as_str()).expect(rt, FAILED);
    }
    text.push_str(end).expect(rt, FAILED);
    text
}

// The line at which a text is refused, and 0 for a script.
fn line_of(alloc: Global, text: &str) -> u32 {
    match read(alloc, text) {
        Ok(_) => 0,
        Err(ScriptFault::NotYet { line }) => line,
        Err(ScriptFault::NoMemory) => 99,
    }
}

// A count of minions, what follows them, and the line at which that is refused.
static MOST: [(u32, &str, u32); 2] = [
    (4096, "%schedule\nsend top m4095 1\n%end\n", 0),
    (4097, "%schedule\n%end\n", 5 + 3 * 4096),
];

fn is_refused_at(rt: &impl Abort, alloc: Global, text: &str, line: u32) {
    assert_eq!(rt; line_of(alloc, text), line);
}

#[test]
fn as_many_minions_as_there_may_be(rt: HostRuntime) {
    for (count, end, line) in &MOST {
        let text = fleet(&rt, rt.alloc(), *count, end);
        is_refused_at(&rt, rt.alloc(), text.as_str(), *line);
    }
}

// A carriage return, which no row can have, belongs to its line.
const RETURNED: &str = "%fleet\nnodes:\n- id: top\n  role: top\n%schedule\ndeliver 0\r\n%end\n";

#[test]
fn a_carriage_return_ends_no_line(rt: HostRuntime) {
    is_refused_at(&rt, rt.alloc(), RETURNED, 6);
}
