//! Whole runs. `|` stands for a line feed, in scripts and in what they write.
use crate::spread::cut;
use salt_outside::{MemSink, MemSource};
use salt_replay::run_replay;
use std::alloc::{AllocError, Global};

/// A top with the minions m1 and m2.
const PAIR: &str =
    "%fleet|nodes:|- id: top|  role: top|- id: m1|  role: minion|  parent: top|- id: m2|  role: minion|  parent: top|%schedule|";

/// Which calls fail: those of the source, or those of the sink.
#[derive(Clone, Copy)]
pub enum Failing {
    Read,
    Write,
}

/// What a script writes, and the status.
pub fn replay(alloc: Global, script: &str) -> Result<String, AllocError> {
    run(alloc, script, 0, 0)
}

/// The same of a schedule over two minions.
pub fn pair(alloc: Global, turns: &str) -> Result<String, AllocError> {
    run(alloc, pair_of(alloc, turns)?.as_str(), 0, 0)
}

/// The same where the call of this number on the source or on the sink fails, from 1.
pub fn pair_that_fails(alloc: Global, which: Failing, rest: &str) -> Result<String, AllocError> {
    let (number, turns) = cut(rest);
    let number = number.parse::<u64>().unwrap_or(0);
    let script = pair_of(alloc, turns)?;
    match which {
        Failing::Read => run(alloc, script.as_str(), number, 0),
        Failing::Write => run(alloc, script.as_str(), 0, number),
    }
}

/// The script of a schedule over two minions.
pub fn pair_of(alloc: Global, turns: &str) -> Result<String, AllocError> {
    let mut script = String::from_str(alloc, PAIR)?;
    script.push_str(turns)?;
    Ok(script)
}

/// A text whose lines end with `|`, as bytes.
pub fn lines_of(alloc: Global, text: &str) -> Result<Vec<u8>, AllocError> {
    let mut bytes = Vec::new(alloc);
    for byte in text.as_bytes() {
        bytes.push(if *byte == b'|' { b'\n' } else { *byte })?;
    }
    Ok(bytes)
}

// A run in which these calls of the source and the sink fail, 0 for none.
fn run(alloc: Global, script: &str, read: u64, write: u64) -> Result<String, AllocError> {
    let mut source = MemSource::new(lines_of(alloc, script)?, vec![in alloc; read]?);
    let mut sink = MemSink::new(alloc, vec![in alloc; write]?);
    let status = run_replay(alloc, &mut source, &mut sink);
    told(alloc, status.code, sink.bytes())
}

/// A status, and what was written, with `|` for line feeds.
pub fn told(alloc: Global, status: u8, written: &[u8]) -> Result<String, AllocError> {
    let mut text = format!(in alloc; "status {status}: ")?;
    for byte in written {
        text.push(if *byte == b'\n' { '|' } else { *byte as char })?;
    }
    Ok(text)
}
