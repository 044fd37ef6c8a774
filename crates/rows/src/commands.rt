//! Commands by their words, and examples.
use crate::replays::{lines_of, pair_of, told};
use salt_commands::{read_words, run_command, run_example};
use salt_outside::{MemSink, MemSource};
use salt_replay::salt_main;
use salt_value::Text;
use std::alloc::{AllocError, Global};
use std::env::Args;
use std::io;

/// What these words do over a script of two minions without a turn.
pub fn command(alloc: Global, rest: &str) -> Result<String, AllocError> {
    let mut words = Vec::new(alloc);
    for word in rest.split(' ') {
        if !word.is_empty() {
            words.push(Text::new(String::from_str(alloc, word)?))?;
        }
    }
    let script = pair_of(alloc, "%end|")?;
    let mut source = MemSource::new(lines_of(alloc, script.as_str())?, Vec::new(alloc));
    let mut sink = MemSink::new(alloc, Vec::new(alloc));
    let status = salt_main(alloc, words.as_slice(), &mut source, &mut sink);
    told(alloc, status.code, sink.bytes())
}

/// What these words of a command line do over a script: the words with commas between them, and behind ` ~ ` the script.
pub fn words(alloc: Global, rest: &str) -> Result<String, AllocError> {
    let (list, script) = parted(rest);
    let mut args = Vec::new(alloc);
    args.push(String::from_str(alloc, "salt_node")?)?;
    add_all(alloc, &mut args, list)?;
    run(alloc, Ok(args.into_iter()), script)
}

/// The same of a program's arguments, of which the first is its own name.
pub fn args(alloc: Global, rest: &str) -> Result<String, AllocError> {
    let (list, script) = parted(rest);
    let mut args = Vec::new(alloc);
    add_all(alloc, &mut args, list)?;
    run(alloc, Ok(args.into_iter()), script)
}

/// What is done over a script where the system gave no arguments but an error of this kind.
pub fn unread(alloc: Global, rest: &str) -> Result<String, AllocError> {
    let (kind, script) = parted(rest);
    let kind = match kind {
        "InvalidData" => io::ErrorKind::InvalidData,
        "InvalidInput" => io::ErrorKind::InvalidInput,
        "OutOfMemory" => io::ErrorKind::OutOfMemory,
        _ => io::ErrorKind::Other,
    };
    run(alloc, Err(io::Error::from(kind)), script)
}

/// How an example ends: a script, and behind ` ~ ` what is wanted.
pub fn example(alloc: Global, rest: &str) -> Result<String, AllocError> {
    let (script, wanted) = parted(rest);
    let script = lines_of(alloc, script)?;
    let wanted = lines_of(alloc, wanted)?;
    let ending = run_example(alloc, script.as_slice(), wanted.as_slice());
    format!(in alloc; "{ending:?}")
}

fn parted(rest: &str) -> (&str, &str) {
    rest.split_once(" ~ ").unwrap_or((rest, ""))
}

// Adds the texts of a list with commas between them; an empty list has none.
fn add_all(alloc: Global, args: &mut Vec<String>, list: &str) -> Result<(), AllocError> {
    if list.is_empty() {
        return Ok(());
    }
    for word in list.split(',') {
        args.push(String::from_str(alloc, word)?)?;
    }
    Ok(())
}

fn run(alloc: Global, args: io::Result<Args>, script: &str) -> Result<String, AllocError> {
    let words = read_words(alloc, args);
    let mut source = MemSource::new(lines_of(alloc, script)?, Vec::new(alloc));
    let mut sink = MemSink::new(alloc, Vec::new(alloc));
    let status = run_command(alloc, &words, &mut source, &mut sink);
    told(alloc, status.code, sink.bytes())
}
