//! Messages.
ghost use Rattle.salt_wire.specs.Limits.{Within};

use crate::digits::{bytes_of, digits_of};
use crate::trees::tree_text;
use salt_value::{Fields, MinionId, Value};
use salt_wire::{Entry, Job, Message, decode, encode};
use std::alloc::{AllocError, Global};

/// What the message of a body tells, and its body again.
pub fn message(alloc: Global, rest: &str) -> Result<String, AllocError> {
    match bytes_of(alloc, rest)? {
        Some(bytes) => decoded(alloc, &bytes),
        None => String::from_str(alloc, "no bytes"),
    }
}

fn decoded(alloc: Global, body: &[u8]) -> Result<String, AllocError> {
    match decode(alloc, body) {
        Ok(message) => told_again(alloc, &message, body),
        Err(fault) => format!(in alloc; "{fault:?}"),
    }
}

// What a message that was decoded tells, and its body again.
fn told_again(alloc: Global, message: &Message, body: &[u8]) -> Result<String, AllocError>
    requires { Within message.now }
{
    let text = told(alloc, message)?;
    let mut out = Vec::new(alloc);
    encode(message, &mut out)?;
    let digits = digits_of(alloc, &out, body)?;
    format!(in alloc; "{text}, {digits}")
}

fn job_text(alloc: Global, seq: u32, job: &Job) -> Result<String, AllocError> {
    let tree = tree_text(alloc, job.target.get())?;
    format!(in alloc;
        "pub {seq} {} {} {} {tree}{} {}",
        job.jid.micros(),
        job.kind.name(),
        job.tgt.as_str(),
        job.fun.as_str(),
        job.args.as_slice().len()
    )
}

fn value_text(alloc: Global, value: &Value) -> Result<String, AllocError> {
    match value.scalar_text(alloc)? {
        Some(text) => String::from_str(alloc, text.as_str()),
        None => String::from_str(alloc, "no scalar"),
    }
}

// The last key, or a line where there is none.
fn key_text(fields: &Fields) -> &str {
    match fields.last_key() {
        Some(key) => std::str::from_utf8(key).unwrap_or("?"),
        None => "-",
    }
}

fn entry_text(alloc: Global, entry: &Entry) -> Result<String, AllocError> {
    match entry {
        Entry::Return { seq, outcome } => {
            let value = value_text(alloc, &outcome.value)?;
            format!(in alloc; "return {seq} {} {value}", outcome.retcode)
        }
        Entry::Fired { event } => {
            let value = value_text(alloc, &event.body)?;
            format!(in alloc; "fired {} {value}", event.tag.as_str())
        }
        Entry::Start { boot } => format!(in alloc; "start {boot}"),
        Entry::Mine {
            seq,
            mine,
            grains,
            pillar,
        } => format!(in alloc;
            "mine {seq} {} {} {}",
            key_text(mine),
            key_text(grains),
            key_text(pillar)
        ),
    }
}

fn up_text(alloc: Global, minion: &MinionId, n: u32, entry: &Entry) -> Result<String, AllocError> {
    let text = entry_text(alloc, entry)?;
    format!(in alloc; "up {minion} {n} {text}")
}

// A text of a message. Of more than 64 bytes their number is told.
fn shown(alloc: Global, text: &str) -> Result<String, AllocError> {
    if text.len() <= 64 {
        String::from_str(alloc, text)
    } else {
        format!(in alloc; "({} bytes)", text.len())
    }
}

fn told(alloc: Global, message: &Message) -> Result<String, AllocError> {
    match message {
        Message::Pub { seq, job } => job_text(alloc, *seq, job),
        Message::Have { jobs } => format!(in alloc; "have {jobs}"),
        Message::Up { minion, n, entry } => up_text(alloc, minion, *n, entry),
        Message::UpHave { minion, n } => format!(in alloc; "have {minion} {n}"),
        Message::Hello { id } => format!(in alloc; "hello {id}"),
        Message::End => String::from_str(alloc, "end"),
        Message::AskPublish {
            kind,
            tgt,
            fun,
            args,
        } => format!(in alloc;
            "publish {} {} {} {}",
            kind.name(),
            tgt.as_str(),
            fun.as_str(),
            args.as_slice().len()
        ),
        Message::AskReport { jid } => format!(in alloc; "report {}", jid.micros()),
        Message::AskJobs => String::from_str(alloc, "jobs"),
        Message::AskMine { kind, tgt, fun } => format!(in alloc;
            "mine {} {} {}",
            kind.name(),
            tgt.as_str(),
            fun.as_str()
        ),
        Message::Answer { status, text } => {
            let text = shown(alloc, text.as_str())?;
            format!(in alloc; "answer {status} {text}")
        }
    }
}
