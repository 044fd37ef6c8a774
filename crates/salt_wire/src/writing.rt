//! Messages written as bytes. After an error some of the bytes may stand at the end.
ghost use Rattle.std.specs.Prelude.{◌≡◌, ◌<◌, ◌≤◌, ◌^◌, ◌++◌, ◌∷◌, true, List, ℕ, length, take, OnOk, OnErr};
ghost use Rattle.salt_value.specs.Spelling.{bytes, text as spelled_text};
ghost use Rattle.salt_value.specs.WellFormed.{ValueFits};
ghost use Rattle.salt_value.specs.declared.value.Value.TheVariants as v;
ghost use Rattle.salt_wire.specs.Spelling as spelling;
ghost use Rattle.salt_wire.specs.Spelling.{question, AddsBody};
ghost use Rattle.salt_wire.specs.declared.message.Message.TheVariants as m;
ghost use Rattle.salt_wire.specs.Limits.{IsText, JobFits, EntryFits, Within};
ghost use Rattle.salt_wire.specs.Limits as limits;

use crate::message::{Entry, Job, Message};
use salt_value::{MinionId, Text, Value, Word, put_text, put_u16, put_u32, put_u64};
use std::alloc::AllocError;
use target_tree::{Kind, Target};

// An id, after the byte of its length.
pub fn put_id(out: &mut Vec<u8>, id: &MinionId) -> Result<(), AllocError>
    ensures ok { OnOk result (out.new.items ≡ out.old.items ++ spelling.id id.now) }
    ensures err { OnErr result ((more : List ℕ) × (out.new.items ≡ out.old.items ++ more)) }
{
    let bytes = id.as_bytes();
    out.push(bytes.len() as u8)?;
    out.extend_from_slice(bytes)
}

// A word, after the two bytes of its length.
pub fn put_word(out: &mut Vec<u8>, word: &Word) -> Result<(), AllocError>
    ensures ok { OnOk result (out.new.items ≡ out.old.items ++ spelling.word word.now) }
    ensures err { OnErr result ((more : List ℕ) × (out.new.items ≡ out.old.items ++ more)) }
{
    let bytes = word.as_bytes();
    put_u16(out, bytes.len() as u16)?;
    out.extend_from_slice(bytes)
}

// A list of values.
fn put_items(out: &mut Vec<u8>, items: &[Value]) -> Result<(), AllocError>
    requires { ValueFits (v.List items.now) }
    ensures ok { OnOk result (out.new.items ≡ out.old.items ++ bytes (v.List items.now)) }
    ensures err { OnErr result ((more : List ℕ) × (out.new.items ≡ out.old.items ++ more)) }
{
    out.push(0x05)?;
    put_u32(out, items.len() as u32)?;
    for item in items {
        item.write(out)?;
    }
    Ok(())
}

// A key and its value.
fn put_pair(out: &mut Vec<u8>, key: &Text, value: &Value) -> Result<(), AllocError>
    requires { (length key.now < 2 ^ 32) × ValueFits value.now }
    ensures ok { OnOk result (out.new.items ≡ out.old.items ++ spelling.pair key.now value.now) }
    ensures err { OnErr result ((more : List ℕ) × (out.new.items ≡ out.old.items ++ more)) }
{
    put_text(out, key.as_bytes())?;
    value.write(out)?;
    Ok(())
}

// A map of values.
fn put_fields(out: &mut Vec<u8>, pairs: &[(Text, Value)]) -> Result<(), AllocError>
    requires { ValueFits (v.Map pairs.now) }
    ensures ok { OnOk result (out.new.items ≡ out.old.items ++ bytes (v.Map pairs.now)) }
    ensures err { OnErr result ((more : List ℕ) × (out.new.items ≡ out.old.items ++ more)) }
{
    out.push(0x06)?;
    put_u32(out, pairs.len() as u32)?;
    for (key, value) in pairs {
        put_pair(out, key, value)?;
    }
    Ok(())
}

// Ids, after the two bytes of their number.
fn put_ids(out: &mut Vec<u8>, ids: &[MinionId]) -> Result<(), AllocError>
    requires { length ids.now ≤ 65535 }
    ensures ok { OnOk result (out.new.items ≡ out.old.items ++ spelling.ids ids.now) }
    ensures err { OnErr result ((more : List ℕ) × (out.new.items ≡ out.old.items ++ more)) }
{
    put_u16(out, ids.len() as u16)?;
    for id in ids {
        put_id(out, id)?;
    }
    Ok(())
}

// A tag and a text.
fn put_leaf(out: &mut Vec<u8>, tag: u8, text: &Text) -> Result<(), AllocError>
    requires { length text.now < 2 ^ 32 }
    ensures ok { OnOk result (out.new.items ≡ out.old.items ++ tag ∷ spelled_text text.now) }
    ensures err { OnErr result ((more : List ℕ) × (out.new.items ≡ out.old.items ++ more)) }
{
    out.push(tag)?;
    put_text(out, text.as_bytes())
}

// A target's tree.
fn put_tree(out: &mut Vec<u8>, tree: &Target) -> Result<(), AllocError>
    requires { limits.right tree.now ≡ true }
    ensures ok { OnOk result (out.new.items ≡ out.old.items ++ spelling.tree_bytes tree.now) }
    ensures err { OnErr result ((more : List ℕ) × (out.new.items ≡ out.old.items ++ more)) }
{
    match tree {
        Target::IdGlob(glob) => put_leaf(out, 0x01, glob)?,
        Target::IdPcre(pattern) => put_leaf(out, 0x02, pattern)?,
        Target::IdList(ids) => {
            out.push(0x03)?;
            put_ids(out, ids.as_slice())?;
        }
        Target::GrainGlob(glob) => put_leaf(out, 0x04, glob)?,
        Target::GrainPcre(pattern) => put_leaf(out, 0x05, pattern)?,
        Target::PillarGlob(glob) => put_leaf(out, 0x06, glob)?,
        Target::PillarPcre(pattern) => put_leaf(out, 0x07, pattern)?,
        Target::Not(part) => {
            out.push(0x08)?;
            put_tree(out, part.get())?;
        }
        Target::And(left, right) => {
            out.push(0x09)?;
            put_tree(out, left.get())?;
            put_tree(out, right.get())?;
        }
        Target::Or(left, right) => {
            out.push(0x0a)?;
            put_tree(out, left.get())?;
            put_tree(out, right.get())?;
        }
    }
    Ok(())
}

// A function's name and its arguments.
fn put_call(out: &mut Vec<u8>, fun: &Word, args: &[Value]) -> Result<(), AllocError>
    requires { ValueFits (v.List args.now) }
    ensures ok { OnOk result (out.new.items ≡ out.old.items ++ spelling.call fun.now args.now) }
    ensures err { OnErr result ((more : List ℕ) × (out.new.items ≡ out.old.items ++ more)) }
{
    put_word(out, fun)?;
    put_items(out, args)?;
    Ok(())
}

// A job.
pub fn put_job(out: &mut Vec<u8>, job: &Job) -> Result<(), AllocError>
    requires { JobFits job.now }
    ensures ok { OnOk result (out.new.items ≡ out.old.items ++ spelling.job job.now) }
    ensures err { OnErr result ((more : List ℕ) × (out.new.items ≡ out.old.items ++ more)) }
{
    put_u64(out, job.jid.micros())?;
    out.push(job.kind.code())?;
    put_text(out, job.tgt.as_bytes())?;
    put_tree(out, job.target.get())?;
    put_call(out, &job.fun, job.args.as_slice())?;
    Ok(())
}

// An entry.
pub fn put_entry(out: &mut Vec<u8>, entry: &Entry) -> Result<(), AllocError>
    requires { EntryFits entry.now }
    ensures ok { OnOk result (out.new.items ≡ out.old.items ++ spelling.entry entry.now) }
    ensures err { OnErr result ((more : List ℕ) × (out.new.items ≡ out.old.items ++ more)) }
{
    match entry {
        Entry::Return { seq, outcome } => {
            out.push(0x01)?;
            put_u32(out, *seq)?;
            out.push(outcome.retcode)?;
            outcome.value.write(out)?;
        }
        Entry::Fired { event } => {
            out.push(0x02)?;
            put_word(out, &event.tag)?;
            event.body.write(out)?;
        }
        Entry::Start { boot } => {
            out.push(0x03)?;
            put_u32(out, *boot)?;
        }
        Entry::Mine {
            seq,
            mine,
            grains,
            pillar,
        } => {
            out.push(0x04)?;
            put_u32(out, *seq)?;
            put_fields(out, mine.as_slice())?;
            put_fields(out, grains.as_slice())?;
            put_fields(out, pillar.as_slice())?;
        }
    }
    Ok(())
}

// A kind of target, a text and a function's name.
fn put_asked(out: &mut Vec<u8>, kind: Kind, tgt: &Text, fun: &Word) -> Result<(), AllocError>
    requires { IsText tgt.now }
    ensures ok { OnOk result (out.new.items ≡ out.old.items ++ question kind tgt.now fun.now) }
    ensures err { OnErr result ((more : List ℕ) × (out.new.items ≡ out.old.items ++ more)) }
{
    out.push(kind.code())?;
    put_text(out, tgt.as_bytes())?;
    put_word(out, fun)
}

fn put_pub(out: &mut Vec<u8>, seq: u32, job: &Job) -> Result<(), AllocError>
    requires { Within (m.Pub seq job.now) }
    ensures ok { OnOk result (AddsBody (m.Pub seq job.now) out.old.items out.new.items) }
    ensures err { OnErr result ((more : List ℕ) × (out.new.items ≡ out.old.items ++ more)) }
{
    out.push(0x01)?;
    put_u32(out, seq)?;
    put_job(out, job)?;
    Ok(())
}

fn put_up(out: &mut Vec<u8>, minion: &MinionId, n: u32, entry: &Entry) -> Result<(), AllocError>
    requires { Within (m.Up minion.now n entry.now) }
    ensures ok { OnOk result (AddsBody (m.Up minion.now n entry.now) out.old.items out.new.items) }
    ensures err { OnErr result ((more : List ℕ) × (out.new.items ≡ out.old.items ++ more)) }
{
    out.push(0x03)?;
    put_id(out, minion)?;
    put_u32(out, n)?;
    put_entry(out, entry)
}

// The kind and the fields of a message.
fn put_fields_of(out: &mut Vec<u8>, message: &Message) -> Result<(), AllocError>
    requires { Within message.now }
    ensures ok { OnOk result (AddsBody message.now out.old.items out.new.items) }
    ensures err { OnErr result ((more : List ℕ) × (out.new.items ≡ out.old.items ++ more)) }
{
    match message {
        Message::Pub { seq, job } => put_pub(out, *seq, job)?,
        Message::Have { jobs } => {
            out.push(0x02)?;
            put_u32(out, *jobs)?;
        }
        Message::Up { minion, n, entry } => put_up(out, minion, *n, entry)?,
        Message::UpHave { minion, n } => {
            out.push(0x04)?;
            put_id(out, minion)?;
            put_u32(out, *n)?;
        }
        Message::Hello { id } => {
            out.push(0x05)?;
            put_id(out, id)?;
        }
        Message::End => out.push(0x06)?,
        Message::AskPublish {
            kind,
            tgt,
            fun,
            args,
        } => {
            out.push(0x10)?;
            put_asked(out, *kind, tgt, fun)?;
            put_items(out, args.as_slice())?;
        }
        Message::AskReport { jid } => {
            out.push(0x11)?;
            put_u64(out, jid.micros())?;
        }
        Message::AskJobs => out.push(0x12)?,
        Message::AskMine { kind, tgt, fun } => {
            out.push(0x13)?;
            put_asked(out, *kind, tgt, fun)?;
        }
        Message::Answer { status, text } => {
            out.push(0x14)?;
            out.push(*status)?;
            put_text(out, text.as_bytes())?;
        }
    }
    Ok(())
}

// The body of a message.
pub fn put_message(out: &mut Vec<u8>, message: &Message) -> Result<(), AllocError>
    requires { Within message.now }
    ensures ok { OnOk result (out.new.items ≡ out.old.items ++ spelling.body message.now) }
    ensures err { OnErr result ((more : List ℕ) × (out.new.items ≡ out.old.items ++ more)) }
{
    out.push(0x01)?;
    put_fields_of(out, message)
}

// What writing answered; after an error, what it wrote behind the first so many bytes is dropped.
pub fn whole_or_undone(
    out: &mut Vec<u8>,
    before: usize,
    written: Result<(), AllocError>,
) -> Result<(), AllocError>
    ensures same { result ≡ written }
    ensures ok { OnOk result (out.new.items ≡ out.old.items) }
    ensures err { OnErr result (out.new.items ≡ take before out.old.items) }
{
    if written.is_err() {
        out.truncate(before);
    }
    written
}
