//! Jobs and entries read from bytes.
ghost use Rattle.salt_wire.specs.Decoding as spec;

use crate::fault::Misread;
use crate::fields::{
    Parsed, byte_at, fields_at, items_at, jid_at, kind_at, number_at, short_text_at, value_at,
    word_at,
};
use crate::message::{Entry, Job};
use crate::tree::tree_at;
use salt_value::{Event, Outcome};
use std::alloc::Global;

/// The bytes of the longest text of a job's target.
const MOST_TARGET_BYTES: usize = 4096;

// A job.
#[tactic(auto, unfolding(crate::specs::Decoding::job_field))]
pub fn job_at(alloc: Global, bytes: &[u8]) -> Parsed<'_, Job>
    ensures { spec.GivesField result (spec.job_field bytes.now) }
{
    let (jid, rest) = match jid_at(bytes) {
        Ok(found) => found,
        Err(fault) => return Err(fault),
    };
    let (kind, rest) = kind_at(rest)?;
    let (tgt, rest) = short_text_at(alloc, MOST_TARGET_BYTES, rest)?;
    let (target, rest) = tree_at(alloc, rest)?;
    let (fun, rest) = word_at(alloc, rest)?;
    let (args, rest) = items_at(alloc, rest)?;
    let job = Job {
        jid,
        kind,
        tgt,
        target,
        fun,
        args,
    };
    Ok((job, rest))
}

#[tactic(auto, unfolding(crate::specs::Decoding::return_at))]
fn return_at(alloc: Global, bytes: &[u8]) -> Parsed<'_, Entry>
    ensures { spec.GivesField result (spec.return_at bytes.now) }
{
    let (seq, rest) = number_at(bytes)?;
    let (retcode, rest) = byte_at(rest)?;
    let (value, rest) = value_at(alloc, rest)?;
    let outcome = Outcome { retcode, value };
    Ok((Entry::Return { seq, outcome }, rest))
}

#[tactic(auto, unfolding(crate::specs::Decoding::fired_at))]
fn fired_at(alloc: Global, bytes: &[u8]) -> Parsed<'_, Entry>
    ensures { spec.GivesField result (spec.fired_at bytes.now) }
{
    let (tag, rest) = word_at(alloc, bytes)?;
    let (body, rest) = value_at(alloc, rest)?;
    let event = Event { tag, body };
    Ok((Entry::Fired { event }, rest))
}

#[tactic(auto, unfolding(crate::specs::Decoding::mine_at))]
fn mine_at(alloc: Global, bytes: &[u8]) -> Parsed<'_, Entry>
    ensures { spec.GivesField result (spec.mine_at bytes.now) }
{
    let (seq, rest) = number_at(bytes)?;
    let (mine, rest) = fields_at(alloc, rest)?;
    let (grains, rest) = fields_at(alloc, rest)?;
    let (pillar, rest) = fields_at(alloc, rest)?;
    Ok((
        Entry::Mine {
            seq,
            mine,
            grains,
            pillar,
        },
        rest,
    ))
}

// What stands after the tag of an entry.
#[tactic(auto, unfolding(crate::specs::Decoding::entry_after))]
fn entry_after(alloc: Global, tag: u8, bytes: &[u8]) -> Parsed<'_, Entry>
    ensures { spec.GivesField result (spec.entry_after tag bytes.now) }
{
    match tag {
        0x01 => return_at(alloc, bytes),
        0x02 => fired_at(alloc, bytes),
        0x03 => {
            let (boot, rest) = number_at(bytes)?;
            Ok((Entry::Start { boot }, rest))
        }
        0x04 => mine_at(alloc, bytes),
        _ => Err(Misread::BadField(bytes.len().saturating_add(1))),
    }
}

// An entry.
#[tactic(auto, unfolding(crate::specs::Decoding::entry_field))]
pub fn entry_at(alloc: Global, bytes: &[u8]) -> Parsed<'_, Entry>
    ensures { spec.GivesField result (spec.entry_field bytes.now) }
{
    let (tag, rest) = byte_at(bytes)?;
    entry_after(alloc, tag, rest)
}
