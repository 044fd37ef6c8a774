//! Records read from bytes.
ghost use Rattle.salt_value.specs.Readers.{several, Gives};
ghost use Rattle.salt_wire.specs.Decoding.{entry_field};
ghost use Rattle.journal_records.specs.Decoding as spec;
ghost use Rattle.journal_records.specs.Decoding.{GivesPart, part, counted_part};
ghost use Rattle.journal_records.specs.declared.fault.RecordFault.TheVariants.{NoMemory};

use crate::fault::RecordFault;
use crate::parts::{Parsed, byte_at, changed_at, entry_at, event_at, id_at, job_at, number_at};
use salt_wire::{Deed, Entries, ReactDeed, ReactDeeds};
use std::alloc::Global;

// So many entries.
fn some_entries(alloc: Global, count: u32, bytes: &[u8]) -> Parsed<'_, Entries>
    ensures { GivesPart result (several (part entry_field) count bytes.now) }
{
    let mut entries = Entries::new(alloc);
    let mut rest = bytes;
    for _ in 0..count {
        let (entry, after) = match entry_at(alloc, rest) {
            Ok(found) => found,
            Err(fault) => return Err(fault),
        };
        entries.push(entry)?;
        rest = after;
    }
    Ok((entries, rest))
}

// Entries, after their number.
#[tactic(auto, unfolding(crate::specs::Decoding::counted_part))]
fn entries_at(alloc: Global, bytes: &[u8]) -> Parsed<'_, Entries>
    ensures { GivesPart result (counted_part (part entry_field) bytes.now) }
{
    let (count, rest) = number_at(bytes)?;
    some_entries(alloc, count, rest)
}

// A job that a reaction gave.
#[tactic(auto, unfolding(crate::specs::Decoding::react_job_part))]
fn react_job_at(alloc: Global, bytes: &[u8]) -> Parsed<'_, ReactDeed>
    ensures { GivesPart result (spec.react_job_part bytes.now) }
{
    let (job, rest) = job_at(alloc, bytes)?;
    Ok((ReactDeed::Job(job), rest))
}

// A refused reaction.
#[tactic(auto, unfolding(crate::specs::Decoding::refused_part))]
fn refused_at(bytes: &[u8]) -> Parsed<'_, ReactDeed>
    ensures { GivesPart result (spec.refused_part bytes.now) }
{
    let (sls, rest) = match id_at(bytes) {
        Ok(found) => found,
        Err(fault) => return Err(fault),
    };
    let (cause, rest) = byte_at(rest)?;
    Ok((ReactDeed::Refused { sls, cause }, rest))
}

// What stands after the tag of what a reaction gave.
#[tactic(auto, unfolding(crate::specs::Decoding::react_after))]
fn react_after(alloc: Global, tag: u8, bytes: &[u8]) -> Parsed<'_, ReactDeed>
    ensures { GivesPart result (spec.react_after tag bytes.now) }
{
    match tag {
        0x01 => react_job_at(alloc, bytes),
        0x02 => refused_at(bytes),
        _ => Err(RecordFault::NoRecord),
    }
}

// What a reaction gave.
#[tactic(auto, unfolding(crate::specs::Decoding::react_part))]
fn react_at(alloc: Global, bytes: &[u8]) -> Parsed<'_, ReactDeed>
    ensures { GivesPart result (spec.react_part bytes.now) }
{
    let (tag, rest) = byte_at(bytes)?;
    react_after(alloc, tag, rest)
}

// What so many reactions gave.
fn some_reacts(alloc: Global, count: u32, bytes: &[u8]) -> Parsed<'_, ReactDeeds>
    ensures { GivesPart result (several spec.react_part count bytes.now) }
{
    let mut items = ReactDeeds::new(alloc);
    let mut rest = bytes;
    for _ in 0..count {
        let (item, after) = match react_at(alloc, rest) {
            Ok(found) => found,
            Err(fault) => return Err(fault),
        };
        items.push(item)?;
        rest = after;
    }
    Ok((items, rest))
}

// What reactions gave, after their number.
#[tactic(auto, unfolding(crate::specs::Decoding::counted_part))]
fn reacts_at(alloc: Global, bytes: &[u8]) -> Parsed<'_, ReactDeeds>
    ensures { GivesPart result (counted_part spec.react_part bytes.now) }
{
    let (count, rest) = number_at(bytes)?;
    some_reacts(alloc, count, rest)
}

#[tactic(auto, unfolding(crate::specs::Decoding::publish_fields))]
fn publish_fields(alloc: Global, bytes: &[u8]) -> Parsed<'_, Deed>
    ensures { GivesPart result (spec.publish_fields bytes.now) }
{
    let (job, rest) = job_at(alloc, bytes)?;
    Ok((Deed::Publish { job }, rest))
}

#[tactic(auto, unfolding(crate::specs::Decoding::entry_up_fields))]
fn entry_up_fields(alloc: Global, bytes: &[u8]) -> Parsed<'_, Deed>
    ensures { GivesPart result (spec.entry_up_fields bytes.now) }
{
    let (minion, rest) = match id_at(bytes) {
        Ok(found) => found,
        Err(fault) => return Err(fault),
    };
    let (entry, rest) = entry_at(alloc, rest)?;
    Ok((Deed::Up { minion, entry }, rest))
}

#[tactic(auto, unfolding(crate::specs::Decoding::fire_fields))]
fn fire_fields(alloc: Global, bytes: &[u8]) -> Parsed<'_, Deed>
    ensures { GivesPart result (spec.fire_fields bytes.now) }
{
    let (event, rest) = event_at(alloc, bytes)?;
    Ok((Deed::Fire { event }, rest))
}

#[tactic(auto, unfolding(crate::specs::Decoding::react_fields))]
fn react_fields(alloc: Global, bytes: &[u8]) -> Parsed<'_, Deed>
    ensures { GivesPart result (spec.react_fields bytes.now) }
{
    let (items, rest) = reacts_at(alloc, bytes)?;
    Ok((Deed::React { items }, rest))
}

#[tactic(auto, unfolding(crate::specs::Decoding::intake_fields))]
fn intake_fields(alloc: Global, bytes: &[u8]) -> Parsed<'_, Deed>
    ensures { GivesPart result (spec.intake_fields bytes.now) }
{
    let (job, rest) = job_at(alloc, bytes)?;
    Ok((Deed::Intake { job }, rest))
}

#[tactic(auto, unfolding(crate::specs::Decoding::done_fields))]
fn done_fields(alloc: Global, bytes: &[u8]) -> Parsed<'_, Deed>
    ensures { GivesPart result (spec.done_fields bytes.now) }
{
    let (seq, rest) = number_at(bytes)?;
    let (changed, rest) = changed_at(alloc, rest)?;
    let (entries, rest) = entries_at(alloc, rest)?;
    let deed = Deed::Done {
        seq,
        changed,
        entries,
    };
    Ok((deed, rest))
}

// What stands after the tag of a record.
#[tactic(auto, unfolding(crate::specs::Decoding::record_after))]
fn record_after(alloc: Global, tag: u8, bytes: &[u8]) -> Parsed<'_, Deed>
    ensures { GivesPart result (spec.record_after tag bytes.now) }
{
    match tag {
        0x01 => publish_fields(alloc, bytes),
        0x02 => entry_up_fields(alloc, bytes),
        0x03 => fire_fields(alloc, bytes),
        0x04 => react_fields(alloc, bytes),
        0x05 => intake_fields(alloc, bytes),
        0x06 => Ok((Deed::Boot, bytes)),
        0x07 => done_fields(alloc, bytes),
        _ => Err(RecordFault::NoRecord),
    }
}

#[tactic(auto, unfolding(crate::specs::Decoding::record_part))]
fn record_at(alloc: Global, bytes: &[u8]) -> Parsed<'_, Deed>
    ensures { GivesPart result (spec.record_part bytes.now) }
{
    let (tag, rest) = byte_at(bytes)?;
    record_after(alloc, tag, rest)
}

// The record that these bytes are.
#[tactic(auto, unfolding(crate::specs::Decoding::whole_record))]
pub fn whole(alloc: Global, bytes: &[u8]) -> Result<Deed, RecordFault>
    ensures { Gives NoMemory (λ x. x) result (spec.whole_record bytes.now) }
{
    let (deed, rest) = record_at(alloc, bytes)?;
    if !rest.is_empty() {
        return Err(RecordFault::NoRecord);
    }
    Ok(deed)
}
