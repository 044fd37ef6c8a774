//! The parts of records read from bytes.
ghost use Rattle.std.specs.Prelude.{◌≡◌};
ghost use Rattle.salt_wire.specs.Decoding.{id_field, word_field, entry_field, job_field};
ghost use Rattle.journal_records.specs.Decoding as spec;
ghost use Rattle.journal_records.specs.Decoding.{GivesPart, part};

use crate::fault::RecordFault;
use salt_value::{Event, Fields, MinionId, Value, ValueFault, Word, u8_or, u32_or};
use salt_wire::{
    Changed, Entry, Job, WireFault, messages_read_back, read_entry, read_id, read_job, read_word,
};
use std::alloc::Global;

// What stands at the front of some bytes, and the bytes after it.
pub type Parsed<'a, T> = Result<(T, &'a [u8]), RecordFault>;

// A fault of a message's field as one of a record.
fn part_fault(fault: WireFault) -> RecordFault
    ensures { result ≡ spec.part_fault fault }
{
    match fault {
        WireFault::NoMemory => RecordFault::NoMemory,
        _ => RecordFault::NoRecord,
    }
}

// A byte.
pub fn byte_at(bytes: &[u8]) -> Parsed<'_, u8>
    ensures { GivesPart result (spec.byte_part bytes.now) }
{
    u8_or(bytes, RecordFault::NoRecord)
}

// A number of 32 bits.
pub fn number_at(bytes: &[u8]) -> Parsed<'_, u32>
    ensures { GivesPart result (spec.number_part bytes.now) }
{
    u32_or(bytes, RecordFault::NoRecord)
}

// An id.
pub fn id_at(bytes: &[u8]) -> Parsed<'_, MinionId>
    ensures { GivesPart result (part id_field bytes.now) }
{
    messages_read_back();
    match read_id(bytes, 0) {
        Ok(found) => Ok((found.0, &bytes[found.1..])),
        Err(fault) => Err(part_fault(fault)),
    }
}

// A word.
pub fn word_at(alloc: Global, bytes: &[u8]) -> Parsed<'_, Word>
    ensures { GivesPart result (part word_field bytes.now) }
{
    messages_read_back();
    match read_word(alloc, bytes, 0) {
        Ok((word, taken)) => Ok((word, &bytes[taken..])),
        Err(fault) => Err(part_fault(fault)),
    }
}

// An entry.
pub fn entry_at(alloc: Global, bytes: &[u8]) -> Parsed<'_, Entry>
    ensures { GivesPart result (part entry_field bytes.now) }
{
    messages_read_back();
    match read_entry(alloc, bytes, 0) {
        Ok((entry, taken)) => Ok((entry, &bytes[taken..])),
        Err(fault) => Err(part_fault(fault)),
    }
}

// A job.
pub fn job_at(alloc: Global, bytes: &[u8]) -> Parsed<'_, Job>
    ensures { GivesPart result (part job_field bytes.now) }
{
    messages_read_back();
    match read_job(alloc, bytes, 0) {
        Ok((job, taken)) => Ok((job, &bytes[taken..])),
        Err(fault) => Err(part_fault(fault)),
    }
}

// A value.
#[tactic(auto, unfolding(crate::specs::Decoding::value_part))]
pub fn value_at(alloc: Global, bytes: &[u8]) -> Parsed<'_, Value>
    ensures { GivesPart result (spec.value_part bytes.now) }
{
    match Value::read(alloc, bytes) {
        Ok((value, taken)) => Ok((value, &bytes[taken..])),
        Err(ValueFault::NoMemory) => Err(RecordFault::NoMemory),
        Err(_) => Err(RecordFault::NoRecord),
    }
}

// A value that is a map.
#[tactic(auto, unfolding(crate::specs::Decoding::fields_part))]
pub fn fields_at(alloc: Global, bytes: &[u8]) -> Parsed<'_, Fields>
    ensures { GivesPart result (spec.fields_part bytes.now) }
{
    let (value, rest) = value_at(alloc, bytes)?;
    match value {
        Value::Map(fields) => Ok((fields, rest)),
        _ => Err(RecordFault::NoRecord),
    }
}

// An event.
#[tactic(auto, unfolding(crate::specs::Decoding::event_part))]
pub fn event_at(alloc: Global, bytes: &[u8]) -> Parsed<'_, Event>
    ensures { GivesPart result (spec.event_part bytes.now) }
{
    let (tag, rest) = word_at(alloc, bytes)?;
    let (body, rest) = value_at(alloc, rest)?;
    Ok((Event { tag, body }, rest))
}

// What a minion holds after a change.
#[tactic(auto, unfolding(crate::specs::Decoding::holdings_part))]
fn holdings_at(alloc: Global, bytes: &[u8]) -> Parsed<'_, Changed>
    ensures { GivesPart result (spec.holdings_part bytes.now) }
{
    let (grains, rest) = fields_at(alloc, bytes)?;
    let (store, rest) = fields_at(alloc, rest)?;
    let (mine, rest) = fields_at(alloc, rest)?;
    let changed = Changed {
        grains,
        store,
        mine,
    };
    Ok((changed, rest))
}

// A change that there is.
#[tactic(auto, unfolding(crate::specs::Decoding::some_change))]
fn some_change_at(alloc: Global, bytes: &[u8]) -> Parsed<'_, Option<Changed>>
    ensures { GivesPart result (spec.some_change bytes.now) }
{
    let (changed, rest) = holdings_at(alloc, bytes)?;
    Ok((Some(changed), rest))
}

// What stands after the byte that tells whether there is a change.
#[tactic(auto, unfolding(crate::specs::Decoding::changed_after))]
fn changed_after(alloc: Global, tag: u8, bytes: &[u8]) -> Parsed<'_, Option<Changed>>
    ensures { GivesPart result (spec.changed_after tag bytes.now) }
{
    match tag {
        0x00 => Ok((None, bytes)),
        0x01 => some_change_at(alloc, bytes),
        _ => Err(RecordFault::NoRecord),
    }
}

// What a minion holds after a change, if there is one.
#[tactic(auto, unfolding(crate::specs::Decoding::changed_part))]
pub fn changed_at(alloc: Global, bytes: &[u8]) -> Parsed<'_, Option<Changed>>
    ensures { GivesPart result (spec.changed_part bytes.now) }
{
    let (tag, rest) = byte_at(bytes)?;
    changed_after(alloc, tag, rest)
}
