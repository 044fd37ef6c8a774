//! Records written as bytes. After an error some of the bytes may stand at the end.
ghost use Rattle.std.specs.Prelude.{◌≡◌, ◌<◌, ◌^◌, ◌++◌, ◌∷◌, length, OnOk};
ghost use Rattle.salt_value.specs.Spelling.{bytes};
ghost use Rattle.salt_value.specs.WellFormed.{ValueFits};
ghost use Rattle.salt_value.specs.declared.value.Value.TheVariants as v;
ghost use Rattle.salt_wire.specs.Limits.{JobFits, EntryFits};
ghost use Rattle.salt_wire.specs.Spelling as wire;
ghost use Rattle.journal_records.specs.Spelling as spelling;
ghost use Rattle.journal_records.specs.Limits.{EventFits, ReactFits, HoldingsFit, ChangedFits, FitsEach, RecordFits};
ghost use Rattle.journal_records.specs.Spelling.{record_bytes, AddsDone};
ghost use Rattle.salt_wire.specs.declared.deed.Deed.TheVariants as d;

use salt_value::{Event, Text, Value, put_text, put_u32};
use salt_wire::{
    Changed, Deed, Entry, Job, ReactDeed, write_entry, write_id, write_job, write_word,
};
use std::alloc::AllocError;

// A key and its value.
fn put_pair(out: &mut Vec<u8>, key: &Text, value: &Value) -> Result<(), AllocError>
    requires { (length key.now < 2 ^ 32) × ValueFits value.now }
    ensures { OnOk result (out.new.items ≡ out.old.items ++ wire.pair key.now value.now) }
{
    put_text(out, key.as_bytes())?;
    value.write(out)
}

// A map of values.
fn put_fields(out: &mut Vec<u8>, pairs: &[(Text, Value)]) -> Result<(), AllocError>
    requires { ValueFits (v.Map pairs.now) }
    ensures { OnOk result (out.new.items ≡ out.old.items ++ bytes (v.Map pairs.now)) }
{
    out.push(0x06)?;
    put_u32(out, pairs.len() as u32)?;
    for (key, value) in pairs {
        put_pair(out, key, value)?;
    }
    Ok(())
}

// An event.
fn put_event(out: &mut Vec<u8>, event: &Event) -> Result<(), AllocError>
    requires { EventFits event.now }
    ensures { OnOk result (out.new.items ≡ out.old.items ++ spelling.event_bytes event.now) }
{
    write_word(&event.tag, out)?;
    event.body.write(out)
}

// A code and a job.
fn put_coded_job(out: &mut Vec<u8>, code: u8, job: &Job) -> Result<(), AllocError>
    requires { JobFits job.now }
    ensures { OnOk result (out.new.items ≡ out.old.items ++ code ∷ wire.job job.now) }
{
    out.push(code)?;
    write_job(job, out)?;
    Ok(())
}

// What a reaction gave.
fn put_react(out: &mut Vec<u8>, item: &ReactDeed) -> Result<(), AllocError>
    requires { ReactFits item.now }
    ensures { OnOk result (out.new.items ≡ out.old.items ++ spelling.react_bytes item.now) }
{
    match item {
        ReactDeed::Job(job) => put_coded_job(out, 0x01, job)?,
        ReactDeed::Refused { sls, cause } => {
            out.push(0x02)?;
            write_id(sls, out)?;
            out.push(*cause)?;
        }
    }
    Ok(())
}

// What reactions gave, after their number.
fn put_reacts(out: &mut Vec<u8>, items: &[ReactDeed]) -> Result<(), AllocError>
    requires { FitsEach ReactFits items.now }
    ensures { OnOk result (out.new.items ≡ out.old.items ++ spelling.reacts_bytes items.now) }
{
    put_u32(out, items.len() as u32)?;
    for item in items {
        put_react(out, item)?;
    }
    Ok(())
}

// Entries, after their number.
fn put_entries(out: &mut Vec<u8>, entries: &[Entry]) -> Result<(), AllocError>
    requires { FitsEach EntryFits entries.now }
    ensures { OnOk result (out.new.items ≡ out.old.items ++ spelling.entries_bytes entries.now) }
{
    put_u32(out, entries.len() as u32)?;
    for entry in entries {
        write_entry(entry, out)?;
    }
    Ok(())
}

// What a minion holds after a change.
fn put_holdings(out: &mut Vec<u8>, changed: &Changed) -> Result<(), AllocError>
    requires { HoldingsFit changed.now }
    ensures { OnOk result (out.new.items ≡ out.old.items ++ spelling.holdings_bytes changed.now) }
{
    put_fields(out, changed.grains.as_slice())?;
    put_fields(out, changed.store.as_slice())?;
    put_fields(out, changed.mine.as_slice())
}

// What a minion holds after a change, if there is one.
fn put_changed(out: &mut Vec<u8>, changed: &Option<Changed>) -> Result<(), AllocError>
    requires { ChangedFits changed.now }
    ensures { OnOk result (out.new.items ≡ out.old.items ++ spelling.changed_bytes changed.now) }
{
    match changed {
        None => out.push(0x00)?,
        Some(changed) => {
            out.push(0x01)?;
            put_holdings(out, changed)?;
        }
    }
    Ok(())
}

// What a minion did of a job.
fn put_done(
    out: &mut Vec<u8>,
    seq: u32,
    changed: &Option<Changed>,
    entries: &[Entry],
) -> Result<(), AllocError>
    requires { RecordFits (d.Done seq changed.now entries.now) }
    ensures { OnOk result (AddsDone seq changed.now entries.now out.old.items out.new.items) }
{
    out.push(0x07)?;
    put_u32(out, seq)?;
    put_changed(out, changed)?;
    put_entries(out, entries)
}

// A record.
pub fn put_deed(out: &mut Vec<u8>, deed: &Deed) -> Result<(), AllocError>
    requires { RecordFits deed.now }
    ensures { OnOk result (out.new.items ≡ out.old.items ++ record_bytes deed.now) }
{
    match deed {
        Deed::Publish { job } => put_coded_job(out, 0x01, job)?,
        Deed::Up { minion, entry } => {
            out.push(0x02)?;
            write_id(minion, out)?;
            write_entry(entry, out)?;
        }
        Deed::Fire { event } => {
            out.push(0x03)?;
            put_event(out, event)?;
        }
        Deed::React { items } => {
            out.push(0x04)?;
            put_reacts(out, items.as_slice())?;
        }
        Deed::Intake { job } => put_coded_job(out, 0x05, job)?,
        Deed::Boot => out.push(0x06)?,
        Deed::Done {
            seq,
            changed,
            entries,
        } => put_done(out, *seq, changed, entries.as_slice())?,
    }
    Ok(())
}
