//! The record of a job.
ghost use Rattle.std.specs.Prelude.{◌≡◌, ◌++◌, IfOk, OnOk};
ghost use Rattle.exec_functions.specs.Limits.{AreWithin};
ghost use Rattle.minion_core.specs.Flat as spec;
ghost use Rattle.minion_core.specs.Flat.{note_entries};
ghost use Rattle.minion_core.specs.Limits.{DeedFits, HasFewEntries, IsSoundRecord};
ghost use Rattle.minion_core.specs.Faults.{IsRunFault};
ghost use Rattle.salt_wire.specs.Limits.{JobFits};

use crate::RunFault;
use crate::matching::does_hold;
use exec_functions::{Change, Holdings, Note, Ran, run};
use salt_value::{Fields, MinionId};
use salt_wire::{Changed, Deed, Entries, Entry, Job};
use std::alloc::{AllocError, Global};

// What is held from then on, where something changed.
fn changed_of(alloc: Global, change: Change, held: &Holdings) -> Result<Option<Changed>, AllocError>
    ensures { IfOk result (λ changed. changed ≡ spec.changed_of change held.now) }
{
    Ok(match change {
        Change::Nothing => None,
        Change::Grains(grains) => Some(Changed {
            grains,
            store: held.store.copy(alloc)?,
            mine: held.mine.copy(alloc)?,
        }),
        Change::Store(store) => Some(Changed {
            grains: held.grains.copy(alloc)?,
            store,
            mine: held.mine.copy(alloc)?,
        }),
        Change::Mine(mine) => Some(Changed {
            grains: held.grains.copy(alloc)?,
            store: held.store.copy(alloc)?,
            mine,
        }),
    })
}

// The mine after a change.
fn mine_after<'a>(changed: &'a Option<Changed>, held: &'a Holdings) -> &'a Fields
    ensures { result.now ≡ (spec.held_with changed.now held.now).mine }
{
    match changed {
        None => &held.mine,
        Some(new) => &new.mine,
    }
}

// The grains after a change.
fn grains_after<'a>(changed: &'a Option<Changed>, held: &'a Holdings) -> &'a Fields
    ensures { result.now ≡ (spec.held_with changed.now held.now).grains }
{
    match changed {
        None => &held.grains,
        Some(new) => &new.grains,
    }
}

// The entry of a note, after the change.
fn entry_of(
    alloc: Global,
    seq: u32,
    changed: &Option<Changed>,
    held: &Holdings,
    note: &Note,
) -> Result<Entry, AllocError>
    ensures { IfOk result (λ entry. entry ≡ spec.note_entry seq changed.now held.now note.now) }
{
    match note {
        Note::Fired { event } => Ok(Entry::Fired {
            event: event.copy(alloc)?,
        }),
        Note::Mine => Ok(Entry::Mine {
            seq,
            mine: mine_after(changed, held).copy(alloc)?,
            grains: grains_after(changed, held).copy(alloc)?,
            pillar: held.pillar.copy(alloc)?,
        }),
    }
}

// The entries of the notes in order.
fn push_notes(
    alloc: Global,
    out: &mut Entries,
    seq: u32,
    changed: &Option<Changed>,
    held: &Holdings,
    notes: &[Note],
) -> Result<(), AllocError>
    ensures { OnOk result (out.new ≡ out.old ++ note_entries seq changed.now held.now notes.now) }
{
    for note in notes {
        out.push(entry_of(alloc, seq, changed, held, note)?)?;
    }
    Ok(())
}

// The record of a job that a function made this of.
#[tactic(auto, using(crate::proofs::Changes::changed_is))]
fn done_by(alloc: Global, seq: u32, held: &Holdings, ran: Ran) -> Result<Deed, AllocError>
    ensures { IfOk result (λ deed. deed ≡ spec.done_by seq held.now ran) }
{
    let Ran {
        outcome,
        change,
        notes,
    } = ran;
    let changed = changed_of(alloc, change, held)?;
    let mut entries = Entries::new(alloc);
    push_notes(alloc, &mut entries, seq, &changed, held, notes.as_slice())?;
    entries.push(Entry::Return { seq, outcome })?;
    Ok(Deed::Done {
        seq,
        changed,
        entries,
    })
}

// The record of a job that its function ran.
fn run_by(alloc: Global, seq: u32, job: &Job, held: &Holdings) -> Result<Deed, AllocError>
    requires job { JobFits job.now }
    requires held { AreWithin held.now }
    ensures { IfOk result (IsSoundRecord (spec.run_record seq job.now held.now)) }
{
    let ran = run(alloc, &job.fun, job.args.as_slice(), held)?;
    let deed = done_by(alloc, seq, held, ran)?;
    Ok(deed)
}

// The record of a job, where it is known whether its target holds.
fn made(
    alloc: Global,
    holds: bool,
    seq: u32,
    job: &Job,
    held: &Holdings,
) -> Result<Deed, AllocError>
    requires job { JobFits job.now }
    requires held { AreWithin held.now }
    ensures { IfOk result (IsSoundRecord (spec.record_if holds seq job.now held.now)) }
{
    if holds {
        run_by(alloc, seq, job, held)
    } else {
        Ok(Deed::Done {
            seq,
            changed: None,
            entries: Entries::new(alloc),
        })
    }
}

/// The record of a job with this number on a minion that holds this: it runs it where its target holds. The record is within the
/// limits of messages, and has at most two entries.
#[tactic(auto, unfolding(crate::specs::Flat::job_record))]
pub fn job_record(
    alloc: Global,
    seq: u32,
    job: &Job,
    id: &MinionId,
    held: &Holdings,
) -> Result<Deed, RunFault>
    requires job { JobFits job.now }
    requires held { AreWithin held.now }
    ensures ok { IfOk result (λ deed. deed ≡ spec.job_record seq job.now id.now held.now) }
    ensures fits { IfOk result DeedFits }
    ensures few { IfOk result HasFewEntries }
    ensures fault { IsRunFault result job.now.target }
{
    let holds = does_hold(alloc, job, id, held)?;
    Ok(made(alloc, holds, seq, job, held)?)
}
