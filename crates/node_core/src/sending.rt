//! Messages for a neighbour.
ghost use Rattle.std.specs.Prelude.{◌≤◌, ◌<◌, ◌^◌, length, OnOk};
ghost use Rattle.node_core.specs.Steps.{AddsJobs, AddsEntries};

use salt_value::MinionId;
use salt_wire::{Entry, Job, Message};
use std::alloc::{AllocError, Global};

/// The publications of the jobs from a number on, as far as there is room.
pub fn push_pubs(
    alloc: Global,
    out: &mut Vec<Message>,
    known: u32,
    jobs: &[Job],
    max: u32,
) -> Result<(), AllocError>
    requires few { length jobs.now < 2 ^ 32 }
    requires room { length out.old.items ≤ max }
    ensures { OnOk result (AddsJobs max known jobs.now out.old.items out.new.items) }
{
    for seq in known as usize..jobs.len() {
        if out.len() >= max as usize {
            return Ok(());
        }
        out.push(Message::Pub {
            seq: seq as u32,
            job: jobs[seq].copy(alloc)?,
        })?;
    }
    Ok(())
}

/// The entries of a minion from a number on, as far as there is room.
pub fn push_entries(
    alloc: Global,
    out: &mut Vec<Message>,
    minion: MinionId,
    known: u32,
    entries: &[Entry],
    max: u32,
) -> Result<(), AllocError>
    requires few { length entries.now < 2 ^ 32 }
    requires room { length out.old.items ≤ max }
    ensures { OnOk result (AddsEntries max minion known entries.now out.old.items out.new.items) }
{
    for n in known as usize..entries.len() {
        if out.len() >= max as usize {
            return Ok(());
        }
        out.push(Message::Up {
            minion,
            n: n as u32,
            entry: entries[n].copy(alloc)?,
        })?;
    }
    Ok(())
}
