//! The logs that a master keeps of the minions below it.
ghost use Rattle.std.specs.Prelude.{◌≡◌, ◌<◌, ◌+◌, ◌^◌, length, All, IfOk, OnOk, OnErr};
ghost use Rattle.salt_wire.specs.Limits.{EntryFits};
ghost use Rattle.up_logs.specs.UpLogs.{log_at, with_entry, with_entry_less, without_last, empty_logs};

use salt_wire::{Entries, Entry};
use std::alloc::{AllocError, Global};
use std::marker::Model;

/// The logs that a master keeps of the minions below it, in the order of the minions' places, which count from 0.
#[derive(Drop)]
pub struct UpLogs {
    logs: Vec<Entries>,
}

impl Model for UpLogs {
    ghost use Rattle.std.specs.Prelude.{List};
    ghost use Rattle.std.specs.Coded.{codes};
    ghost use Rattle.salt_value.specs.contracts.value.Value as value;
    ghost use Rattle.salt_wire.specs.declared.message.Entry.{Entry as Told};
    ghost use Rattle.up_logs.specs.UpLogs.{AreSoundLogs};

    ghost Value = { List (List Told) };

    ghost coded = { Prim.hlevel (codes, value.the_row.coded) };

    ghost view = { λ u. u.logs.items };

    ghost invariant = { λ u. AreSoundLogs u.logs.items };
}

impl UpLogs {
    /// The logs of so many minions, each log without an entry.
    pub fn new(alloc: Global, minions: u32) -> Result<UpLogs, AllocError>
        ensures ok { IfOk result (λ logs. logs ≡ empty_logs minions) }
    {
        Ok(UpLogs {
            logs: new_logs(alloc, minions)?,
        })
    }

    /// Adds an entry at the end of the log of the minion at a place below the number of logs. That log has fewer than 4,294,967,295
    /// entries, and the entry is within the limits of messages. An error leaves all as it was.
    pub fn push(&mut self, minion: u32, entry: Entry) -> Result<(), AllocError>
        requires place { minion < length self.old }
        requires room { length (log_at self.old minion) + 1 < 2 ^ 32 }
        requires fits { EntryFits entry }
        ensures ok { OnOk result (self.new ≡ with_entry minion entry self.old) }
        ensures err { OnErr result (self.new ≡ self.old) }
    {
        push_at(&mut self.logs, minion, entry)
    }

    /// Takes the last entry of the log of the minion at a place below the number of logs away, if there is one.
    pub fn pop(&mut self, minion: u32)
        requires place { minion < length self.old }
        ensures value { self.new ≡ with_entry_less minion self.old }
    {
        pop_at(&mut self.logs, minion);
    }

    /// The log of the minion at a place below the number of logs, each entry within the limits of messages.
    pub fn entries(&self, minion: u32) -> &[Entry]
        requires place { minion < length self.now }
        ensures value { result.now ≡ log_at self.now minion }
        ensures fits { All EntryFits (log_at self.now minion) }
    {
        self.logs[minion as usize].as_slice()
    }

    /// How many entries the log of the minion at a place below the number of logs has.
    pub fn count(&self, minion: u32) -> u32
        requires place { minion < length self.now }
        ensures value { result ≡ length (log_at self.now minion) }
    {
        self.logs[minion as usize].len() as u32
    }

    /// How many logs there are.
    pub fn minions(&self) -> u32
        ensures value { result ≡ length self.now }
    {
        self.logs.len() as u32
    }
}

// So many empty logs.
fn new_logs(alloc: Global, minions: u32) -> Result<Vec<Entries>, AllocError>
    ensures { IfOk result (λ logs. logs.items ≡ empty_logs minions) }
{
    let mut logs = Vec::new(alloc);
    for _ in 0..minions {
        logs.push(Entries::new(alloc))?;
    }
    Ok(logs)
}

// An entry more at the end of the log at a place.
fn push_at(logs: &mut Vec<Entries>, at: u32, entry: Entry) -> Result<(), AllocError>
    requires { at < length logs.old.items }
    ensures ok { OnOk result (logs.new.items ≡ with_entry at entry logs.old.items) }
    ensures err { OnErr result (logs.new.items ≡ logs.old.items) }
{
    logs[at as usize].push(entry)
}

// The last entry of a log is gone.
#[tactic(auto, using(crate::proofs::Undo::but_last))]
fn pop_last(log: &mut Entries)
    ensures { log.new ≡ without_last log.old }
{
    let _ = log.pop();
}

// The last entry of the log at a place is gone.
fn pop_at(logs: &mut Vec<Entries>, at: u32)
    requires { at < length logs.old.items }
    ensures { logs.new.items ≡ with_entry_less at logs.old.items }
{
    pop_last(&mut logs[at as usize]);
}
