//! A journal: a header, and records behind gates. A record counts where its gate is open.
ghost use Rattle.std.specs.Prelude.{◌≡◌, ◌≤◌, false, length, IfOk, OnOk};
ghost use Rattle.salt_disk.specs.Disk.{part_of, IsSettled};
ghost use Rattle.gate_journal.specs.Layout.{least_limit, greatest_limit, first_gate};
ghost use Rattle.gate_journal.specs.Journal.{HoldsPayloads};
ghost use Rattle.gate_journal.specs.Calls.{KeepsBytes, KeepsOthers, SettlesUnless, LeavesAsBefore, BurnsUnless, BurnsAtOk};
ghost use Rattle.gate_journal.specs.Load.{IsUpOn, HasLength, TellsNoJournal, TellsDamage, AnswersEach};
ghost use Rattle.gate_journal.specs.Creation.{IsFresh, LeavesNothingIfShort, LeavesAsBeforeIfLong, TellsNotEmpty, RefusesLong, StaysIfLong};
ghost use Rattle.gate_journal.specs.Append.{after_append, StandsOn, HoldsAfter, LeavesOldOrNew, LeavesByAnswer, LeavesAsBeforeIfDown, BurnsByAppend, DownExactly, FullExactly};
ghost use Rattle.salt_outside.specs.Causes.{CountsFailures};

use crate::read::{ReadFault, read_journal, read_synced};
use crate::write::{body_of, store, write_header};
use crate::{AppendFault, CreateFault, FRESH_LENGTH, LoadFault, Payloads, RECORD_OVERHEAD};
use salt_disk::{Disk, DiskFault, Part};
use std::alloc::Global;
use std::marker::Model;

/// A loaded journal: where it stands, its limit and its length in bytes, and whether it is down.
#[derive(Debug, Drop)]
pub struct Journal {
    part: Part,
    limit: u64,
    length: u64,
    down: bool,
}

impl Model for Journal {
    ghost use Rattle.std.specs.Prelude.{◌≤◌};
    ghost use Rattle.gate_journal.specs.Layout.{greatest_limit, fresh_length};
    ghost use Rattle.gate_journal.specs.Journal.{JournalState};

    ghost Value = { JournalState };

    ghost view = { λ j. record { part = j.part; limit = j.limit; length = j.length; is_down = j.down } };

    ghost invariant = { λ j. (j.limit ≤ greatest_limit) × (j.length ≤ j.limit) × (fresh_length ≤ j.length) };
}

impl Journal {
    /// Reads the journal on a part: its payloads, and the journal itself, which is up. It begins with a sync, and
    /// changes nothing else. It takes memory for the part's bytes and for the payloads.
    pub fn load<D: Disk>(
        alloc: Global,
        disk: &mut D,
        part: Part,
    ) -> Result<(Journal, Payloads), LoadFault>
        ensures ok { D.is_told → IfOk result (λ r. HoldsPayloads r.0 r.1.items (D.state disk.new)) }
        ensures journal { IfOk result (λ r. IsUpOn part r.0) }
        ensures places { IfOk result (λ r. r.1.first ≡ first_gate) }
        ensures size { IfOk result (λ r. HasLength r.0 r.1.items) }

        // The bytes stay. After every answer but `Disk` nothing is pending on the part.
        ensures bytes { D.is_told → KeepsBytes D.Disk disk.old disk.new part }
        ensures settled { D.is_told → SettlesUnless LoadFault.Disk result (D.state disk.new) part }
        ensures others { D.is_told → KeepsOthers D.Disk disk.old disk.new part }
        ensures any_moment { D.is_told → LeavesAsBefore D.Disk disk.old disk.new }
        // One changing call passes, but where the answer is `Disk`.
        ensures fuse { D.is_told → BurnsUnless 1 D.fuse LoadFault.Disk disk.old disk.new result }

        // The causes.
        ensures not_a_journal { D.is_told → TellsNoJournal (D.state disk.old) part result }
        ensures damaged { TellsDamage D.Disk disk.old part result }
        // Each of the two comes exactly there, and a journal is always found.
        ensures complete { D.is_told → AnswersEach (D.state disk.old) part result }
        ensures faults { CountsFailures D.faults LoadFault.Disk disk.old disk.new result }
    {
        let bytes = match read_synced(alloc, disk, part) {
            Ok(bytes) => bytes,
            Err(DiskFault::NoMemory) => return Err(LoadFault::NoMemory),
            Err(DiskFault::Failed) => return Err(LoadFault::Disk),
        };
        match read_journal(alloc, &bytes) {
            Ok((limit, payloads, length)) => Ok((
                Journal {
                    part,
                    limit,
                    length,
                    down: false,
                },
                payloads,
            )),
            Err(ReadFault::NoMemory) => Err(LoadFault::NoMemory),
            Err(ReadFault::NotAJournal) => Err(LoadFault::NotAJournal),
            Err(ReadFault::Damaged(at)) => Err(LoadFault::Damaged { part, at }),
        }
    }

    /// Makes an empty journal of this limit, from `LEAST_LIMIT` to `GREATEST_LIMIT` (64 to 1,073,741,824 bytes), on a
    /// part that has at most `FRESH_LENGTH` bytes (17): it writes the header with 0 in place of its first byte and a
    /// closed gate, syncs, writes that byte, syncs. A part of at most that length holds no payload, so a create that
    /// was stopped can be made again.
    pub fn create<D: Disk>(disk: &mut D, part: Part, limit: u64) -> Result<(), CreateFault>
        requires least { least_limit ≤ limit }
        requires greatest { limit ≤ greatest_limit }
        requires settled { D.is_told → IsSettled (part_of (D.state disk.old) part) }
        ensures ok { D.is_told → OnOk result (IsFresh limit (part_of (D.state disk.new) part)) }
        ensures others { D.is_told → KeepsOthers D.Disk disk.old disk.new part }

        // A crash at any moment leaves no journal that loads, or an empty one. Where the part is longer than such a one,
        // it leaves what it could leave before.
        ensures any_moment { D.is_told → LeavesNothingIfShort D.Disk disk.old disk.new part }
        ensures long_moment { D.is_told → LeavesAsBeforeIfLong D.Disk disk.old disk.new part }

        // It makes four changing calls.
        ensures fuse { D.is_told → BurnsAtOk 4 D.fuse CreateFault.Disk disk.old disk.new result }

        // The causes.
        ensures not_empty { TellsNotEmpty D.Disk disk.old disk.new part result }
        ensures complete { D.is_told → RefusesLong (D.state disk.old) part result }
        ensures same { D.is_told → StaysIfLong D.Disk disk.old disk.new part }
        ensures faults { CountsFailures D.faults CreateFault.Disk disk.old disk.new result }
    {
        let len = match disk.len(part) {
            Ok(len) => len,
            Err(_) => return Err(CreateFault::Disk),
        };
        if len > FRESH_LENGTH {
            return Err(CreateFault::NotEmpty { length: len });
        }
        match write_header(disk, part, limit) {
            Ok(()) => Ok(()),
            Err(DiskFault::NoMemory) => Err(CreateFault::NoMemory),
            Err(DiskFault::Failed) => Err(CreateFault::Disk),
        }
    }

    /// Adds a payload at the end: it writes the length, the payload and a closed gate behind the closed gate,
    /// syncs, opens the gate, syncs. At Ok each crash leaves a part that has it. After `Disk` the journal is
    /// down until it is loaded again; every other refusal leaves it as it was.
    ///
    /// The disk is to be as the last call of this journal left it.
    pub fn append<D: Disk>(
        &mut self,
        alloc: Global,
        disk: &mut D,
        payload: &[u8],
    ) -> Result<(), AppendFault>
        requires { D.is_told → self.old.is_down ≡ false → StandsOn self.old (D.state disk.old) }

        // Over a disk that tells what it holds: the new payload stands at the end after Ok, and the old ones stand after
        // every other answer but `Disk`.
        ensures held { HoldsAfter D.Disk disk.old disk.new self.old self.new payload.now result }
        ensures others { D.is_told → KeepsOthers D.Disk disk.old disk.new self.old.part }

        // A crash at any moment of the call leaves the payloads from before it, with the new one or without.
        ensures any_moment { LeavesOldOrNew D.Disk disk.old disk.new self.old payload.now }
        // Once it has answered, the answer says which.
        ensures left { LeavesByAnswer D.Disk disk.old disk.new self.old payload.now result }
        // Where the journal is down, a crash leaves what it could leave before.
        ensures down_moment { LeavesAsBeforeIfDown D.Disk disk.old disk.new self.old }

        // It makes four changing calls. A disk that tells which calls fail tells what an append that failed has left.
        ensures fuse { BurnsByAppend D.Disk disk.old disk.new self.old payload.now result }

        // The journal's own state, by the answer.
        ensures journal { self.new ≡ after_append self.old (length payload.now) result }

        // The causes, in their order.
        ensures down { DownExactly self.old disk.old disk.new result }
        ensures full { FullExactly self.old (length payload.now) disk.old disk.new result }
        ensures faults { CountsFailures D.faults AppendFault.Disk disk.old disk.new result }
    {
        if self.down {
            return Err(AppendFault::Down);
        }
        let length = self.length + RECORD_OVERHEAD + payload.len() as u64;
        if length > self.limit {
            return Err(AppendFault::Full {
                length,
                limit: self.limit,
            });
        }
        let Ok(body) = body_of(alloc, payload) else {
            return Err(AppendFault::NoMemory);
        };
        match store(disk, self.part, self.length, &body) {
            Ok(()) => {
                self.length = length;
                Ok(())
            }
            Err(DiskFault::NoMemory) => Err(AppendFault::NoMemory),
            Err(DiskFault::Failed) => {
                self.down = true;
                Err(AppendFault::Disk)
            }
        }
    }

    /// False after a load, and true from an answer `Disk` of `append` on.
    pub fn is_down(&self) -> bool
        ensures value { result ≡ self.now.is_down }
    {
        self.down
    }

    /// The part on which it stands.
    pub fn part(&self) -> Part
        ensures value { result ≡ self.now.part }
    {
        self.part
    }

    /// The greatest length in bytes that it may have.
    pub fn limit(&self) -> u64
        ensures value { result ≡ self.now.limit }
    {
        self.limit
    }

    /// The number of bytes of the header, the records and the closed gate.
    pub fn length(&self) -> u64
        ensures value { result ≡ self.now.length }
    {
        self.length
    }
}
