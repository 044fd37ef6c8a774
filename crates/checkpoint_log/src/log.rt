//! A log: the root names a generation, whose journal holds the payloads.
ghost use Rattle.std.specs.Prelude.{◌≡◌, ◌≤◌, false, length, IfOk, OnOk};
ghost use Rattle.salt_disk.specs.declared.disk.Part.TheVariants.{Even};
ghost use Rattle.salt_outside.specs.Causes.{CountsFailures};
ghost use Rattle.gate_journal.specs.Layout.{least_limit, greatest_limit};
ghost use Rattle.gate_journal.specs.Calls.{LeavesAsBefore};
ghost use Rattle.gate_journal.specs.Append.{after_append, LeavesAsBeforeIfDown, DownExactly, FullExactly};
ghost use Rattle.checkpoint_log.specs.Content.{StandsAsLog, bytes_in};
ghost use Rattle.checkpoint_log.specs.Creation.{IsSettledForLog, CreatesLog};
ghost use Rattle.checkpoint_log.specs.Loading.{HoldsLoaded, LoadsUpLog, LoadsWithin, TellsLogFault, AnswersEachLog, KeepsAllBytes, SettlesAll, BurnsByLoad, HasUpJournal, IsOfBytes, GivesGeneration};
ghost use Rattle.checkpoint_log.specs.Additions.{HoldsContentAfter, LeavesOldOrNewLog, LeavesLogByAnswer, BurnsByLogAppend};

use crate::LoadedContent;
use crate::create::{long_part, make_journals};
use crate::load::{PartJournal, fault_of, read_parts};
use gate_journal::{AppendFault, CreateFault, Journal, LoadFault};
use salt_disk::{Disk, DiskFault, Part};
use std::alloc::Global;
use std::marker::Model;

/// A loaded log. Contracts see the journal of its generation: its part, its limit and its length in bytes, and whether it
/// is down.
#[derive(Debug, Drop)]
pub struct Log {
    journal: Journal,
}

impl Model for Log {
    ghost use Rattle.std.specs.Prelude.{◌≡◌};
    ghost use Rattle.salt_disk.specs.declared.disk.Part.TheVariants.{Even};
    ghost use Rattle.gate_journal.specs.Journal.{JournalState};

    ghost Value = { JournalState };

    ghost view = { λ l. l.journal };

    ghost invariant = { λ l. l.journal.part ≡ Even };
}

impl Log {
    /// Makes a log without a payload: the journal of generation 0 and then the root, each of this limit, from
    /// `LEAST_LIMIT` to `GREATEST_LIMIT` of a journal (64 to 1,073,741,824 bytes). `Root` and `Even` have to have at most
    /// 17 bytes each: no payload stands in so few, so a create that was stopped can be made again.
    pub fn create<D: Disk>(disk: &mut D, limit: u64) -> Result<(), CreateFault>
        requires least { least_limit ≤ limit }
        requires greatest { limit ≤ greatest_limit }
        requires settled { D.is_told → IsSettledForLog (D.state disk.old) }
        ensures made { D.is_told → CreatesLog D.Disk disk.old disk.new limit result }
        ensures faults { CountsFailures D.faults CreateFault.Disk disk.old disk.new result }
    {
        match long_part(disk) {
            Ok(None) => make_journals(disk, limit),
            Ok(Some(length)) => Err(CreateFault::NotEmpty { length }),
            Err(_) => Err(CreateFault::Disk),
        }
    }

    /// Reads the log, which is up then, and what it holds. It syncs `Odd`, syncs and reads `Root`, and then the part of the
    /// generation that the root names; it changes nothing else. A root with a record is damaged at its first gate, as
    /// long as there is generation 0 alone. It takes memory for the bytes of the parts and for the payloads.
    pub fn load<D: Disk>(alloc: Global, disk: &mut D) -> Result<(Log, LoadedContent), LoadFault>
        ensures ok { D.is_told → HoldsLoaded (D.state disk.new) result }
        ensures log { LoadsUpLog result }
        ensures size { LoadsWithin result }

        // The bytes stay. After every answer but `Disk` and want of memory nothing is pending.
        ensures bytes { D.is_told → KeepsAllBytes D.Disk disk.old disk.new }
        ensures settled { D.is_told → SettlesAll (D.state disk.new) result }
        ensures any_moment { D.is_told → LeavesAsBefore D.Disk disk.old disk.new }

        // It makes three changing calls.
        ensures fuse { D.is_told → BurnsByLoad (D.fuse disk.old) (D.fuse disk.new) result }

        // The causes: each fault comes exactly where the bytes have it, and a log is always found.
        ensures fault { D.is_told → TellsLogFault (bytes_in (D.state disk.old)) result }
        ensures complete { D.is_told → AnswersEachLog (bytes_in (D.state disk.old)) result }
        ensures faults { CountsFailures D.faults LoadFault.Disk disk.old disk.new result }
    {
        match read_parts(alloc, disk) {
            Ok((root, even)) => first_generation(root, even),
            Err(DiskFault::NoMemory) => Err(LoadFault::NoMemory),
            Err(DiskFault::Failed) => Err(LoadFault::Disk),
        }
    }

    /// Adds a payload at the end. At Ok each crash leaves a log that has it. After `Disk` the log is down until it is
    /// loaded again; every other refusal leaves it as it was.
    ///
    /// The disk is to be as the last call of this log left it.
    pub fn append<D: Disk>(
        &mut self,
        alloc: Global,
        disk: &mut D,
        payload: &[u8],
    ) -> Result<(), AppendFault>
        requires { D.is_told → self.old.is_down ≡ false → StandsAsLog self.old (D.state disk.old) }

        // Over a disk that tells what it holds: the new payload stands at the end after Ok, and the content is as before
        // after every other answer but `Disk`.
        ensures held { HoldsContentAfter D.Disk disk.old disk.new self.old self.new payload.now result }

        // A crash at any moment of the call leaves a log with the content from before it, or with the payload more.
        ensures any_moment { LeavesOldOrNewLog D.Disk disk.old disk.new self.old payload.now }
        // Once it has answered, the answer says which.
        ensures left { LeavesLogByAnswer D.Disk disk.old disk.new self.old payload.now result }
        // Where the log is down, a crash leaves what it could leave before.
        ensures down_moment { LeavesAsBeforeIfDown D.Disk disk.old disk.new self.old }

        // It makes four changing calls. A disk that tells which calls fail tells what an append that failed has left.
        ensures fuse { BurnsByLogAppend D.Disk disk.old disk.new self.old payload.now result }

        // The log's own state, by the answer.
        ensures log { self.new ≡ after_append self.old (length payload.now) result }

        // The causes, in their order.
        ensures down { DownExactly self.old disk.old disk.new result }
        ensures full { FullExactly self.old (length payload.now) disk.old disk.new result }
        ensures faults { CountsFailures D.faults AppendFault.Disk disk.old disk.new result }
    {
        append_to(&mut self.journal, alloc, disk, payload)
    }

    /// The part of the generation's journal: `Even`, as long as there is generation 0 alone.
    pub fn part(&self) -> Part
        ensures value { result ≡ self.now.part }
        ensures first { result ≡ Even }
    {
        self.journal.part()
    }

    /// The number of bytes of the generation's journal.
    pub fn length(&self) -> u64
        ensures value { result ≡ self.now.length }
    {
        self.journal.length()
    }

    /// False after a load, and true from an answer `Disk` of `append` on.
    pub fn is_down(&self) -> bool
        ensures value { result ≡ self.now.is_down }
    {
        self.journal.is_down()
    }
}

// An append to the journal of generation 0.
fn append_to<D: Disk>(
    log: &mut Journal,
    alloc: Global,
    disk: &mut D,
    payload: &[u8],
) -> Result<(), AppendFault>
    requires { D.is_told → log.old.is_down ≡ false → StandsAsLog log.old (D.state disk.old) }
    ensures held { HoldsContentAfter D.Disk disk.old disk.new log.old log.new payload.now result }
    ensures any_moment { LeavesOldOrNewLog D.Disk disk.old disk.new log.old payload.now }
    ensures left { LeavesLogByAnswer D.Disk disk.old disk.new log.old payload.now result }
    ensures down_moment { LeavesAsBeforeIfDown D.Disk disk.old disk.new log.old }
    ensures fuse { BurnsByLogAppend D.Disk disk.old disk.new log.old payload.now result }
    ensures log { log.new ≡ after_append log.old (length payload.now) result }
    ensures down { DownExactly log.old disk.old disk.new result }
    ensures full { FullExactly log.old (length payload.now) disk.old disk.new result }
    ensures faults { CountsFailures D.faults AppendFault.Disk disk.old disk.new result }
{
    log.append(alloc, disk, payload)
}

// Generation 0 as it was read of its part, where the root names it.
fn first_generation(root: PartJournal, even: PartJournal) -> Result<(Log, LoadedContent), LoadFault>
    requires { HasUpJournal Even even }
    ensures log { LoadsUpLog result }
    ensures size { LoadsWithin result }
    ensures part { IfOk result (λ r. r.0.part ≡ Even) }
    ensures ok { GivesGeneration root even result }
    ensures answer { IsOfBytes root → IsOfBytes even → IsOfBytes result }
{
    if let Some(fault) = fault_of(&root) {
        return Err(fault);
    }
    match even {
        Ok((journal, rest)) => Ok((Log { journal }, LoadedContent { base: None, rest })),
        Err(fault) => Err(fault),
    }
}
