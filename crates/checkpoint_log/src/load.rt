//! Reads the parts of a log.
ghost use Rattle.std.specs.Prelude.{◌≡◌, IfOk, OnOk};
ghost use Rattle.salt_disk.specs.declared.disk.Part.TheVariants.{Even};
ghost use Rattle.salt_disk.specs.Disk.{part_of, IsSettled};
ghost use Rattle.salt_outside.specs.Causes.{CountsFailures};
ghost use Rattle.gate_journal.specs.Calls.{KeepsBytes, KeepsOthers, LeavesAsBefore};
ghost use Rattle.checkpoint_log.specs.Content.{bytes_in};
ghost use Rattle.checkpoint_log.specs.Loading.{IsReadAs, HasUpJournal, IsOfBytes, AreReadAs, AreOfBytes, KeepsAllBytes, AreSettled, BurnsCalls, root_fault};

use gate_journal::{FIRST_GATE, Journal, LoadFault, Payloads};
use salt_disk::{Disk, DiskFault, Part};
use std::alloc::Global;

/// What stands on a part: a journal with its payloads, or why it is none.
pub type PartJournal = Result<(Journal, Payloads), LoadFault>;

// Syncs and reads a part.
fn load_part<D: Disk>(alloc: Global, disk: &mut D, part: Part) -> Result<PartJournal, DiskFault>
    ensures ok { D.is_told → IfOk result (λ r. IsReadAs part (bytes_in (D.state disk.old) part) r) }
    ensures journal { IfOk result (λ r. HasUpJournal part r) }
    ensures answer { IfOk result (λ r. IsOfBytes r) }
    ensures bytes { D.is_told → KeepsBytes D.Disk disk.old disk.new part }
    ensures settled { D.is_told → OnOk result (IsSettled (part_of (D.state disk.new) part)) }
    ensures others { D.is_told → KeepsOthers D.Disk disk.old disk.new part }
    ensures any_moment { D.is_told → LeavesAsBefore D.Disk disk.old disk.new }
    ensures fuse { D.is_told → BurnsCalls 1 (D.fuse disk.old) (D.fuse disk.new) result }
    ensures faults { CountsFailures D.faults DiskFault.Failed disk.old disk.new result }
{
    match Journal::load(alloc, disk, part) {
        Err(LoadFault::Disk) => Err(DiskFault::Failed),
        Err(LoadFault::NoMemory) => Err(DiskFault::NoMemory),
        Err(LoadFault::NotAJournal) => Ok(Err(LoadFault::NotAJournal)),
        Err(LoadFault::Damaged { part, at }) => Ok(Err(LoadFault::Damaged { part, at })),
        Ok(found) => Ok(Ok(found)),
    }
}

/// Syncs all parts, and reads the root and the part of generation 0.
pub fn read_parts<D: Disk>(
    alloc: Global,
    disk: &mut D,
) -> Result<(PartJournal, PartJournal), DiskFault>
    ensures ok { D.is_told → AreReadAs (bytes_in (D.state disk.old)) result }
    ensures journal { IfOk result (λ r. HasUpJournal Even r.1) }
    ensures answer { AreOfBytes result }
    ensures bytes { D.is_told → KeepsAllBytes D.Disk disk.old disk.new }
    ensures settled { D.is_told → OnOk result (AreSettled (D.state disk.new)) }
    ensures any_moment { D.is_told → LeavesAsBefore D.Disk disk.old disk.new }
    ensures fuse { D.is_told → BurnsCalls 3 (D.fuse disk.old) (D.fuse disk.new) result }
    ensures faults { CountsFailures D.faults DiskFault.Failed disk.old disk.new result }
{
    disk.sync(Part::Odd)?;
    let root = load_part(alloc, disk, Part::Root)?;
    let even = load_part(alloc, disk, Part::Even)?;
    Ok((root, even))
}

/// Why the root, as it was read, does not name generation 0.
pub fn fault_of(root: &PartJournal) -> Option<LoadFault>
    ensures value { result ≡ root_fault root.now }
{
    match root {
        Ok((_, payloads)) => {
            if payloads.is_empty() {
                None
            } else {
                Some(LoadFault::Damaged {
                    part: Part::Root,
                    at: FIRST_GATE,
                })
            }
        }
        Err(fault) => Some(*fault),
    }
}
