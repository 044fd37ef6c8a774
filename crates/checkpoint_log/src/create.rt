//! Makes the journals of a log.
ghost use Rattle.std.specs.Prelude.{◌≡◌, ◌≤◌, OnOk, IsErrOf};
ghost use Rattle.salt_disk.specs.Disk.{Stays};
ghost use Rattle.salt_disk.specs.Fuse.{Lasts};
ghost use Rattle.salt_outside.specs.Causes.{CountsFailures};
ghost use Rattle.gate_journal.specs.Layout.{least_limit, greatest_limit};
ghost use Rattle.gate_journal.specs.Calls.{BurnsAtOk};
ghost use Rattle.checkpoint_log.specs.Creation.{IsFreshLog, IsSettledForLog, AreShort, LeavesNoPayload, FindsLong, IsNeverLong};

use gate_journal::{CreateFault, FRESH_LENGTH, Journal};
use salt_disk::{Disk, DiskFault, Part};

// The length of a part on which a log can't be made, since it may hold payloads: the generation's part before the root.
pub fn long_part<D: Disk>(disk: &mut D) -> Result<Option<u64>, DiskFault>
    ensures ok { D.is_told → FindsLong (D.state disk.old) result }
    ensures disk { OnOk result (disk.new ≡ disk.old) }
    ensures same { D.is_told → Stays D.past D.state disk.old disk.new }
    ensures memory { IsErrOf result DiskFault.NoMemory → ⊥ }
    ensures fuse { D.is_told → Lasts (D.fuse disk.old) (D.fuse disk.new) result }
    ensures faults { CountsFailures D.faults DiskFault.Failed disk.old disk.new result }
{
    let even = disk.len(Part::Even)?;
    let root = disk.len(Part::Root)?;
    if even > FRESH_LENGTH {
        return Ok(Some(even));
    }
    if root > FRESH_LENGTH {
        return Ok(Some(root));
    }
    Ok(None)
}

// Makes the journals of two short parts: the generation's first, so that a root never names what is not there.
pub fn make_journals<D: Disk>(disk: &mut D, limit: u64) -> Result<(), CreateFault>
    requires least { least_limit ≤ limit }
    requires greatest { limit ≤ greatest_limit }
    requires settled { D.is_told → IsSettledForLog (D.state disk.old) }
    requires short { D.is_told → AreShort (D.state disk.old) }
    ensures ok { D.is_told → OnOk result (IsFreshLog limit (D.state disk.new)) }
    ensures any_moment { D.is_told → LeavesNoPayload D.Disk disk.old disk.new }
    ensures fuse { D.is_told → BurnsAtOk 8 D.fuse CreateFault.Disk disk.old disk.new result }
    ensures not_empty { D.is_told → IsNeverLong result }
    ensures faults { CountsFailures D.faults CreateFault.Disk disk.old disk.new result }
{
    match Journal::create(disk, Part::Even, limit) {
        Ok(()) => Journal::create(disk, Part::Root, limit),
        Err(fault) => Err(fault),
    }
}
