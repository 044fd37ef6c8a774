//! A write that is on the disk when it answers Ok.
ghost use Rattle.std.specs.Prelude.{◌<◌, ◌≤◌, length, IsErrOf};
ghost use Rattle.salt_disk.specs.declared.disk.DiskFault.TheVariants.{NoMemory, Failed};
ghost use Rattle.salt_disk.specs.Disk.{part_of, IsSettled, Stays, Saves};
ghost use Rattle.salt_disk.specs.Crash.{LeavesWrite, IsUnsure, OthersStay};
ghost use Rattle.salt_outside.specs.Causes.{CountsFailures};
ghost use Rattle.salt_disk.specs.Fuse.{Burns};

use crate::{Disk, DiskFault, Part};

/// Writes and syncs. At any moment of it a crash leaves the part with a write that was cut short, not begun or
/// done, and each other part as it was. After `Failed` either call may have failed; after `NoMemory` nothing
/// was changed.
pub fn write_through<D: Disk>(
    disk: &mut D,
    part: Part,
    at: u64,
    bytes: &[u8],
) -> Result<(), DiskFault>
    requires some { 0 < length bytes.now }
    requires settled { D.is_told → IsSettled (part_of (D.state disk.old) part) }
    requires within { D.is_told → at ≤ length (part_of (D.state disk.old) part).bytes }
    ensures ok { D.is_told → Saves D.state disk.old disk.new part at bytes.now result }
    ensures memory { D.is_told → IsErrOf result NoMemory → Stays D.past D.state disk.old disk.new }
    ensures others { D.is_told → OthersStay part (D.state disk.old) (D.state disk.new) }
    ensures crash { D.is_told → LeavesWrite D.past D.state disk.old disk.new part at bytes.now }
    ensures fuse { D.is_told → Burns 2 (D.fuse disk.old) (D.fuse disk.new) result }
    ensures failed { D.is_told → IsErrOf result Failed → IsUnsure (D.state disk.new) part at }
    ensures faults { CountsFailures D.faults DiskFault.Failed disk.old disk.new result }
{
    disk.write_at(part, at, bytes)?;
    disk.sync(part)
}
