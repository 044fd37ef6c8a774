//! A record at the end of a log.
ghost use Rattle.std.specs.Prelude.{◌≡◌, false, length};
ghost use Rattle.salt_outside.specs.Causes.{CountsFailures};
ghost use Rattle.gate_journal.specs.Append.{after_append, DownExactly};
ghost use Rattle.checkpoint_log.specs.Content.{StandsAsLog};
ghost use Rattle.checkpoint_log.specs.Additions.{HoldsContentAfter, LeavesOldOrNewLog, LeavesLogByAnswer, BurnsByLogAppend};
ghost use Rattle.journal_records.specs.Limits.{RecordFits};
ghost use Rattle.journal_records.specs.Spelling.{record_bytes};
ghost use Rattle.journalled_node.specs.Calls.{TellsRoom};

use checkpoint_log::{Log, logs_at_rest_are_left};
use gate_journal::AppendFault;
use journal_records::write_record;
use salt_disk::Disk;
use salt_wire::Deed;
use std::alloc::Global;

/// Adds a record at the end of a log, as `Log::append` adds its bytes.
pub fn keep<D: Disk>(
    alloc: Global,
    log: &mut Log,
    disk: &mut D,
    deed: &Deed,
) -> Result<(), AppendFault>
    requires up { log.old.is_down ≡ false }
    requires fits { RecordFits deed.now }
    requires stands { D.is_told → StandsAsLog log.old (D.state disk.old) }
    ensures held { HoldsContentAfter D.Disk disk.old disk.new log.old log.new
        (record_bytes deed.now) result }
    ensures any_moment { LeavesOldOrNewLog D.Disk disk.old disk.new log.old
        (record_bytes deed.now) }
    ensures left { LeavesLogByAnswer D.Disk disk.old disk.new log.old
        (record_bytes deed.now) result }
    ensures fuse { BurnsByLogAppend D.Disk disk.old disk.new log.old
        (record_bytes deed.now) result }
    ensures log { log.new ≡ after_append log.old (length (record_bytes deed.now)) result }
    ensures down { DownExactly log.old disk.old disk.new result }
    ensures full { TellsRoom log.old (length (record_bytes deed.now)) result }
    ensures faults { CountsFailures D.faults AppendFault.Disk disk.old disk.new result }
{
    logs_at_rest_are_left();
    match write_record(alloc, deed) {
        Ok(bytes) => log.append(alloc, disk, bytes.as_slice()),
        Err(_) => Err(AppendFault::NoMemory),
    }
}
