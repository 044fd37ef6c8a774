//! A message and its record.
ghost use Rattle.std.specs.Prelude.{◌≡◌, false, Some, IfOk, IfErr, IfSome, OnOk, OnErr};
ghost use Rattle.salt_outside.specs.Causes.{CountsFailures};
ghost use Rattle.salt_wire.specs.Limits.{Within};
ghost use Rattle.node_core.specs.Node.{TakesMessage, IsSamePlace, IsCounted};
ghost use Rattle.node_core.specs.NextRecords.{IsRecordFor};
ghost use Rattle.journalled_node.specs.State.{HasRecordsOf};
ghost use Rattle.journalled_node.specs.Calls.{KeepsByCall, HadRoom, IsKeptFault, IsUpFault, take_end, added_at, node_over};

use crate::TakeFault;
use crate::fault::{kept_fault, node_fault};
use crate::keeping::keep;
use checkpoint_log::{Log, logs_at_rest_are_left, stops_go_by_the_gate};
use node_core::{Node, records_by_calls};
use salt_disk::Disk;
use salt_value::NodeId;
use salt_wire::{Deed, Message};
use std::alloc::Global;

/// Takes a message that adds a record: the record goes to the disk, and then the node takes it.
pub fn take_new<D: Disk>(
    alloc: Global,
    node: &mut Node,
    log: &mut Log,
    lost: &mut bool,
    disk: &mut D,
    from: NodeId,
    message: &Message,
    deed: Deed,
) -> Result<Option<Message>, TakeFault>
    requires up { (log.old.is_down ≡ false) × (lost.old ≡ false) }
    requires fits { Within message.now }
    requires record { IsRecordFor from message.now node.old (Some deed) }
    requires stands { HasRecordsOf D.Disk disk.old node.old log.old }
    ensures ok { IfOk result (TakesMessage from message.now node.old node.new) }
    ensures place { IsSamePlace node.old node.new }
    ensures counted { IfOk result (λ reply. IfSome reply IsCounted) }
    ensures fits { IfOk result (λ reply. IfSome reply Within) }
    ensures err { OnErr result (node.new ≡ node.old) }
    ensures journal { KeepsByCall D.Disk disk.old disk.new (node_over node.old log.old lost.old)
        (node_over node.new log.new lost.new) (Some deed) (take_end result) }
    ensures fault { IfErr result (IsKeptFault (node_over node.old log.old lost.old) deed) }
    ensures room { OnOk result (HadRoom (node_over node.old log.old lost.old) (Some deed)) }
    ensures faults { CountsFailures D.faults TakeFault.Disk disk.old disk.new result }
{
    stops_go_by_the_gate();
    records_by_calls();
    match keep(alloc, log, disk, &deed) {
        Ok(()) => match node.take_with(from, message, Some(deed)) {
            Ok(reply) => Ok(reply),
            Err(_) => {
                *lost = true;
                Err(TakeFault::NoMemory)
            }
        },
        Err(fault) => Err(kept_fault(fault)),
    }
}

/// Takes a message at a node that is up: with its record, or without.
pub fn take<D: Disk>(
    alloc: Global,
    node: &mut Node,
    log: &mut Log,
    lost: &mut bool,
    disk: &mut D,
    from: NodeId,
    message: &Message,
) -> Result<Option<Message>, TakeFault>
    requires up { (log.old.is_down ≡ false) × (lost.old ≡ false) }
    requires counted { IsCounted message.now }
    requires fits { Within message.now }
    requires stands { HasRecordsOf D.Disk disk.old node.old log.old }
    ensures ok { IfOk result (TakesMessage from message.now node.old node.new) }
    ensures place { IsSamePlace node.old node.new }
    ensures counted { IfOk result (λ reply. IfSome reply IsCounted) }
    ensures fits { IfOk result (λ reply. IfSome reply Within) }
    ensures err { OnErr result (node.new ≡ node.old) }
    ensures journal { KeepsByCall D.Disk disk.old disk.new (node_over node.old log.old lost.old)
        (node_over node.new log.new lost.new) (added_at message.now node.old) (take_end result) }
    ensures fault { IfErr result (IsUpFault from message.now
        (node_over node.old log.old lost.old)) }
    ensures room { OnOk result (HadRoom (node_over node.old log.old lost.old)
        (added_at message.now node.old)) }
    ensures faults { CountsFailures D.faults TakeFault.Disk disk.old disk.new result }
{
    logs_at_rest_are_left();
    records_by_calls();
    match node.record_for(from, message) {
        Ok(Some(deed)) => take_new(alloc, node, log, lost, disk, from, message, deed),
        Ok(None) => match node.take_with(from, message, None) {
            Ok(reply) => Ok(reply),
            Err(_) => Err(TakeFault::NoMemory),
        },
        Err(fault) => Err(node_fault(fault)),
    }
}
