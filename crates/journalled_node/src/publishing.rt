//! A job and its record.
ghost use Rattle.std.specs.Prelude.{◌≡◌, false, Some, IfOk, IfErr, OnOk, OnErr};
ghost use Rattle.salt_outside.specs.Causes.{CountsFailures};
ghost use Rattle.salt_wire.specs.declared.deed.Deed.TheVariants.{Publish};
ghost use Rattle.node_core.specs.Node.{IsSamePlace};
ghost use Rattle.node_core.specs.NextRecords.{MayAdd, placed_after};
ghost use Rattle.node_core.specs.Publications.{order, PublishesOrder};
ghost use Rattle.journalled_node.specs.State.{HasRecordsOf};
ghost use Rattle.journalled_node.specs.Calls.{KeepsByCall, HadRoom, node_over};
ghost use Rattle.journalled_node.specs.Orders.{publish_end, published_at, IsKeptRefusal, IsUpRefusal};

use crate::PublishFault;
use crate::fault::{unmade, unpublished};
use crate::keeping::keep;
use checkpoint_log::{Log, logs_at_rest_are_left, stops_go_by_the_gate};
use node_core::Node;
use salt_disk::Disk;
use salt_value::{Jid, Value, Word};
use salt_wire::{Deed, Job};
use std::alloc::Global;
use target_tree::Kind;

/// Publishes a job that was made: its record goes to the disk, and then the top adds it.
pub fn publish_new<D: Disk>(
    alloc: Global,
    node: &mut Node,
    log: &mut Log,
    lost: &mut bool,
    disk: &mut D,
    job: Job,
) -> Result<Jid, PublishFault>
    requires up { (log.old.is_down ≡ false) × (lost.old ≡ false) }
    requires next { MayAdd (Publish job) node.old }
    requires stands { HasRecordsOf D.Disk disk.old node.old log.old }
    ensures ok { OnOk result (node.new ≡ placed_after (Publish job) node.old) }
    ensures jid { IfOk result (λ jid. jid ≡ job.jid) }
    ensures err { OnErr result (node.new ≡ node.old) }
    ensures journal { KeepsByCall D.Disk disk.old disk.new (node_over node.old log.old lost.old)
        (node_over node.new log.new lost.new) (Some (Publish job)) (publish_end result) }
    ensures fault { IfErr result (IsKeptRefusal (node_over node.old log.old lost.old)
        (Publish job)) }
    ensures room { OnOk result (HadRoom (node_over node.old log.old lost.old) (Some
        (Publish job))) }
    ensures faults { CountsFailures D.faults PublishFault.Disk disk.old disk.new result }
{
    stops_go_by_the_gate();
    let jid = job.jid;
    let deed = Deed::Publish { job };
    match keep(alloc, log, disk, &deed) {
        Ok(()) => match node.add_record(deed) {
            Ok(()) => Ok(jid),
            Err(_) => {
                *lost = true;
                Err(PublishFault::NoMemory)
            }
        },
        Err(fault) => Err(unpublished(fault)),
    }
}

/// Publishes an order at a top that is up.
pub fn publish<D: Disk>(
    alloc: Global,
    node: &mut Node,
    log: &mut Log,
    lost: &mut bool,
    disk: &mut D,
    moment: u64,
    kind: Kind,
    tgt: &str,
    fun: &Word,
    args: &[Value],
) -> Result<Jid, PublishFault>
    requires up { (log.old.is_down ≡ false) × (lost.old ≡ false) }
    requires top { node.old.me ≡ 0 }
    requires stands { HasRecordsOf D.Disk disk.old node.old log.old }
    ensures ok { IfOk result (PublishesOrder moment
        (order kind tgt.now fun.now args.now) node.old node.new) }
    ensures place { IsSamePlace node.old node.new }
    ensures err { OnErr result (node.new ≡ node.old) }
    ensures journal { KeepsByCall D.Disk disk.old disk.new (node_over node.old log.old lost.old)
        (node_over node.new log.new lost.new)
        (published_at moment (order kind tgt.now fun.now args.now) node.old) (publish_end result) }
    ensures fault { IfErr result (IsUpRefusal moment
        (order kind tgt.now fun.now args.now) (node_over node.old log.old lost.old)) }
    ensures room { OnOk result (HadRoom (node_over node.old log.old lost.old)
        (published_at moment (order kind tgt.now fun.now args.now) node.old)) }
    ensures faults { CountsFailures D.faults PublishFault.Disk disk.old disk.new result }
{
    logs_at_rest_are_left();
    match node.job_for(moment, kind, tgt, fun, args) {
        Ok(job) => publish_new(alloc, node, log, lost, disk, job),
        Err(fault) => Err(unmade(fault)),
    }
}
