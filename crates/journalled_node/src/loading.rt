//! Payloads as the records of a node, and the start that a load adds.
ghost use Rattle.std.specs.Prelude.{◌≡◌, ◌<◌, true, false, length, Some, IfOk, IfErr, OnOk};
ghost use Rattle.salt_outside.specs.Causes.{CountsFailures};
ghost use Rattle.salt_disk.specs.declared.disk.Part.TheVariants.{Even};
ghost use Rattle.gate_journal.specs.Payloads.{gate_place};
ghost use Rattle.checkpoint_log.specs.Content.{bytes_in};
ghost use Rattle.salt_wire.specs.declared.deed.Deed.TheVariants.{Boot};
ghost use Rattle.journal_records.specs.Limits.{RecordFits};
ghost use Rattle.node_core.specs.Node.{empty_node};
ghost use Rattle.node_core.specs.NextRecords.{MayAdd, has_log_room_at, placed_after};
ghost use Rattle.journalled_node.specs.declared.fault.LoadFault.TheVariants.{Damaged};
ghost use Rattle.journalled_node.specs.State.{HasRecordsOf, StandsIfUp};
ghost use Rattle.journalled_node.specs.Calls.{KeepsByCall, HadRoom, append_end, node_over};
ghost use Rattle.journalled_node.specs.Loading.{start_at, IsLoadedAt, IsLoadedFrom, IsLoadFault, KeepsByLoad};
ghost use Rattle.journalled_node.specs.Starts.{FitAJournal, FindsRoom, AddsIfNext, AddsPayload, IsNodeOf, ReadsPayloads, IsPayloadFault, IsStartFault, MayAddIfAny, placed_after_any, IsReadAt, ReadsNode};

use crate::fault::{unread, unstarted};
use crate::keeping::keep;
use crate::{JournalledNode, LoadFault};
use checkpoint_log::{
    LoadedContent, Log, logs_are_one, logs_at_rest_are_left, stops_go_by_the_gate,
};
use fleet_config::Fleet;
use gate_journal::{AppendFault, Payload, Payloads};
use journal_records::{read_record, records_read_back};
use node_core::Node;
use salt_disk::{Disk, Part};
use salt_value::NodeId;
use salt_wire::Deed;
use std::alloc::{AllocError, Global};

// Adds a record, where it is one that the node may add.
fn add_if_next(node: &mut Node, deed: Deed) -> Result<bool, AllocError>
    requires fits { RecordFits deed }
    requires room { has_log_room_at node.old deed ≡ true }
    ensures ok { IfOk result (AddsIfNext deed node.old node.new) }
{
    if !node.is_next(&deed) {
        return Ok(false);
    }
    node.add_record(deed)?;
    Ok(true)
}

// Adds the record that these bytes are, where it is one that the node may add.
fn add_payload(alloc: Global, node: &mut Node, payload: &[u8]) -> Result<bool, AllocError>
    requires { FindsRoom payload.now node.old }
    ensures ok { IfOk result (AddsPayload payload.now node.old node.new) }
{
    match read_record(alloc, payload)? {
        Some(deed) => add_if_next(node, deed),
        None => Ok(false),
    }
}

// Adds the records that these payloads are, and answers the number of the first one that is wrong.
fn add_payloads(
    alloc: Global,
    node: &mut Node,
    payloads: &[Payload],
) -> Result<Option<usize>, AllocError>
    requires empty { node.old ≡ empty_node node.old.fleet node.old.me }
    requires small { FitAJournal payloads.now }
    ensures ok { IfOk result (ReadsPayloads node.old.fleet node.old.me payloads.now node.new) }
{
    for (i, payload) in payloads.iter().enumerate() {
        if !add_payload(alloc, node, payload.as_slice())? {
            return Ok(Some(i));
        }
    }
    Ok(None)
}

// The damage of a log at the gate of a payload.
fn wrong_at(payloads: &Payloads, number: usize) -> LoadFault
    requires inside { number < length payloads.now.items }
    ensures { result ≡ Damaged Even (gate_place payloads.now number) }
{
    match payloads.place(number) {
        Some(at) => LoadFault::Damaged {
            part: Part::Even,
            at,
        },
        None => unreachable!(),
    }
}

// The node at a place of a fleet with the records that these payloads are.
fn node_of<'f>(
    alloc: Global,
    fleet: &'f Fleet,
    me: NodeId,
    payloads: &Payloads,
) -> Result<Node<'f>, LoadFault>
    requires within { me < length fleet.now.tree }
    requires small { FitAJournal payloads.now.items }
    ensures ok { IfOk result (IsNodeOf fleet.now me payloads.now.items) }
    ensures fault { IfErr result (IsPayloadFault fleet.now me payloads.now) }
{
    let mut node = match Node::empty(alloc, fleet, me) {
        Ok(node) => node,
        Err(_) => return Err(LoadFault::NoMemory),
    };
    match add_payloads(alloc, &mut node, payloads.as_slice()) {
        Ok(None) => Ok(node),
        Ok(Some(number)) => Err(wrong_at(payloads, number)),
        Err(_) => Err(LoadFault::NoMemory),
    }
}

// The node at a place of a fleet with the records of a log that was loaded, and the log.
fn node_over_log<'f>(
    alloc: Global,
    fleet: &'f Fleet,
    me: NodeId,
    log: Log,
    content: &LoadedContent,
) -> Result<(Node<'f>, Log), LoadFault>
    requires within { me < length fleet.now.tree }
    requires small { FitAJournal content.now.rest.items }
    ensures ok { IfOk result (λ x. IsNodeOf fleet.now me content.now.rest.items x.0 × (x.1 ≡ log)) }
    ensures fault { IfErr result (IsPayloadFault fleet.now me content.now.rest) }
{
    match node_of(alloc, fleet, me, &content.rest) {
        Ok(node) => Ok((node, log)),
        Err(fault) => Err(fault),
    }
}

// The node that a disk has, as it was before its next start, and its log.
fn read_node<'f, D: Disk>(
    alloc: Global,
    fleet: &'f Fleet,
    me: NodeId,
    disk: &mut D,
) -> Result<(Node<'f>, Log), LoadFault>
    requires within { me < length fleet.now.tree }
    ensures ok { IfOk result (IsReadAt fleet.now me) }
    ensures disk { D.is_told → ReadsNode D.Disk disk.old disk.new fleet.now me result }
    ensures faults { CountsFailures D.faults LoadFault.Disk disk.old disk.new result }
{
    match Log::load(alloc, disk) {
        Ok((log, content)) => node_over_log(alloc, fleet, me, log, &content),
        Err(fault) => Err(unread(fault)),
    }
}

// Adds a start of a minion.
fn boot<D: Disk>(
    alloc: Global,
    node: &mut Node,
    log: &mut Log,
    lost: &mut bool,
    disk: &mut D,
) -> Result<(), AppendFault>
    requires up { (log.old.is_down ≡ false) × (lost.old ≡ false) }
    requires next { MayAdd Boot node.old }
    requires stands { HasRecordsOf D.Disk disk.old node.old log.old }
    ensures ok { OnOk result (node.new ≡ placed_after Boot node.old) }
    ensures up { OnOk result ((log.new.is_down ≡ false) × (lost.new ≡ false)) }
    ensures journal { KeepsByCall D.Disk disk.old disk.new (node_over node.old log.old lost.old)
        (node_over node.new log.new lost.new) (Some Boot) (append_end result) }
    ensures fault { IfErr result (IsStartFault (node_over node.old log.old lost.old) (Some Boot)) }
    ensures room { OnOk result (HadRoom (node_over node.old log.old lost.old) (Some Boot)) }
    ensures faults { CountsFailures D.faults AppendFault.Disk disk.old disk.new result }
{
    stops_go_by_the_gate();
    match keep(alloc, log, disk, &Deed::Boot) {
        Ok(()) => match node.add_record(Deed::Boot) {
            Ok(()) => Ok(()),
            Err(_) => {
                *lost = true;
                Err(AppendFault::NoMemory)
            }
        },
        Err(fault) => Err(fault),
    }
}

// Starts a node over its log, which was just loaded: a minion adds its start, and a master nothing.
fn start<D: Disk>(
    alloc: Global,
    node: &mut Node,
    log: &mut Log,
    lost: &mut bool,
    disk: &mut D,
) -> Result<(), AppendFault>
    requires up { (log.old.is_down ≡ false) × (lost.old ≡ false) }
    requires next { MayAddIfAny (start_at node.old.fleet.tree node.old.me) node.old }
    requires stands { HasRecordsOf D.Disk disk.old node.old log.old }
    ensures ok { OnOk result (node.new
        ≡ placed_after_any (start_at node.old.fleet.tree node.old.me) node.old) }
    ensures up { OnOk result ((log.new.is_down ≡ false) × (lost.new ≡ false)) }
    ensures journal { KeepsByCall D.Disk disk.old disk.new (node_over node.old log.old lost.old)
        (node_over node.new log.new lost.new) (start_at node.old.fleet.tree node.old.me)
        (append_end result) }
    ensures fault { IfErr result (IsStartFault (node_over node.old log.old lost.old)
        (start_at node.old.fleet.tree node.old.me)) }
    ensures room { OnOk result (HadRoom (node_over node.old log.old lost.old)
        (start_at node.old.fleet.tree node.old.me)) }
    ensures faults { CountsFailures D.faults AppendFault.Disk disk.old disk.new result }
{
    logs_at_rest_are_left();
    if node.fleet().is_minion(node.me()) {
        boot(alloc, node, log, lost, disk)
    } else {
        Ok(())
    }
}

/// Loads the node at a place of a fleet from its disk, as `JournalledNode::load` tells.
pub fn load<'f, D: Disk>(
    alloc: Global,
    fleet: &'f Fleet,
    me: NodeId,
    disk: &mut D,
) -> Result<JournalledNode<'f>, LoadFault>
    requires within { me < length fleet.now.tree }
    ensures place { IfOk result (IsLoadedAt fleet.now me) }
    ensures stands { IfOk result (StandsIfUp D.Disk disk.new) }
    ensures ok { D.is_told → IfOk result (IsLoadedFrom fleet.now me (bytes_in (D.state disk.old))) }
    ensures journal { D.is_told
        → KeepsByLoad D.Disk disk.old disk.new fleet.now.tree me result }
    ensures fault { D.is_told
        → IfErr result (IsLoadFault fleet.now.tree me (bytes_in (D.state disk.old))) }
    ensures faults { CountsFailures D.faults LoadFault.Disk disk.old disk.new result }
{
    records_read_back();
    logs_are_one();
    let (mut node, mut log) = match read_node(alloc, fleet, me, disk) {
        Ok(read) => read,
        Err(fault) => return Err(fault),
    };
    let mut lost = false;
    match start(alloc, &mut node, &mut log, &mut lost, disk) {
        Ok(()) => Ok(JournalledNode::new(alloc, node, log)),
        Err(fault) => Err(unstarted(fault)),
    }
}
