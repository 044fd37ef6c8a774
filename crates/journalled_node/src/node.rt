//! A node over its log.
ghost use Rattle.std.specs.Prelude.{◌≡◌, ◌<◌, ◌≤◌, false, length, Ok, Err, IfOk, IfErr, IfSome, OnOk, OnErr};
ghost use Rattle.salt_outside.specs.Causes.{CountsFailures};
ghost use Rattle.gate_journal.specs.Layout.{least_limit, greatest_limit};
ghost use Rattle.checkpoint_log.specs.Content.{bytes_in};
ghost use Rattle.checkpoint_log.specs.Creation.{IsSettledForLog, CreatesLog};
ghost use Rattle.salt_wire.specs.Limits.{Within};
ghost use Rattle.node_core.specs.Node.{TakesMessage, IsSamePlace, IsCounted};
ghost use Rattle.node_core.specs.Publications.{order, PublishesOrder};
ghost use Rattle.journalled_node.specs.Orders.{publish_end, published_at, IsJournalledRefusal};
ghost use Rattle.journalled_node.specs.State.{is_lost_or_down, StandsIfUp};
ghost use Rattle.journalled_node.specs.Loading.{IsLoadedAt, IsLoadedFrom, IsLoadFault, AnswersEachNode, KeepsByLoad};
ghost use Rattle.journalled_node.specs.Calls.{KeepsIfUp, EndsDownExactly, HadRoom, IsJournalledFault, take_end, added_at};

use crate::loading::load;
use crate::publishing::publish;
use crate::taking::take;
use crate::{LoadFault, PublishFault, TakeFault};
use checkpoint_log::{Log, logs_are_one};
use fleet_config::Fleet;
use gate_journal::CreateFault;
use journal_records::records_read_back;
use node_core::Node;
use salt_disk::Disk;
use salt_value::{Jid, NodeId, Value, Word};
use salt_wire::Message;
use std::alloc::Global;
use std::marker::Model;
use target_tree::Kind;

/// A node of a fleet over its log. The disk is lent at each call.
#[derive(Drop)]
pub struct JournalledNode<'f> {
    alloc: Global,
    node: Node<'f>,
    log: Log,
    lost: bool,
}

impl<'f> Model for JournalledNode<'f> {
    ghost use Rattle.journalled_node.specs.State.{JournalledState};
    ghost use Rattle.salt_value.specs.contracts.value.Value as value;
    ghost use Rattle.target_tree.specs.contracts.target.Target as target;
    ghost use Rattle.std.specs.Coded.{codes};

    ghost Value = { JournalledState };

    ghost coded = { Prim.hlevel (codes, value.the_row.coded, target.the_row.coded) };

    ghost view = { λ n. record { node = n.node; log = n.log; lost = n.lost } };
}

impl<'f> JournalledNode<'f> {
    // A node and the log that has its records, as they were loaded together.
    pub(crate) fn new(alloc: Global, node: Node<'f>, log: Log) -> JournalledNode<'f>
        ensures value { result ≡ record { node = node.entry; log = log; lost = false } }
    {
        JournalledNode {
            alloc,
            node,
            log,
            lost: false,
        }
    }

    /// Makes the log of a node without a record, of this limit in bytes, from 64 to 1,073,741,824, as `Log::create` does: `Root` and `Even`
    /// have to have at most 17 bytes each, so that a create that was stopped can be made again.
    pub fn create<D: Disk>(disk: &mut D, limit: u64) -> Result<(), CreateFault>
        requires least { least_limit ≤ limit }
        requires greatest { limit ≤ greatest_limit }
        requires settled { D.is_told → IsSettledForLog (D.state disk.old) }
        ensures made { D.is_told → CreatesLog D.Disk disk.old disk.new limit result }
        ensures faults { CountsFailures D.faults CreateFault.Disk disk.old disk.new result }
    {
        Log::create(disk, limit)
    }

    /// Loads the node at a place of a fleet from its disk. It holds what its records say, and knows nothing of what its neighbours have; a
    /// minion adds one start behind its records. A load makes three changing calls, and four more for a minion.
    ///
    /// A record is right where the node may add it after those before it (`Node::is_next`); the first that isn't is damage, with the place of
    /// its gate.
    pub fn load<D: Disk>(
        alloc: Global,
        fleet: &'f Fleet,
        me: NodeId,
        disk: &mut D,
    ) -> Result<JournalledNode<'f>, LoadFault>
        requires within { me < length fleet.now.tree }
        ensures place { IfOk result (IsLoadedAt fleet.now me) }
        ensures stands { IfOk result (StandsIfUp D.Disk disk.new) }
        ensures ok { D.is_told
            → IfOk result (IsLoadedFrom fleet.now me (bytes_in (D.state disk.old))) }
        ensures journal { D.is_told
            → KeepsByLoad D.Disk disk.old disk.new fleet.now.tree me result }
        ensures fault { D.is_told
            → IfErr result (IsLoadFault fleet.now.tree me (bytes_in (D.state disk.old))) }
        ensures complete { D.is_told
            → AnswersEachNode fleet.now me (bytes_in (D.state disk.old)) result }
        ensures faults { CountsFailures D.faults LoadFault.Disk disk.old disk.new result }
    {
        records_read_back();
        logs_are_one();
        load(alloc, fleet, me, disk)
    }

    /// The node as it stands in memory.
    pub fn node(&self) -> &Node<'f>
        ensures value { result.now ≡ self.now.node }
    {
        &self.node
    }

    /// Does it answer `Down` until it is loaded again?
    pub fn is_down(&self) -> bool
        ensures value { result ≡ is_lost_or_down self.now }
    {
        self.log.is_down() || self.lost
    }

    /// What it does with a message from another node: it takes it, and answers the reply if there is one. A message that adds a record is
    /// answered once the record is on the disk. After an error the node in memory is as before; after `Disk`, and where memory ran out once
    /// the record was in the log, the node is down.
    ///
    /// The disk is to be as the last call of this node left it.
    pub fn take<D: Disk>(
        &mut self,
        disk: &mut D,
        from: NodeId,
        message: &Message,
    ) -> Result<Option<Message>, TakeFault>
        requires counted { IsCounted message.now }
        requires fits { Within message.now }
        requires stands { StandsIfUp D.Disk disk.old self.old }
        ensures ok { IfOk result (TakesMessage from message.now self.old.node self.new.node) }
        ensures place { IsSamePlace self.old.node self.new.node }
        ensures counted { IfOk result (λ reply. IfSome reply IsCounted) }
        ensures fits { IfOk result (λ reply. IfSome reply Within) }
        ensures err { OnErr result (self.new.node ≡ self.old.node) }
        ensures stands { StandsIfUp D.Disk disk.new self.new }
        ensures journal { KeepsIfUp D.Disk disk.old disk.new self.old self.new
            (added_at message.now self.old.node) (take_end result) }
        ensures down { EndsDownExactly disk.old disk.new self.old self.new (take_end result) }
        ensures fault { IfErr result (IsJournalledFault from message.now self.old) }
        ensures room { OnOk result (HadRoom self.old (added_at message.now self.old.node)) }
        ensures faults { CountsFailures D.faults TakeFault.Disk disk.old disk.new result }
    {
        if self.is_down() {
            return Err(TakeFault::Down);
        }
        take(
            self.alloc,
            &mut self.node,
            &mut self.log,
            &mut self.lost,
            disk,
            from,
            message,
        )
    }

    /// Publishes an order at the top: a function with its arguments, for a target by its text of this kind, at a moment in microseconds
    /// since 1970-01-01 UTC. Its jid is answered once the record of its job is on the disk. After an error the node in memory is as before;
    /// after `Disk`, and where memory ran out once the record was in the log, the node is down.
    ///
    /// The disk is to be as the last call of this node left it.
    pub fn publish<D: Disk>(
        &mut self,
        disk: &mut D,
        moment: u64,
        kind: Kind,
        tgt: &str,
        fun: &Word,
        args: &[Value],
    ) -> Result<Jid, PublishFault>
        requires top { self.old.node.me ≡ 0 }
        requires stands { StandsIfUp D.Disk disk.old self.old }
        ensures ok { IfOk result (PublishesOrder moment
            (order kind tgt.now fun.now args.now) self.old.node self.new.node) }
        ensures place { IsSamePlace self.old.node self.new.node }
        ensures err { OnErr result (self.new.node ≡ self.old.node) }
        ensures stands { StandsIfUp D.Disk disk.new self.new }
        ensures journal { KeepsIfUp D.Disk disk.old disk.new self.old self.new
            (published_at moment (order kind tgt.now fun.now args.now) self.old.node)
            (publish_end result) }
        ensures down { EndsDownExactly disk.old disk.new self.old self.new (publish_end result) }
        ensures fault { IfErr result (IsJournalledRefusal moment
            (order kind tgt.now fun.now args.now) self.old) }
        ensures room { OnOk result (HadRoom self.old
            (published_at moment (order kind tgt.now fun.now args.now) self.old.node)) }
        ensures faults { CountsFailures D.faults PublishFault.Disk disk.old disk.new result }
    {
        if self.is_down() {
            return Err(PublishFault::Down);
        }
        publish(
            self.alloc,
            &mut self.node,
            &mut self.log,
            &mut self.lost,
            disk,
            moment,
            kind,
            tgt,
            fun,
            args,
        )
    }
}
