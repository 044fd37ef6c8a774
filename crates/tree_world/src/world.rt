//! The network of a fleet, and its turns.
ghost use Rattle.std.specs.Prelude.{◌≡◌, ◌<◌, ◌^◌, All, length, map, true, IfOk, IfErr, IfSome, OnOk};
ghost use Rattle.node_core.specs.Node.{is_neighbour, IsCounted};
ghost use Rattle.salt_wire.specs.Limits.{Within};
ghost use Rattle.tree_world.specs.Halts as halts;
ghost use Rattle.tree_world.specs.Halts.{IsReceiptHalt, NeverTooBig, CountsWriteFaults};
ghost use Rattle.tree_world.specs.Steps.{TakesPacket, IsReplyTo, AddsReply, AddsPacket, AddsPackets};
ghost use Rattle.salt_outside.specs.Streams.{contents_after, IsPart};

use crate::nodes::Nodes;
use crate::packet::Packet;
use crate::queries::{counts_text, data_text, exit_text, jobs_text, settled_text, summary_text};
use crate::report::{row_count, rows_of, sort_by_id};
use crate::text::{
    missing_text, number_of, packet_text, published_text, refused_text, rows_text, unknown_text,
};
use exec_functions::Holdings;
use fleet_config::Fleet;
use fleet_turns::Turn;
use node_core::{PublishFault, TakeFault};
use salt_outside::{Outside, Sink};
use salt_value::{Jid, NodeId, Text, Value, Word};
use salt_wire::Message;
use sqlite_items::at;
use std::alloc::{AllocError, Global};
use std::marker::Model;
use target_tree::Kind;
use thiserror::Error;

/// The greatest number of messages that one turn sends.
pub const MOST_SENT: u64 = 4_294_967_295;

/// A fleet, its nodes, and the packets that were ever sent.
#[derive(Drop)]
pub struct World<'f> {
    pub(crate) alloc: Global,
    order: Vec<NodeId>,
    pub(crate) nodes: Nodes<'f>,
    pub(crate) packets: Vec<Packet>,
}

impl<'f> Model for World<'f> {
    ghost use Rattle.tree_world.specs.Network.{System};

    ghost Value = { System };

    ghost use Rattle.salt_value.specs.contracts.value.Value as value;
    ghost use Rattle.target_tree.specs.contracts.target.Target as target;
    ghost use Rattle.std.specs.Coded.{codes};

    ghost coded = { Prim.hlevel (codes, value.the_row.coded, target.the_row.coded) };

    ghost use Rattle.tree_world.specs.Nodes.{IsWhole};

    ghost view = { λ w. record { fleet = w.nodes.fleet; network = record { nodes = w.nodes.states; packets = w.packets.items } } };

    ghost invariant = { λ w. IsWhole w.nodes w.order.items };
}

/// Why a turn was not finished. The world is given up.
#[derive(Clone, Copy, Debug, Error, PartialEq, Eq)]
pub enum StepFault {
    #[error("no memory was found")]
    NoMemory,
    /// The pattern of this leaf of a job's target can be read, but its tables would pass 10 MiB, the limit of `regex`.
    #[error("the pattern of leaf {leaf} is too big")]
    TooBig { leaf: u32 },
    #[error("the text could not be written")]
    WriteFault,
}

impl From<AllocError> for StepFault {
    ghost use Rattle.tree_world.specs.declared.world.StepFault.TheVariants.{NoMemory};

    ghost from_gives = { λ _ e. e ≡ NoMemory };

    fn from(_: AllocError) -> StepFault {
        StepFault::NoMemory
    }
}

/// Why a turn stops before its text is written.
#[derive(Clone, Copy, Debug, PartialEq, Eq)]
pub enum Halt {
    NoMemory,
    TooBig { leaf: u32 },
}

impl From<AllocError> for Halt {
    ghost use Rattle.tree_world.specs.declared.world.Halt.TheVariants.{NoMemory};

    ghost from_gives = { λ _ e. e ≡ NoMemory };

    fn from(_: AllocError) -> Halt {
        Halt::NoMemory
    }
}

// The fault of a turn that stopped.
fn step_fault(halt: Halt) -> StepFault
    ensures { result ≡ halts.step_fault halt }
{
    match halt {
        Halt::NoMemory => StepFault::NoMemory,
        Halt::TooBig { leaf } => StepFault::TooBig { leaf },
    }
}

impl<'f> World<'f> {
    ghost use Rattle.tree_world.specs.Network.{System, system};
    ghost use Rattle.tree_world.specs.Runs.{Follows};
    ghost use Rattle.fleet_config.specs.Tree.{is_minion};
    ghost use Rattle.fleet_turns.specs.Turns.{IsTurn};
    ghost use Rattle.node_core.specs.Node.{is_neighbour};
    ghost use Rattle.tree_world.specs.Halts.{Halts, IsStepFault};
    ghost use Rattle.tree_world.specs.Text.{turn_text, Prints, PrintsPart};

    /// The nodes of a fleet as they start, where it has one: each minion has booted once.
    pub fn of(alloc: Global, fleet: &'f Fleet) -> Result<World<'f>, AllocError>
        requires { 0 < length fleet.now.tree }
        ensures { IfOk result (λ world. world ≡ system fleet.now) }
    {
        let mut order = fleet.minions(alloc, NodeId::TOP)?;
        sort_by_id(fleet, &mut order)?;
        Ok(World {
            alloc,
            order,
            nodes: Nodes::start(alloc, fleet)?,
            packets: Vec::new(alloc),
        })
    }

    /// The fleet, which stays as it is.
    pub fn fleet(&self) -> &Fleet
        ensures value { result.now ≡ self.now.fleet }
        ensures some { 0 < length self.now.fleet.tree }
    {
        self.nodes.fleet()
    }

    /// One turn: the network goes on by its step, and what the turn prints is written to the sink. After an `Err` the world is given
    /// up, and a front of the text was written.
    pub fn step<K: Sink>(&mut self, turn: &Turn, sink: &mut K) -> Result<(), StepFault>
        requires { IsTurn self.old.fleet turn.now }
        ensures ok { OnOk result (Follows turn.now self.old self.new.network) }
        ensures fleet { self.new.fleet ≡ self.old.fleet }
        ensures text { OnOk result (Prints turn.now self.old (K.held sink.old) (K.held sink.new)) }
        ensures part { PrintsPart turn.now self.old (K.held sink.old) (K.held sink.new) }
        ensures faults { CountsWriteFaults result (K.faults sink.old) (K.faults sink.new) }
        ensures fault { IfErr result (IsStepFault self.old.fleet turn.now self.old.network) }
    {
        match self.turn(turn) {
            Ok(text) => tell_some(sink, &text),
            Err(halt) => Err(step_fault(halt)),
        }
    }

    // The network goes on by a turn, and answers the text that the turn prints.
    #[tactic(auto, using(crate::proofs::Brings::settle_stops))]
    fn turn(&mut self, turn: &Turn) -> Result<Vec<u8>, Halt>
        requires { IsTurn self.old.fleet turn.now }
        ensures state { OnOk result (Follows turn.now self.old self.new.network) }
        ensures fleet { self.new.fleet ≡ self.old.fleet }
        ensures text { IfOk result (λ v. v.items ≡ turn_text turn.now self.old) }
        ensures halt { IfErr result (Halts turn.now self.old) }
    {
        match turn {
            Turn::Publish {
                moment,
                kind,
                tgt,
                fun,
                args,
            } => self.publish(*moment, *kind, tgt, fun, args.as_slice()),
            Turn::Send { from, to, count } => {
                self.send(*from, *to, *count)?;
                Ok(Vec::new(self.alloc))
            }
            Turn::Deliver { packet } => {
                self.deliver(*packet)?;
                Ok(Vec::new(self.alloc))
            }
            Turn::Settle => {
                self.settle()?;
                Ok(settled_text(self.alloc)?)
            }
            Turn::Report { jid } => Ok(self.report(*jid)?),
            Turn::Exit { jid } => Ok(self.exit(*jid)?),
            Turn::Jobs => Ok(self.jobs()?),
            Turn::Summary => Ok(self.summary()?),
            Turn::Data { node } => Ok(self.data(*node)?),
            Turn::Counts { node } => Ok(self.counts(*node)?),
            Turn::Packet { packet } => Ok(self.packet(*packet)?),
        }
    }

    // A publication at the top, and its line.
    #[tactic(auto, using(crate::proofs::Placed::whole_after))]
    fn publish(
        &mut self,
        moment: u64,
        kind: Kind,
        tgt: &Text,
        fun: &Word,
        args: &[Value],
    ) -> Result<Vec<u8>, Halt>
        ensures state { OnOk result (Follows
            (Turn.Publish moment kind tgt.now fun.now args.now) self.old self.new.network) }
        ensures fleet { self.new.fleet ≡ self.old.fleet }
        ensures text { IfOk result (λ v. v.items ≡ turn_text
            (Turn.Publish moment kind tgt.now fun.now args.now) self.old) }
        ensures halt { IfErr result (Halts
            (Turn.Publish moment kind tgt.now fun.now args.now) self.old) }
    {
        match self.nodes.publish(moment, kind, tgt, fun, args) {
            Ok(jid) => Ok(published_text(self.alloc, jid)?),
            Err(PublishFault::Refused { cause }) => Ok(refused_text(self.alloc, cause)?),
            Err(PublishFault::TooBig { leaf }) => Err(Halt::TooBig { leaf }),
            Err(PublishFault::NoMemory) => Err(Halt::NoMemory),
        }
    }

    // The lines of a report.
    fn report(&self, jid: Jid) -> Result<Vec<u8>, AllocError>
        ensures { IfOk result (λ v. v.items ≡ turn_text (Turn.Report jid) self.now) }
    {
        let top = self.nodes.get(NodeId::TOP);
        let Some(seq) = number_of(jid, top.jobs()) else {
            return unknown_text(self.alloc, jid);
        };
        let rows = rows_of(self.alloc, self.fleet(), top, seq as u32, &self.order)?;
        rows_text(self.alloc, jid, &top.jobs()[seq].fun, &rows)
    }

    // The lines of a report, each with whether its retcode is 0.
    fn exit(&self, jid: Jid) -> Result<Vec<u8>, AllocError>
        ensures { IfOk result (λ v. v.items ≡ turn_text (Turn.Exit jid) self.now) }
    {
        let top = self.nodes.get(NodeId::TOP);
        let Some(seq) = number_of(jid, top.jobs()) else {
            return unknown_text(self.alloc, jid);
        };
        let rows = rows_of(self.alloc, self.fleet(), top, seq as u32, &self.order)?;
        exit_text(self.alloc, jid, &rows)
    }

    // The lines of the list of jobs.
    fn jobs(&self) -> Result<Vec<u8>, AllocError>
        ensures { IfOk result (λ v. v.items ≡ turn_text Turn.Jobs self.now) }
    {
        let top = self.nodes.get(NodeId::TOP);
        jobs_text(self.alloc, top.jobs())
    }

    // The line of how many jobs there are, and how many rows their reports have.
    fn summary(&self) -> Result<Vec<u8>, AllocError>
        ensures { IfOk result (λ v. v.items ≡ turn_text Turn.Summary self.now) }
    {
        let top = self.nodes.get(NodeId::TOP);
        let jobs = top.jobs().len();
        let rows = row_count(self.fleet(), top, jobs as u32, &self.order);
        summary_text(self.alloc, jobs, rows)
    }

    // The line of what a minion holds.
    #[tactic(auto, using(crate::proofs::Minions::minion_low, crate::proofs::Minions::held_some))]
    fn data(&self, node: NodeId) -> Result<Vec<u8>, AllocError>
        requires { is_minion self.now.fleet.tree node ≡ true }
        ensures { IfOk result (λ v. v.items ≡ turn_text (Turn.Data node) self.now) }
    {
        let id = self.fleet().id(node);
        match self.nodes.get(node).holdings() {
            Some(held) => data_text(self.alloc, &id, held),
            None => data_text(self.alloc, &id, &Holdings::none(self.alloc)),
        }
    }

    // The line of how many jobs a node holds, and how many entries it has of each minion at or below it.
    fn counts(&self, node: NodeId) -> Result<Vec<u8>, AllocError>
        requires { node < length self.now.fleet.tree }
        ensures { IfOk result (λ v. v.items ≡ turn_text (Turn.Counts node) self.now) }
    {
        counts_text(self.alloc, self.fleet(), node, self.nodes.get(node))
    }

    // The line of a packet.
    fn packet(&self, i: u64) -> Result<Vec<u8>, AllocError>
        ensures { IfOk result (λ v. v.items ≡ turn_text (Turn.Packet i) self.now) }
    {
        match at(&self.packets, i as usize) {
            Some(packet) => packet_text(self.alloc, self.fleet(), i, packet),
            None => missing_text(self.alloc, i),
        }
    }

    // The pending messages of a node for a neighbour, as packets.
    fn send(&mut self, from: NodeId, to: NodeId, count: u64) -> Result<(), AllocError>
        requires from { from < length self.old.fleet.tree }
        requires neighbour { is_neighbour self.old.fleet.tree from to ≡ true }
        ensures state { OnOk result (Follows (Turn.Send from to count) self.old self.new.network) }
        ensures fleet { self.new.fleet ≡ self.old.fleet }
    {
        let max = count.min(MOST_SENT) as u32;
        let messages = self.nodes.pending(from, to, max)?;
        push_packets(self.alloc, &mut self.packets, from, to, &messages)
    }

    // The receiver takes a packet, and its reply is a packet.
    #[tactic(auto, using(crate::proofs::Delivers::delivered_past, crate::proofs::Delivers::delivered_to, crate::proofs::Placed::whole_after))]
    pub(crate) fn deliver(&mut self, i: u64) -> Result<(), Halt>
        requires { i < 2 ^ 64 }
        ensures halt { IfErr result (Halts (Turn.Deliver i) self.old) }
        ensures state { OnOk result (Follows (Turn.Deliver i) self.old self.new.network) }
        ensures fleet { self.new.fleet ≡ self.old.fleet }
    {
        let Some(packet) = at(&self.packets, i as usize) else {
            return Ok(());
        };
        let (from, to) = (packet.from(), packet.to());
        if to.place() >= self.nodes.fleet().count() {
            return Ok(());
        }
        let reply = take_packet(self.alloc, &mut self.nodes, packet)?;
        push_reply(self.alloc, &mut self.packets, from, to, reply)?;
        Ok(())
    }
}

// The receiver takes a packet, and may reply.
fn take_packet(alloc: Global, nodes: &mut Nodes, packet: &Packet) -> Result<Option<Message>, Halt>
    requires node { packet.now.to < length nodes.old.states }
    ensures fleet { nodes.new.fleet ≡ nodes.old.fleet }
    ensures count { length nodes.new.states ≡ length nodes.old.states }
    ensures nodes { OnOk result (TakesPacket nodes.old.fleet packet.now
        nodes.old.states nodes.new.states) }
    ensures reply { IfOk result (IsReplyTo nodes.old.fleet nodes.old.states packet.now) }
    ensures fits { IfOk result (λ reply. IfSome reply Within) }
    ensures counted { IfOk result (λ reply. IfSome reply IsCounted) }
    ensures halt { IfErr result (IsReceiptHalt nodes.old.states packet.now) }
{
    let message = packet.message(alloc)?;
    let taken = nodes.take(packet.from(), packet.to(), &message);
    drop(message);
    match taken {
        Ok(reply) => Ok(reply),
        Err(TakeFault::Stray { .. }) => Ok(None),
        Err(TakeFault::TooBig { leaf }) => Err(Halt::TooBig { leaf }),
        Err(TakeFault::NoMemory) => Err(Halt::NoMemory),
    }
}

// A reply as a packet, if there is one.
fn push_reply(
    alloc: Global,
    packets: &mut Vec<Packet>,
    from: NodeId,
    to: NodeId,
    reply: Option<Message>,
) -> Result<(), AllocError>
    requires fits { IfSome reply Within }
    requires counted { IfSome reply IsCounted }
    ensures { OnOk result (AddsReply from to reply packets.old.items packets.new.items) }
{
    if let Some(message) = reply {
        let packet = Packet::new(alloc, to, from, &message);
        drop(message);
        packets.push(packet?)?;
    }
    Ok(())
}

// These messages as packets, after those that are there.
fn push_packets(
    alloc: Global,
    packets: &mut Vec<Packet>,
    from: NodeId,
    to: NodeId,
    messages: &[Message],
) -> Result<(), AllocError>
    requires fits { All Within messages.now }
    requires counted { All IsCounted messages.now }
    ensures { OnOk result (AddsPackets from to messages.now packets.old.items packets.new.items) }
{
    for message in messages {
        push_packet(alloc, packets, from, to, message)?;
    }
    Ok(())
}

/// A message as a packet, after those that are there.
pub fn push_packet(
    alloc: Global,
    packets: &mut Vec<Packet>,
    from: NodeId,
    to: NodeId,
    message: &Message,
) -> Result<(), AllocError>
    requires fits { Within message.now }
    requires counted { IsCounted message.now }
    ensures { OnOk result (AddsPacket from to message.now packets.old.items packets.new.items) }
{
    packets.push(Packet::new(alloc, from, to, message)?)?;
    Ok(())
}

/// Writes a text.
pub fn tell<K: Sink>(sink: &mut K, text: &[u8]) -> Result<(), StepFault>
    ensures ok { OnOk result (K.held sink.new ≡ contents_after (K.held sink.old) text.now) }
    ensures part { IsPart (K.held sink.old) (K.held sink.new) text.now }
    ensures faults { CountsWriteFaults result (K.faults sink.old) (K.faults sink.new) }
    ensures small { IfErr result NeverTooBig }
{
    match sink.write(text) {
        Ok(()) => Ok(()),
        Err(Outside::NoMemory) => Err(StepFault::NoMemory),
        Err(Outside::Failed) => Err(StepFault::WriteFault),
    }
}

// Writes a text, if it has a byte.
fn tell_some<K: Sink>(sink: &mut K, text: &[u8]) -> Result<(), StepFault>
    ensures ok { OnOk result (K.held sink.new ≡ contents_after (K.held sink.old) text.now) }
    ensures part { IsPart (K.held sink.old) (K.held sink.new) text.now }
    ensures faults { CountsWriteFaults result (K.faults sink.old) (K.faults sink.new) }
    ensures small { IfErr result NeverTooBig }
{
    if text.is_empty() {
        return Ok(());
    }
    tell(sink, text)
}
