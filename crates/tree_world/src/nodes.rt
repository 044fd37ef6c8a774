//! The nodes of a fleet.
ghost use Rattle.std.specs.Prelude.{◌≡◌, ◌<◌, true, length, All, IfOk, IfErr, IfSome, OnOk, OnErr};
ghost use Rattle.node_core.specs.Node.{is_neighbour, IsCounted};
ghost use Rattle.node_core.specs.Publications.{order};
ghost use Rattle.salt_wire.specs.Limits.{Within};
ghost use Rattle.tree_world.specs.Network.{node_at};
ghost use Rattle.tree_world.specs.Nodes.{starting_nodes, TakesAt, StaysAt, DeniesAt, PublishesAtTop, DeniesAtTop};
ghost use Rattle.tree_world.specs.Steps.{first_pending};

use fleet_config::Fleet;
use node_core::{Node, PendFault, PublishFault, TakeFault};
use salt_value::{Jid, NodeId, Text, Value, Word};
use salt_wire::Message;
use std::alloc::{AllocError, Global};
use std::marker::Model;
use target_tree::Kind;

/// The nodes of a fleet in list order, each at its place.
#[derive(Drop)]
pub struct Nodes<'f> {
    fleet: &'f Fleet,
    nodes: Vec<Node<'f>>,
}

impl<'f> Model for Nodes<'f> {
    ghost use Rattle.std.specs.Coded.{codes};
    ghost use Rattle.salt_value.specs.contracts.value.Value as value;
    ghost use Rattle.target_tree.specs.contracts.target.Target as target;
    ghost use Rattle.tree_world.specs.Nodes.{FleetNodes, ArePlaced, states_of};

    ghost Value = { FleetNodes };

    ghost coded = { Prim.hlevel (codes, value.the_row.coded, target.the_row.coded) };

    ghost view = { λ n. record { fleet = n.fleet.now; states = states_of n.nodes.items } };

    ghost invariant = { λ n. ArePlaced n.fleet.now n.nodes.items };
}

impl<'f> Nodes<'f> {
    /// The nodes of a fleet as they start: each minion has booted once.
    pub fn start(alloc: Global, fleet: &'f Fleet) -> Result<Nodes<'f>, AllocError>
        ensures ok { IfOk result (λ nodes. nodes ≡ starting_nodes fleet.now) }
    {
        let mut nodes = Vec::new(alloc);
        for place in 0..fleet.count() {
            nodes.push(Node::start(alloc, fleet, NodeId::new(place))?)?;
        }
        Ok(Nodes { fleet, nodes })
    }

    /// The fleet.
    pub fn fleet(&self) -> &Fleet
        ensures value { result.now ≡ self.now.fleet }
        ensures count { length self.now.states ≡ length self.now.fleet.tree }
    {
        self.fleet
    }

    /// The node at a place.
    pub fn get(&self, place: NodeId) -> &Node<'f>
        requires within { place < length self.now.states }
        ensures state { result.now.state ≡ node_at self.now.states place }
        ensures fleet { result.now.fleet ≡ self.now.fleet }
        ensures me { result.now.me ≡ place }
    {
        &self.nodes[place.index()]
    }

    /// The node at a place takes a message from another one, and may reply. After an error every node is as before.
    pub fn take(
        &mut self,
        from: NodeId,
        to: NodeId,
        message: &Message,
    ) -> Result<Option<Message>, TakeFault>
        requires within { to < length self.old.states }
        requires counted { IsCounted message.now }
        requires fits { Within message.now }
        ensures fleet { self.new.fleet ≡ self.old.fleet }
        ensures count { length self.new.states ≡ length self.old.states }
        ensures ok { IfOk result (TakesAt self.old.fleet to from message.now
            self.old.states self.new.states) }
        ensures counted { IfOk result (λ reply. IfSome reply IsCounted) }
        ensures fits { IfOk result (λ reply. IfSome reply Within) }
        ensures err { OnErr result (StaysAt to self.old.states self.new.states) }
        ensures fault { IfErr result (DeniesAt to from message.now self.old) }
    {
        self.nodes[to.index()].take(from, message)
    }

    /// Publishes an order at the top. After an error all is as before.
    pub fn publish(
        &mut self,
        moment: u64,
        kind: Kind,
        tgt: &Text,
        fun: &Word,
        args: &[Value],
    ) -> Result<Jid, PublishFault>
        requires some { 0 < length self.old.states }
        ensures fleet { self.new.fleet ≡ self.old.fleet }
        ensures count { length self.new.states ≡ length self.old.states }
        ensures ok { IfOk result (PublishesAtTop moment
            (order kind tgt.now fun.now args.now) self.old self.new) }
        ensures err { OnErr result (self.new.states ≡ self.old.states) }
        ensures fault { IfErr result (DeniesAtTop moment
            (order kind tgt.now fun.now args.now) self.old) }
    {
        self.nodes[0].publish(moment, kind, tgt.as_str(), fun, args)
    }

    /// What a node has for a neighbour, at most `max` messages.
    pub fn pending(&self, from: NodeId, to: NodeId, max: u32) -> Result<Vec<Message>, AllocError>
        requires within { from < length self.now.states }
        requires neighbour { is_neighbour self.now.fleet.tree from to ≡ true }
        ensures ok { IfOk result (λ v. v.items
            ≡ first_pending self.now.fleet.tree from to max self.now.states) }
        ensures counted { IfOk result (λ v. All IsCounted v.items) }
        ensures fits { IfOk result (λ v. All Within v.items) }
    {
        match self.get(from).pending(to, max) {
            Ok(messages) => Ok(messages),
            Err(PendFault::NoMemory) => Err(AllocError),
            Err(PendFault::NotNeighbour) => unreachable!(),
        }
    }
}
