//! A settle: each job goes down the tree and then each entry up, one message after the other.
ghost use Rattle.std.specs.Prelude.{◌≡◌, ◌<◌, length, IfErr, OnOk};
ghost use Rattle.node_core.specs.Node.{IsCounted};
ghost use Rattle.salt_wire.specs.Limits.{Within};
ghost use Rattle.tree_world.specs.Halts.{IsSettleHalt, IsExchangeHalt, IsWantOfMemory};
ghost use Rattle.tree_world.specs.Settle.{known_jobs_at, known_ups_at, node_log};
ghost use Rattle.tree_world.specs.Steps as steps;
ghost use Rattle.tree_world.specs.Steps.{BringsNoJob, Exchanges, HandsOver};

use crate::world::{Halt, World, push_packet};
use salt_value::NodeId;
use salt_wire::Message;
use sqlite_items::at;

impl<'f> World<'f> {
    /// Each job goes down the tree and then each entry up, one message after the other, each of them taken and answered.
    #[tactic(auto, using(crate::proofs::Brings::memory_stops, crate::proofs::Brings::stops_before))]
    pub fn settle(&mut self) -> Result<(), Halt>
        ensures state { OnOk result (HandsOver self.old self.new.network) }
        ensures fleet { self.new.fleet ≡ self.old.fleet }
        ensures halt { IfErr result (IsSettleHalt self.old.network) }
    {
        self.down_pass()?;
        self.up_pass()
    }

    // The jobs of each node, in list order, go to each of its children.
    #[tactic(auto, using(crate::proofs::Brings::brings_on, crate::proofs::Brings::brings_none, crate::proofs::Brings::stops_before))]
    fn down_pass(&mut self) -> Result<(), Halt>
        ensures state { OnOk result (steps.PassesDown self.old self.new.network) }
        ensures fleet { self.new.fleet ≡ self.old.fleet }
        ensures jobs { OnOk result (BringsNoJob self.old.network self.new.network) }
        ensures halt { IfErr result (IsSettleHalt self.old.network) }
    {
        for p in 0..self.fleet().count() {
            self.down_if_master(NodeId::new(p))?;
        }
        Ok(())
    }

    // The jobs of a node go to each of its children. A minion has none.
    #[tactic(auto, using(crate::proofs::Minions::childless, crate::proofs::Brings::brings_none))]
    fn down_if_master(&mut self, p: NodeId) -> Result<(), Halt>
        requires { p < length self.old.fleet.tree }
        ensures state { OnOk result (steps.TellsChildren p self.old self.new.network) }
        ensures fleet { self.new.fleet ≡ self.old.fleet }
        ensures jobs { OnOk result (BringsNoJob self.old.network self.new.network) }
        ensures halt { IfErr result (IsSettleHalt self.old.network) }
    {
        let _nodes = self.fleet().count();
        if self.fleet().is_minion(p) {
            Ok(())
        } else {
            self.down_children(p)
        }
    }

    // The jobs of a node go to each of its children.
    #[tactic(auto, using(crate::proofs::Brings::brings_on, crate::proofs::Brings::brings_none, crate::proofs::Brings::stops_before))]
    fn down_children(&mut self, p: NodeId) -> Result<(), Halt>
        requires { p < length self.old.fleet.tree }
        ensures state { OnOk result (steps.TellsChildren p self.old self.new.network) }
        ensures fleet { self.new.fleet ≡ self.old.fleet }
        ensures jobs { OnOk result (BringsNoJob self.old.network self.new.network) }
        ensures halt { IfErr result (IsSettleHalt self.old.network) }
    {
        for c in 0..self.fleet().count() {
            self.down_if_child(p, NodeId::new(c))?;
        }
        Ok(())
    }

    // The jobs of a node go to another one, if that is a child.
    #[tactic(auto, using(crate::proofs::Brings::brings_none))]
    fn down_if_child(&mut self, p: NodeId, c: NodeId) -> Result<(), Halt>
        requires node { p < length self.old.fleet.tree }
        requires other { c < length self.old.fleet.tree }
        ensures state { OnOk result (steps.TellsIfChild p c self.old self.new.network) }
        ensures fleet { self.new.fleet ≡ self.old.fleet }
        ensures jobs { OnOk result (BringsNoJob self.old.network self.new.network) }
        ensures halt { IfErr result (IsSettleHalt self.old.network) }
    {
        if self.fleet().is_parent(p, c) {
            self.down_child(p, c)
        } else {
            Ok(())
        }
    }

    // The jobs of a node that a child is not known to hold go to it, one by one.
    #[tactic(auto, using(crate::proofs::Loops::down_on, crate::proofs::Loops::down_end, crate::proofs::Loops::down_none, crate::proofs::Brings::brings_on, crate::proofs::Brings::brings_none, crate::proofs::Brings::stops_before))]
    fn down_child(&mut self, p: NodeId, c: NodeId) -> Result<(), Halt>
        requires node { p < length self.old.fleet.tree }
        requires child { c < length self.old.fleet.tree }
        ensures state { OnOk result (steps.TellsChild p c self.old self.new.network) }
        ensures fleet { self.new.fleet ≡ self.old.fleet }
        ensures jobs { OnOk result (BringsNoJob self.old.network self.new.network) }
        ensures halt { IfErr result (IsSettleHalt self.old.network) }
    {
        let left = self
            .nodes
            .get(p)
            .jobs_held()
            .saturating_sub(self.known_jobs(p, c));
        for _ in 0..left {
            let known = self.known_jobs(p, c);
            self.down_step(p, c)?;
            if self.known_jobs(p, c) <= known {
                return Ok(());
            }
        }
        Ok(())
    }

    // How many jobs a child is known to hold.
    fn known_jobs(&self, p: NodeId, c: NodeId) -> u32
        requires { p < length self.now.fleet.tree }
        ensures { result ≡ known_jobs_at self.now.network p c }
    {
        self.nodes.get(p).known_jobs(c)
    }

    // The first job that a child is not known to hold goes to it, if there is one.
    #[tactic(auto, using(crate::proofs::Brings::sent_brings, crate::proofs::Brings::brings_none, crate::proofs::Brings::job_stops))]
    fn down_step(&mut self, p: NodeId, c: NodeId) -> Result<(), Halt>
        requires node { p < length self.old.fleet.tree }
        requires child { c < length self.old.fleet.tree }
        ensures state { OnOk result (steps.TellsJob p c self.old self.new.network) }
        ensures fleet { self.new.fleet ≡ self.old.fleet }
        ensures jobs { OnOk result (BringsNoJob self.old.network self.new.network) }
        ensures halt { IfErr result (IsSettleHalt self.old.network) }
    {
        let seq = self.known_jobs(p, c);
        let Some(job) = at(self.nodes.get(p).jobs(), seq as usize) else {
            return Ok(());
        };
        let message = Message::Pub {
            seq,
            job: job.copy(self.alloc)?,
        };
        self.exchange(p, c, &message)
    }

    // A message is sent and taken, and then its reply, if there is one.
    #[tactic(auto, using(crate::proofs::Brings::sent_stops))]
    fn exchange(&mut self, from: NodeId, to: NodeId, message: &Message) -> Result<(), Halt>
        requires fits { Within message.now }
        requires counted { IsCounted message.now }
        ensures state { OnOk result (Exchanges from to message.now self.old self.new.network) }
        ensures fleet { self.new.fleet ≡ self.old.fleet }
        ensures halt { IfErr result (IsExchangeHalt message.now) }
    {
        let i = self.packets.len() as u64;
        push_packet(self.alloc, &mut self.packets, from, to, message)?;
        self.deliver(i)?;
        self.deliver(i + 1)
    }

    // The entries of each node but the top, the last first, go to its parent.
    #[tactic(auto, using(crate::proofs::Loops::up_next, crate::proofs::Loops::up_over))]
    fn up_pass(&mut self) -> Result<(), Halt>
        ensures state { OnOk result (steps.PassesUp self.old self.new.network) }
        ensures fleet { self.new.fleet ≡ self.old.fleet }
        ensures halt { IfErr result IsWantOfMemory }
    {
        let count = self.fleet().count();
        for i in 0..count {
            self.up_if_below(NodeId::new(count - 1 - i))?;
        }
        Ok(())
    }

    // The entries of a node's minions go to its parent, if it has one.
    fn up_if_below(&mut self, c: NodeId) -> Result<(), Halt>
        requires { c < length self.old.fleet.tree }
        ensures state { OnOk result (steps.TellsIfBelow c self.old self.new.network) }
        ensures fleet { self.new.fleet ≡ self.old.fleet }
        ensures halt { IfErr result IsWantOfMemory }
    {
        if 0 < c.place() {
            self.up_minions(c)
        } else {
            Ok(())
        }
    }

    // The entries of each minion at or below a node go to its parent.
    fn up_minions(&mut self, c: NodeId) -> Result<(), Halt>
        requires { c < length self.old.fleet.tree }
        ensures state { OnOk result (steps.TellsParent c self.old self.new.network) }
        ensures fleet { self.new.fleet ≡ self.old.fleet }
        ensures halt { IfErr result IsWantOfMemory }
    {
        let minions = self.fleet().minions(self.alloc, c)?;
        for minion in &minions {
            self.up_minion(c, *minion)?;
        }
        Ok(())
    }

    // The entries of one minion that the parent of a node is not known to hold go to it, one by one.
    #[tactic(auto, using(crate::proofs::Loops::up_on, crate::proofs::Loops::up_end, crate::proofs::Loops::up_none))]
    fn up_minion(&mut self, c: NodeId, minion: NodeId) -> Result<(), Halt>
        requires node { c < length self.old.fleet.tree }
        requires minion { minion < length self.old.fleet.tree }
        ensures state { OnOk result (steps.TellsLog c minion self.old self.new.network) }
        ensures fleet { self.new.fleet ≡ self.old.fleet }
        ensures halt { IfErr result IsWantOfMemory }
    {
        let left = self
            .entries(c, minion)
            .saturating_sub(self.known_ups(c, minion));
        for _ in 0..left {
            let known = self.known_ups(c, minion);
            self.up_step(c, minion)?;
            if self.known_ups(c, minion) <= known {
                return Ok(());
            }
        }
        Ok(())
    }

    // How many entries of a minion a node has.
    fn entries(&self, c: NodeId, minion: NodeId) -> u32
        requires node { c < length self.now.fleet.tree }
        requires minion { minion < length self.now.fleet.tree }
        ensures { result ≡ length (node_log self.now.fleet.tree self.now.network c minion) }
    {
        self.nodes.get(c).log(&self.fleet().id(minion)).len() as u32
    }

    // How many entries of a minion the parent of a node is known to hold.
    fn known_ups(&self, c: NodeId, minion: NodeId) -> u32
        requires { c < length self.now.fleet.tree }
        ensures { result ≡ known_ups_at self.now.network c minion }
    {
        self.nodes.get(c).known_ups(minion)
    }

    // The first entry of a minion that the parent of a node is not known to hold goes to it, if there is one.
    #[tactic(auto, using(crate::proofs::Brings::entry_stops))]
    fn up_step(&mut self, c: NodeId, minion: NodeId) -> Result<(), Halt>
        requires node { c < length self.old.fleet.tree }
        requires minion { minion < length self.old.fleet.tree }
        ensures state { OnOk result (steps.TellsEntry c minion self.old self.new.network) }
        ensures fleet { self.new.fleet ≡ self.old.fleet }
        ensures halt { IfErr result IsWantOfMemory }
    {
        let n = self.known_ups(c, minion);
        let id = self.fleet().id(minion);
        let Some(entry) = at(self.nodes.get(c).log(&id), n as usize) else {
            return Ok(());
        };
        let message = Message::Up {
            minion: id,
            n,
            entry: entry.copy(self.alloc)?,
        };
        let parent = self.fleet().parent(c);
        self.exchange(c, parent, &message)
    }
}
