//! A node of a fleet, and the calls on it.
ghost use Rattle.std.specs.Prelude.{◌≡◌, ◌≢◌, ◌<◌, ◌≤◌, ◌+◌, ◌-◌, ◌==◌, ◌^◌, Option, Some, None, Ok, Err, true, false, not, take, length, All, IfOk, IfErr, IfSome, OnOk, OnErr, IsErrOf, is_none, if◌then◌else◌};
ghost use Rattle.std.specs.Option.{option_copied};
ghost use Rattle.fleet_config.specs.Limits.{most_jobs};
ghost use Rattle.node_core.specs.Index.{IsStoreOf};
ghost use Rattle.node_core.specs.NextRecords.{IsAddedRecord, IsRecordFor, MayAdd, AreRecordsAt, is_next_at, has_log_room_at, placed_after};
ghost use Rattle.node_core.specs.Publications.{order, PublishesOrder, MakesOrderJob, DeniesOrder};
ghost use Rattle.node_core.specs.Steps.{IsRunBy, IsRunAnswer, first_stray_at, up_stray_at, raised_at, reply_at, IsNextJobDeed, IsTakenIn, AddsUps};
ghost use Rattle.minion_core.specs.Faults.{IsRunFault};
ghost use Rattle.exec_functions.specs.Limits.{AreWithin, no_holdings};
ghost use Rattle.salt_wire.specs.Limits.{JobFits};
ghost use Rattle.node_core.specs.declared.faults.PendFault.TheVariants.{NotNeighbour};

use crate::cores::Core;
use crate::counts::Counts;
use crate::history::History;
use crate::next::is_run;
use crate::publishing::order_job;
use crate::recording::{push_deed, push_done};
use crate::sending::{push_entries, push_pubs};
use crate::strays::{
    first_cause, is_below, is_here, is_later, is_neighbour, names_held, place_of, seq_of,
    stray_other, take_fault,
};
use crate::{PendFault, PublishFault, Stray, TakeFault};
use exec_functions::Holdings;
use fleet_config::{Fleet, MOST_JOBS, minions_are_found};
use job_store::{JobStore, outcomes_by_steps};
use master_core::{MasterCore, logs_by_steps};
use minion_core::{MinionCore, RunFault, job_record};
use salt_value::{Jid, MinionId, NodeId, Outcome, Value, Word};
use salt_wire::{Deed, Entry, Job, Message};
use std::alloc::{AllocError, Global};
use std::marker::Model;
use target_tree::Kind;

/// The most entries of its own log with which a minion starts, or adds more than two entries at once. The limit is this project's own.
pub const MOST_OWN_ENTRIES: u32 = 2_147_483_648;

/// A node of a fleet: its records, and the counts that it keeps in memory alone. What follows from the records is kept beside them, so
/// that no call goes through them.
#[derive(Drop)]
pub struct Node<'f> {
    alloc: Global,
    fleet: &'f Fleet,
    me: NodeId,
    below: Vec<NodeId>,
    records: History,
    core: Core,
    known_jobs: Counts,
    known_ups: Counts,
}

impl<'f> Model for Node<'f> {
    ghost use Rattle.node_core.specs.Node.{PlacedNode};
    ghost use Rattle.salt_value.specs.contracts.value.Value as value;
    ghost use Rattle.target_tree.specs.contracts.target.Target as target;
    ghost use Rattle.std.specs.Coded.{codes};
    ghost use Rattle.node_core.specs.Index.{IsIndex, is_minion_core, held_in};

    ghost Value = { PlacedNode };

    ghost coded = { Prim.hlevel (codes, value.the_row.coded, target.the_row.coded) };

    ghost view = { λ n. record { fleet = n.fleet.now; me = n.me; state = record { minion = is_minion_core n.core; records = n.records; held = held_in n.core; known_jobs = n.known_jobs; known_ups = n.known_ups } } };

    ghost invariant = { λ n. IsIndex n.fleet.now.tree n.me n.below.items n.records n.core };
}

impl<'f> Node<'f> {
    ghost use Rattle.fleet_config.specs.Tree.{is_minion, minions};
    ghost use Rattle.node_core.specs.Node.{PlacedNode, starting_node, empty_node, IsSamePlace, TakesMessage, DeniesMessage, IsApartFrom, holdings_of, pending_for, pending_down, pending_up, runs_next, is_neighbour, may_take, may_record, IsCounted};
    ghost use Rattle.node_core.specs.NextRecords.{is_next_job, is_next_run};
    ghost use Rattle.node_core.specs.Steps.{is_next_entry_at, IsNextEntryDeed, own_log};
    ghost use Rattle.node_core.specs.Records.{jobs, log, jobs_held};
    ghost use Rattle.node_core.specs.Counts.{known_count};
    ghost use Rattle.minion_core.specs.Flat.{return_of, is_first};
    ghost use Rattle.salt_wire.specs.Limits.{Within, EntryFits};
    ghost use Rattle.salt_wire.specs.declared.deed.Deed.TheVariants.{Publish, Up};

    /// The node at a place of this fleet as it starts: a minion boots, and a master has no record.
    pub fn start(alloc: Global, fleet: &'f Fleet, me: NodeId) -> Result<Node<'f>, AllocError>
        requires within { me < length fleet.now.tree }
        ensures ok { IfOk result (λ node. node ≡ starting_node fleet.now me) }
    {
        let mut node = Node::empty(alloc, fleet, me)?;
        if fleet.is_minion(me) {
            node.add_record(Deed::Boot)?;
        }
        Ok(node)
    }

    /// The node at a place of this fleet without a record, as it stands before its records are read.
    pub fn empty(alloc: Global, fleet: &'f Fleet, me: NodeId) -> Result<Node<'f>, AllocError>
        requires within { me < length fleet.now.tree }
        ensures ok { IfOk result (λ node. node ≡ empty_node fleet.now me) }
    {
        if fleet.is_minion(me) {
            Node::empty_minion(alloc, fleet, me)
        } else {
            Node::empty_master(alloc, fleet, me)
        }
    }

    // A minion without a record.
    fn empty_minion(alloc: Global, fleet: &'f Fleet, me: NodeId) -> Result<Node<'f>, AllocError>
        requires within { me < length fleet.now.tree }
        requires minion { is_minion fleet.now.tree me ≡ true }
        ensures ok { IfOk result (λ node. node ≡ empty_node fleet.now me) }
    {
        let core = MinionCore::new(alloc, fleet.held(me).copy(alloc)?);
        Ok(Node {
            alloc,
            fleet,
            me,
            below: fleet.minions(alloc, me)?,
            records: History::new(),
            core: Core::Minion(core),
            known_jobs: Counts::new(alloc),
            known_ups: Counts::new(alloc),
        })
    }

    // A master without a record.
    fn empty_master(alloc: Global, fleet: &'f Fleet, me: NodeId) -> Result<Node<'f>, AllocError>
        requires within { me < length fleet.now.tree }
        requires master { is_minion fleet.now.tree me ≡ false }
        ensures ok { IfOk result (λ node. node ≡ empty_node fleet.now me) }
    {
        let core = MasterCore::new(alloc, fleet.ids_below(alloc, me)?)?;
        Ok(Node {
            alloc,
            fleet,
            me,
            below: fleet.minions(alloc, me)?,
            records: History::new(),
            core: Core::Master(core),
            known_jobs: Counts::new(alloc),
            known_ups: Counts::new(alloc),
        })
    }

    /// The fleet.
    pub fn fleet(&self) -> &Fleet
        ensures value { result.now ≡ self.now.fleet }
    {
        self.fleet
    }

    /// Its place.
    pub fn me(&self) -> NodeId
        ensures value { result ≡ self.now.me }
        ensures within { self.now.me < length self.now.fleet.tree }
    {
        self.me
    }

    /// What it does with a message from another node: it takes it, and answers the reply if there is one, or the message is stray. A
    /// minion runs a job with the next number on what it holds then. After an error the node is as before.
    pub fn take(&mut self, from: NodeId, message: &Message) -> Result<Option<Message>, TakeFault>
        requires counted { IsCounted message.now }
        requires fits { Within message.now }
        ensures ok { IfOk result (TakesMessage from message.now self.old self.new) }
        ensures place { IsSamePlace self.old self.new }
        ensures counted { IfOk result (λ reply. IfSome reply IsCounted) }
        ensures fits { IfOk result (λ reply. IfSome reply Within) }
        ensures err { OnErr result (self.new ≡ self.old) }
        ensures fault { IfErr result (DeniesMessage from message.now self.old) }
    {
        let deed = self.record_for(from, message)?;
        Ok(self.take_with(from, message, deed)?)
    }

    /// The record that a message from another node adds, if any, before the node takes it: so that the record can be kept first. A minion
    /// runs a job with the next number on what it holds now. The message is stray as for `take`, and nothing changes.
    pub fn record_for(&self, from: NodeId, message: &Message) -> Result<Option<Deed>, TakeFault>
        requires counted { IsCounted message.now }
        requires fits { Within message.now }
        ensures ok { IfOk result (IsRecordFor from message.now self.now) }
        ensures fault { IfErr result (DeniesMessage from message.now self.now) }
    {
        if let Some(cause) = self.first_stray(from, message) {
            return Err(TakeFault::Stray { cause });
        }
        self.next_deed(from, message)
    }

    /// Takes a message whose record, if any, is this one, and answers the reply if there is one. After an error the node is as before.
    pub fn take_with(
        &mut self,
        from: NodeId,
        message: &Message,
        deed: Option<Deed>,
    ) -> Result<Option<Message>, AllocError>
        requires fits { Within message.now }
        requires record { IsRecordFor from message.now self.old deed }
        ensures ok { IfOk result (TakesMessage from message.now self.old self.new) }
        ensures place { IsSamePlace self.old self.new }
        ensures counted { IfOk result (λ reply. IfSome reply IsCounted) }
        ensures fits { IfOk result (λ reply. IfSome reply Within) }
        ensures err { OnErr result (self.new ≡ self.old) }
    {
        match deed {
            Some(deed) => {
                self.add_record(deed)?;
                Ok(self.reply(message))
            }
            None => {
                self.raise(from, message)?;
                Ok(self.reply(message))
            }
        }
    }

    /// Adds a record that may be the next. After an error the node is as before.
    pub fn add_record(&mut self, deed: Deed) -> Result<(), AllocError>
        requires next { MayAdd deed self.old }
        ensures ok { OnOk result (self.new ≡ placed_after deed self.old) }
        ensures err { OnErr result (self.new ≡ self.old) }
    {
        if self.core.is_minion() {
            self.add_at_minion(&deed)
        } else {
            self.add_at_master(deed)
        }
    }

    /// Is a record one that the node may add next, by its role and its records? The rule is this project's own: a publication at the top and
    /// a job from the parent at a syndic are later than the last job, of fewer than `MOST_JOBS`; an entry at a master is of a minion below,
    /// names a job that is held, and is no second return; a minion adds a start, or the job with the next number, whose entries are events,
    /// what it shares, and at most one return.
    pub fn is_next(&self, deed: &Deed) -> bool
        ensures value { result ≡ is_next_at self.now deed.now }
    {
        let is_minion = self.fleet.is_minion(self.me);
        match deed {
            Deed::Publish { job } => !is_minion && (self.me.index() == 0 && self.is_next_job(job)),
            Deed::Intake { job } => {
                !is_minion && (!(self.me.index() == 0) && self.is_next_job(job))
            }
            Deed::Up { minion, entry } => !is_minion && self.is_next_entry(minion, entry),
            Deed::Fire { .. } => false,
            Deed::React { .. } => false,
            Deed::Boot => is_minion,
            Deed::Done {
                seq,
                changed: _,
                entries,
            } => is_minion && self.is_next_run(*seq, entries.as_slice()),
        }
    }

    /// Is there room in the log to which a record adds? At a master a minion's log has at most 4,294,967,295 entries. A minion starts, or
    /// adds more than two entries at once, only up to `MOST_OWN_ENTRIES` entries of its own log.
    pub fn has_room(&self, deed: &Deed) -> bool
        ensures value { result ≡ has_log_room_at self.now deed.now }
    {
        match deed {
            Deed::Publish { .. } => true,
            Deed::Intake { .. } => true,
            Deed::Up { minion, .. } => (self.entries(minion) as u64) + 1 < 4_294_967_296,
            Deed::Fire { .. } => true,
            Deed::React { .. } => true,
            Deed::Boot => self.own_entries() < MOST_OWN_ENTRIES,
            Deed::Done { entries, .. } => {
                let count = entries.as_slice().len() as u64;
                count <= 2 || self.own_entries() as u64 + count <= MOST_OWN_ENTRIES as u64
            }
        }
    }

    /// The law of a node's records: each is one that it may add after those before it, and is within the limits of records.
    pub fn records_are_right(&self)
        ensures value { AreRecordsAt self.now.fleet.tree self.now.me self.now.state.records }
    {
        let _ = &self.records;
    }

    /// What it has for a neighbour, at most `max` messages.
    pub fn pending(&self, to: NodeId, max: u32) -> Result<Vec<Message>, PendFault>
        ensures ok { IfOk result (λ v. v.items ≡ take max (pending_for to self.now)) }
        ensures counted { IfOk result (λ v. All IsCounted v.items) }
        ensures fits { IfOk result (λ v. All Within v.items) }
        ensures not_neighbour { IsErrOf result NotNeighbour → IsApartFrom to self.now }
        ensures complete { OnOk result (is_neighbour self.now.fleet.tree self.now.me to ≡ true) }
    {
        let _ = &self.records;
        if self.fleet.is_parent(self.me, to) {
            return Ok(self.pending_down(to, max)?);
        }
        if self.fleet.is_parent(to, self.me) {
            return Ok(self.pending_up(max)?);
        }
        Err(PendFault::NotNeighbour)
    }

    /// Publishes an order at the top: a function with its arguments, for a target by its text of this kind, at a moment in microseconds
    /// since 1970-01-01 UTC. The order is refused by the first cause that is met, in the order of `PublishRefusal`. After an error the
    /// node is as before.
    pub fn publish(
        &mut self,
        moment: u64,
        kind: Kind,
        tgt: &str,
        fun: &Word,
        args: &[Value],
    ) -> Result<Jid, PublishFault>
        requires top { self.old.me ≡ 0 }
        ensures ok { IfOk result (PublishesOrder moment
            (order kind tgt.now fun.now args.now) self.old self.new) }
        ensures place { IsSamePlace self.old self.new }
        ensures err { OnErr result (self.new ≡ self.old) }
        ensures fault { IfErr result (DeniesOrder moment
            (order kind tgt.now fun.now args.now) self.old) }
    {
        let job = self.job_for(moment, kind, tgt, fun, args)?;
        let jid = job.jid;
        self.add_record(Deed::Publish { job })?;
        Ok(jid)
    }

    /// The job that an order makes at the top, before the top records it: so that the record can be kept first. The order is refused as for
    /// `publish`, and nothing changes.
    pub fn job_for(
        &self,
        moment: u64,
        kind: Kind,
        tgt: &str,
        fun: &Word,
        args: &[Value],
    ) -> Result<Job, PublishFault>
        requires top { self.now.me ≡ 0 }
        ensures ok { IfOk result (MakesOrderJob moment
            (order kind tgt.now fun.now args.now) self.now) }
        ensures next { IfOk result (λ job. MayAdd (Publish job) self.now) }
        ensures fault { IfErr result (DeniesOrder moment
            (order kind tgt.now fun.now args.now) self.now) }
    {
        let _nodes = self.fleet.count();
        let (fleet, jobs) = (self.fleet(), self.jobs());
        let job = order_job(self.alloc, fleet, moment, kind, tgt, fun, args, jobs)?;
        Ok(job)
    }

    /// A master's jobs in order, each within the limits of messages. A minion lists none.
    pub fn jobs(&self) -> &[Job]
        ensures value { result.now ≡ jobs self.now.state.records }
        ensures few { length result.now ≤ most_jobs }
        ensures fits { All JobFits result.now }
    {
        match &self.core {
            Core::Minion(_) => &[],
            Core::Master(core) => core.jobs().jobs(),
        }
    }

    /// A master's jobs with what each minion below it returned of them. A minion has no such store.
    pub fn store(&self) -> Option<&JobStore>
        ensures value { IfSome result (λ store. IsStoreOf self.now.state.records store.now) }
        ensures exact { is_none result ≡ self.now.state.minion }
    {
        self.core.store()
    }

    /// What a minion returned of a job, as this node has it.
    pub fn outcome(&self, id: &MinionId, seq: u32) -> Option<&Outcome>
        ensures value { option_copied result ≡ return_of seq (log id.now self.now.state.records) }
    {
        self.core.outcome(id, seq)
    }

    /// How many jobs it holds.
    pub fn jobs_held(&self) -> u32
        ensures value { result ≡ jobs_held self.now.state.records }
    {
        self.core.jobs_held()
    }

    /// The log that it has of a minion, each entry within the limits of messages.
    pub fn log(&self, id: &MinionId) -> &[Entry]
        ensures value { result.now ≡ log id.now self.now.state.records }
        ensures fits { All EntryFits result.now }
        ensures few { length result.now < 2 ^ 32 }
    {
        self.core.log(id)
    }

    /// What a minion holds. A master holds nothing.
    pub fn holdings(&self) -> Option<&Holdings>
        ensures value { option_copied result ≡ holdings_of self.now.state }
        ensures none { result ≡ None → self.now.state.held ≡ no_holdings }
    {
        self.core.holdings()
    }

    /// How many jobs a child is known to hold.
    pub fn known_jobs(&self, child: NodeId) -> u32
        ensures value { result ≡ known_count self.now.state.known_jobs child }
    {
        self.known_jobs.known(child)
    }

    /// How many entries of a minion the parent is known to hold.
    pub fn known_ups(&self, minion: NodeId) -> u32
        ensures value { result ≡ known_count self.now.state.known_ups minion }
    {
        self.known_ups.known(minion)
    }

    /// The minions at or below it, in list order.
    pub fn below(&self) -> &[NodeId]
        ensures value { result.now ≡ minions self.now.fleet.tree self.now.me }
        ensures within { All (λ m. m < length self.now.fleet.tree) result.now }
    {
        self.below.as_slice()
    }

    // The jobs that a child is not known to hold.
    fn pending_down(&self, child: NodeId, max: u32) -> Result<Vec<Message>, AllocError>
        ensures ok { IfOk result (λ v. v.items ≡ take max (pending_down child self.now.state)) }
        ensures fits { IfOk result (λ v. All Within v.items) }
    {
        let mut messages = Vec::new(self.alloc);
        let known = self.known_jobs.known(child);
        let jobs = self.jobs();
        push_pubs(self.alloc, &mut messages, known, jobs, max)?;
        Ok(messages)
    }

    // The count of jobs, and the entries that the parent is not known to hold.
    fn pending_up(&self, max: u32) -> Result<Vec<Message>, AllocError>
        ensures ok { IfOk result (λ v. v.items ≡ take max
            (pending_up self.now.fleet.tree self.now.me self.now.state)) }
        ensures fits { IfOk result (λ v. All Within v.items) }
    {
        let mut messages = Vec::new(self.alloc);
        if max == 0 {
            return Ok(messages);
        }
        messages.push(Message::Have {
            jobs: self.jobs_held(),
        })?;
        for minion in self.below() {
            self.push_ups(*minion, &mut messages, max)?;
        }
        Ok(messages)
    }

    // The entries of a minion that the parent is not known to hold, after what is there.
    fn push_ups(&self, minion: NodeId, out: &mut Vec<Message>, max: u32) -> Result<(), AllocError>
        requires place { minion < length self.now.fleet.tree }
        requires room { length out.old.items ≤ max }
        requires fits { All Within out.old.items }
        ensures ok { OnOk result (AddsUps self.now minion max out.old.items out.new.items) }
        ensures fits { OnOk result (All Within out.new.items) }
    {
        let id = self.fleet.id(minion);
        let _bytes = id.as_bytes();
        let known = self.known_ups.known(minion);
        let log = self.log(&id);
        push_entries(self.alloc, out, id, known, log, max)?;
        Ok(())
    }

    // Why a message is not taken, before a job is looked into.
    fn first_stray(&self, from: NodeId, message: &Message) -> Option<Stray>
        ensures { result ≡ first_stray_at from message.now self.now }
    {
        let (fleet, me) = (self.fleet, self.me);
        match message {
            Message::Pub { seq, job } => first_cause(&[
                (is_neighbour(fleet, me, from), Stray::NotNeighbour),
                (
                    fleet.is_parent(from, me) && self.may_take(*seq, job),
                    Stray::WrongWay,
                ),
            ]),
            Message::Have { jobs } => {
                let have = self.jobs_held();
                first_cause(&[
                    (is_neighbour(fleet, me, from), Stray::NotNeighbour),
                    (fleet.is_parent(me, from), Stray::WrongWay),
                    (*jobs <= have, Stray::AheadJobs { n: *jobs, have }),
                ])
            }
            Message::Up { minion, n, entry } => self.stray_up(from, minion, *n, entry),
            Message::UpHave { minion, n } => {
                let have = self.entries(minion);
                first_cause(&[
                    (is_neighbour(fleet, me, from), Stray::NotNeighbour),
                    (fleet.is_parent(from, me), Stray::WrongWay),
                    (is_here(fleet, me, minion), Stray::NotBelow),
                    (*n <= have, Stray::AheadUps { n: *n, have }),
                ])
            }
            Message::Hello { .. } => stray_other(fleet, me, from),
            Message::End => stray_other(fleet, me, from),
            Message::AskPublish { .. } => stray_other(fleet, me, from),
            Message::AskReport { .. } => stray_other(fleet, me, from),
            Message::AskJobs => stray_other(fleet, me, from),
            Message::AskMine { .. } => stray_other(fleet, me, from),
            Message::Answer { .. } => stray_other(fleet, me, from),
        }
    }

    // Why an entry is not taken.
    fn stray_up(&self, from: NodeId, minion: &MinionId, n: u32, entry: &Entry) -> Option<Stray>
        ensures { result ≡ up_stray_at from minion.now n entry.now self.now }
    {
        let below = is_below(self.fleet, self.me, from, minion);
        let right_way = self.fleet.is_parent(self.me, from)
            && !self.core.is_minion()
            && (!below || self.may_record(n, minion, entry));
        let is_known = n != self.entries(minion) || names_held(self.jobs_held(), entry);
        first_cause(&[
            (is_neighbour(self.fleet, self.me, from), Stray::NotNeighbour),
            (right_way, Stray::WrongWay),
            (below, Stray::NotBelow),
            (is_known, Stray::UnknownJob { seq: seq_of(entry) }),
        ])
    }

    // How many entries of a minion it holds.
    fn entries(&self, minion: &MinionId) -> u32
        ensures { result ≡ length (log minion.now self.now.state.records) }
    {
        self.log(minion).len() as u32
    }

    // May it take a job with this number?
    fn may_take(&self, seq: u32, job: &Job) -> bool
        ensures { result ≡ may_take seq job.now self.now.state }
    {
        seq < MOST_JOBS
            && (self.core.is_minion() || seq != self.jobs_held() || is_later(self.jobs(), job))
    }

    // Is the entry no second return of one job, where it would be recorded?
    fn may_record(&self, n: u32, minion: &MinionId, entry: &Entry) -> bool
        ensures { result ≡ may_record n minion.now entry.now self.now.state }
    {
        n != self.entries(minion) || self.is_first(minion, entry)
    }

    // Is the entry no second return of one job?
    fn is_first(&self, minion: &MinionId, entry: &Entry) -> bool
        ensures { result ≡ is_first entry.now (log minion.now self.now.state.records) }
    {
        match entry {
            Entry::Return { seq, .. } => self.outcome(minion, *seq).is_none(),
            Entry::Fired { .. } => true,
            Entry::Start { .. } => true,
            Entry::Mine { .. } => true,
        }
    }

    // The record that a message adds which passes the first tests, if any.
    fn next_deed(&self, from: NodeId, message: &Message) -> Result<Option<Deed>, TakeFault>
        requires first { first_stray_at from message.now self.now ≡ None }
        requires counted { IsCounted message.now }
        requires fits { Within message.now }
        ensures ok { IfOk result (IsAddedRecord message.now self.now) }
        ensures run { IsRunAnswer result message.now self.now.state }
    {
        let _ = &self.records;
        match message {
            Message::Pub { seq, job } => match self.job_deed(*seq, job) {
                Ok(deed) => Ok(deed),
                Err(fault) => Err(take_fault(fault)),
            },
            Message::Have { .. } => Ok(None),
            Message::Up { minion, n, entry } => Ok(self.entry_deed(*minion, *n, entry)?),
            Message::UpHave { .. } => Ok(None),
            Message::Hello { .. } => Ok(None),
            Message::End => Ok(None),
            Message::AskPublish { .. } => Ok(None),
            Message::AskReport { .. } => Ok(None),
            Message::AskJobs => Ok(None),
            Message::AskMine { .. } => Ok(None),
            Message::Answer { .. } => Ok(None),
        }
    }

    // The record of a job from the parent, where its number is the next.
    fn job_deed(&self, seq: u32, job: &Job) -> Result<Option<Deed>, RunFault>
        requires may { may_take seq job.now self.now.state ≡ true }
        requires below { self.now.me ≢ 0 }
        requires fits { JobFits job.now }
        ensures ok { IfOk result (IsNextJobDeed seq job.now self.now) }
        ensures run { IsRunBy (runs_next seq self.now.state) result job.now.target }
    {
        if seq != self.jobs_held() {
            return Ok(None);
        }
        Ok(Some(self.taken_in(seq, job)?))
    }

    // The record of a job with the next number: a minion runs it.
    fn taken_in(&self, seq: u32, job: &Job) -> Result<Deed, RunFault>
        requires may { may_take seq job.now self.now.state ≡ true }
        requires below { self.now.me ≢ 0 }
        requires next { seq ≡ jobs_held self.now.state.records }
        requires fits { JobFits job.now }
        ensures ok { IfOk result (IsTakenIn seq job.now self.now) }
        ensures run { IsRunBy self.now.state.minion result job.now.target }
    {
        match &self.core {
            Core::Minion(core) => {
                let id = self.fleet.id(self.me);
                Ok(job_record(self.alloc, seq, job, &id, core.held())?)
            }
            Core::Master(_) => Ok(Deed::Intake {
                job: job.copy(self.alloc)?,
            }),
        }
    }

    // The record of an entry from below, where its number is the next.
    fn entry_deed(
        &self,
        minion: MinionId,
        n: u32,
        entry: &Entry,
    ) -> Result<Option<Deed>, AllocError>
        requires right { n ≡ length (log minion self.now.state.records)
            → MayAdd (Up minion entry.now) self.now }
        ensures ok { IfOk result (IsNextEntryDeed minion n entry.now self.now) }
    {
        if n != self.entries(&minion) {
            return Ok(None);
        }
        Ok(Some(Deed::Up {
            minion,
            entry: entry.copy(self.alloc)?,
        }))
    }

    // The counts that a neighbour tells.
    fn raise(&mut self, from: NodeId, message: &Message) -> Result<(), AllocError>
        ensures ok { OnOk result (self.new ≡ raised_at from message.now self.old) }
        ensures err { OnErr result (self.new ≡ self.old) }
    {
        match message {
            Message::Pub { .. } => {}
            Message::Have { jobs } => self.known_jobs.raise(from, *jobs)?,
            Message::Up { .. } => {}
            Message::UpHave { minion, n } => {
                let place = place_of(self.fleet, minion);
                self.known_ups.raise(place, *n)?;
            }
            Message::Hello { .. } => {}
            Message::End => {}
            Message::AskPublish { .. } => {}
            Message::AskReport { .. } => {}
            Message::AskJobs => {}
            Message::AskMine { .. } => {}
            Message::Answer { .. } => {}
        }
        Ok(())
    }

    // The reply to a message that was taken: how many jobs, or entries, are held now.
    fn reply(&self, message: &Message) -> Option<Message>
        requires fits { Within message.now }
        ensures value { result ≡ reply_at message.now self.now }
        ensures counted { IfSome result IsCounted }
        ensures fits { IfSome result Within }
    {
        match message {
            Message::Pub { .. } => Some(Message::Have {
                jobs: self.jobs_held(),
            }),
            Message::Have { .. } => None,
            Message::Up { minion, .. } => Some(Message::UpHave {
                minion: *minion,
                n: self.entries(minion),
            }),
            Message::UpHave { .. } => None,
            Message::Hello { .. } => None,
            Message::End => None,
            Message::AskPublish { .. } => None,
            Message::AskReport { .. } => None,
            Message::AskJobs => None,
            Message::AskMine { .. } => None,
            Message::Answer { .. } => None,
        }
    }

    // A record more of a minion.
    fn add_at_minion(&mut self, deed: &Deed) -> Result<(), AllocError>
        requires minion { self.old.state.minion ≡ true }
        requires next { MayAdd deed.now self.old }
        ensures ok { OnOk result (self.new ≡ placed_after deed.now self.old) }
        ensures err { OnErr result (self.new ≡ self.old) }
    {
        let Core::Minion(core) = &mut self.core else {
            unreachable!()
        };
        push_done(&mut self.records, core, deed)?;
        Ok(())
    }

    // A record more of a master.
    fn add_at_master(&mut self, deed: Deed) -> Result<(), AllocError>
        requires master { self.old.state.minion ≡ false }
        requires next { MayAdd deed self.old }
        ensures ok { OnOk result (self.new ≡ placed_after deed self.old) }
        ensures err { OnErr result (self.new ≡ self.old) }
    {
        minions_are_found();
        outcomes_by_steps();
        logs_by_steps();
        let Core::Master(core) = &mut self.core else {
            unreachable!()
        };
        push_deed(&mut self.records, core, deed)?;
        Ok(())
    }

    // May a job be the next of a master?
    fn is_next_job(&self, job: &Job) -> bool
        ensures { result ≡ is_next_job self.now.state.records job.now }
    {
        is_later(self.jobs(), job) && self.jobs_held() < MOST_JOBS
    }

    // May an entry be the next of a master?
    fn is_next_entry(&self, minion: &MinionId, entry: &Entry) -> bool
        ensures { result ≡ is_next_entry_at self.now minion.now entry.now }
    {
        is_here(self.fleet, self.me, minion)
            && (names_held(self.jobs_held(), entry) && self.is_first(minion, entry))
    }

    // May a job of this number with these entries be the next of a minion?
    fn is_next_run(&self, seq: u32, entries: &[Entry]) -> bool
        ensures { result ≡ is_next_run self.now.state.records seq entries.now }
    {
        seq == self.jobs_held() && (seq < MOST_JOBS && is_run(seq, entries))
    }

    // How many entries the log of the node's own id has.
    fn own_entries(&self) -> u32
        ensures { result ≡ length (own_log self.now) }
    {
        self.entries(&self.fleet.id(self.me))
    }
}
