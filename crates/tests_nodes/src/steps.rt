//! Messages that a node is sent, what it answers to them, and what it has for its neighbours.
ghost use Rattle.std.specs.Prelude.{All};
ghost use Rattle.std.specs.Bool.{OnTrue};
ghost use Rattle.node_core.specs.Node.{IsCounted};
ghost use Rattle.salt_wire.specs.Limits.{Within, EntryFits};

use crate::made::{FAILED, id, job, job_for, word};
use fleet_config::Fleet;
use node_core::{Node, PendFault, PublishFault, Stray, TakeFault};
use salt_value::{Event, Fields, Jid, NodeId, Outcome, Value, Word};
use salt_wire::{Entry, Message};
use std::alloc::Global;
use std::process::Abort;
use target_tree::Kind;

/// A message that a step sends.
#[derive(Clone, Copy, Debug)]
pub enum Sent {
    /// The job `test.ping` for all minions, by its number and the moment of its jid.
    Pub(u32, u64),
    /// A job of this function with these arguments, by its number.
    Run(u32, &'static str, &'static [&'static str]),
    /// The job `test.ping` for the minions that a target's text of this kind means, by its number; its jid comes after those
    /// of lesser numbers.
    For(u32, Kind, &'static str),
    Have(u32),
    /// The entry of this number of a minion: that it has started.
    Start(&'static str, u32),
    /// The entry of this number of a minion: its return of this job.
    Return(&'static str, u32, u32),
    /// The entry of this number of a minion: an event.
    Fired(&'static str, u32),
    /// The entry of this number of a minion: that this job changed its mine.
    Mine(&'static str, u32, u32),
    UpHave(&'static str, u32),
    /// Messages that no node takes.
    Hello(&'static str),
    End,
    AskJobs,
}

/// What a node answers to it.
#[derive(Clone, Copy, Debug, PartialEq, Eq)]
pub enum Reply {
    /// It holds so many jobs.
    Jobs(u32),
    /// It holds so many entries of that minion.
    Entries(u32),
    Nothing,
    Refused(Stray),
    /// The pattern of this leaf is too big.
    TooBig(u32),
    NoMemory,
    Other,
}

/// The node that sends, its message, and what it is answered.
pub type Step = (u32, Sent, Reply);

/// A neighbour, the most messages that it asks for, and how many there are: 99 for a node that is no neighbour.
pub type Asked = (u32, u32, usize);

// An entry of a minion.
fn entry(rt: &impl Abort, minion: &str, n: u32, entry: Entry) -> Message
    requires { EntryFits entry }
    ensures value { Within result }
{
    let minion = id(rt, minion);
    let _bytes = minion.as_bytes();
    Message::Up { minion, n, entry }
}

// The return of a job.
fn returned(seq: u32) -> Entry
    ensures value { EntryFits result }
{
    let outcome = Outcome {
        retcode: 0,
        value: Value::Flag(true),
    };
    Entry::Return { seq, outcome }
}

// An event with this tag.
fn fired(rt: &impl Abort, alloc: Global, tag: &str) -> Entry
    ensures value { EntryFits result }
{
    let tag = word(rt, alloc, tag);
    let _bytes = tag.as_bytes();
    let body = Value::Null;
    Entry::Fired {
        event: Event { tag, body },
    }
}

// A change of the mine that leaves nothing in it.
fn mined(alloc: Global, seq: u32) -> Entry
    ensures value { EntryFits result }
{
    Entry::Mine {
        seq,
        mine: Fields::new(alloc),
        grains: Fields::new(alloc),
        pillar: Fields::new(alloc),
    }
}

fn have_of(rt: &impl Abort, minion: &str, n: u32) -> Message
    ensures value { Within result }
{
    let minion = id(rt, minion);
    let _bytes = minion.as_bytes();
    Message::UpHave { minion, n }
}

fn hello(rt: &impl Abort, minion: &str) -> Message
    ensures value { Within result }
{
    let id = id(rt, minion);
    let _bytes = id.as_bytes();
    Message::Hello { id }
}

fn message(rt: &impl Abort, alloc: Global, sent: Sent) -> Message
    ensures value { Within result }
{
    match sent {
        Sent::Pub(seq, moment) => Message::Pub {
            seq,
            job: job(rt, alloc, moment, "test.ping", &[]),
        },
        Sent::Run(seq, fun, args) => Message::Pub {
            seq,
            job: job(rt, alloc, 7, fun, args),
        },
        Sent::For(seq, kind, tgt) => Message::Pub {
            seq,
            job: job_for(rt, alloc, seq as u64, kind, tgt, "test.ping", &[]),
        },
        Sent::Have(jobs) => Message::Have { jobs },
        Sent::Start(minion, n) => entry(rt, minion, n, Entry::Start { boot: 1 }),
        Sent::Return(minion, n, seq) => entry(rt, minion, n, returned(seq)),
        Sent::Fired(minion, n) => entry(rt, minion, n, fired(rt, alloc, "door/open")),
        Sent::Mine(minion, n, seq) => entry(rt, minion, n, mined(alloc, seq)),
        Sent::UpHave(minion, n) => have_of(rt, minion, n),
        Sent::Hello(minion) => hello(rt, minion),
        Sent::End => Message::End,
        Sent::AskJobs => Message::AskJobs,
    }
}

// Has the message a number that a node takes?
fn is_counted(message: &Message) -> bool
    ensures value { OnTrue result (IsCounted message.now) }
{
    match message {
        Message::Up { n, .. } => *n < u32::MAX,
        _ => true,
    }
}

// What a message replies.
fn reply_in(message: &Message) -> Reply {
    match message {
        Message::Have { jobs } => Reply::Jobs(*jobs),
        Message::UpHave { n, .. } => Reply::Entries(*n),
        _ => Reply::Other,
    }
}

fn reply_of(answer: &Result<Option<Message>, TakeFault>) -> Reply {
    match answer {
        Ok(Some(message)) => reply_in(message),
        Ok(None) => Reply::Nothing,
        Err(TakeFault::Stray { cause }) => Reply::Refused(*cause),
        Err(TakeFault::TooBig { leaf }) => Reply::TooBig(*leaf),
        Err(TakeFault::NoMemory) => Reply::NoMemory,
    }
}

/// The node at this place of a fleet, as it starts.
pub fn start_at<'f>(rt: &impl Abort, alloc: Global, fleet: &'f Fleet, me: u32) -> Node<'f> {
    if me >= fleet.count() {
        panic!(rt; "{FAILED}");
    }
    Node::start(alloc, fleet, NodeId::new(me)).expect(rt, FAILED)
}

/// What the top answers to an order.
pub fn publish(
    rt: &impl Abort,
    top: &mut Node,
    moment: u64,
    kind: Kind,
    tgt: &str,
    fun: &Word,
    args: &[Value],
) -> Result<Jid, PublishFault> {
    if top.me().place() != 0 {
        panic!(rt; "{FAILED}");
    }
    top.publish(moment, kind, tgt, fun, args)
}

fn take(node: &mut Node, from: u32, message: &Message) -> Reply
    requires { Within message.now }
{
    if !is_counted(message) {
        return Reply::Other;
    }
    let answer = node.take(NodeId::new(from), message);
    reply_of(&answer)
}

/// Each message in order, and what the node answers.
pub fn takes(rt: &impl Abort, alloc: Global, node: &mut Node, steps: &[Step]) {
    for (i, (from, sent, reply)) in steps.iter().enumerate() {
        let answer = take(node, *from, &message(rt, alloc, *sent));
        assert_eq!(rt; answer, *reply, "at step {i}");
    }
}

/// Each message of the top, which the node takes as its next job.
pub fn takes_jobs(rt: &impl Abort, node: &mut Node, messages: &[Message])
    requires { All Within messages.now }
{
    for message in messages {
        let answer = take(node, 0, message);
        assert!(rt; matches!(answer, Reply::Jobs(_)));
    }
}

/// What the top has for the node at this place.
pub fn jobs_for(rt: &impl Abort, top: &Node, peer: u32) -> Vec<Message>
    ensures value { All Within result.items }
{
    match top.pending(NodeId::new(peer), 99) {
        Ok(messages) => messages,
        Err(_) => panic!(rt; "{FAILED}"),
    }
}

fn pending(node: &Node, peer: u32, max: u32) -> usize {
    match node.pending(NodeId::new(peer), max) {
        Ok(messages) => messages.len(),
        Err(PendFault::NotNeighbour) => 99,
        Err(PendFault::NoMemory) => 97,
    }
}

/// How many messages the node has for each peer.
pub fn tells(rt: &impl Abort, node: &Node, all: &[Asked]) {
    for (peer, max, count) in all {
        assert_eq!(rt; pending(node, *peer, *max), *count, "to {peer}");
    }
}

/// Whether the node has the return of each job by each minion.
pub fn has_returns(rt: &impl Abort, node: &Node, rows: &[(&str, u32, bool)]) {
    for (minion, seq, wanted) in rows {
        let has = node.outcome(&id(rt, minion), *seq).is_some();
        assert_eq!(rt; has, *wanted, "{minion} {seq}");
    }
}

// The retcode of an outcome, and the number that it answered, 0 where it is no number.
fn told(outcome: Option<&Outcome>) -> Option<(u8, i64)> {
    match outcome {
        Some(outcome) => match &outcome.value {
            Value::Int(number) => Some((outcome.retcode, *number)),
            _ => Some((outcome.retcode, 0)),
        },
        None => None,
    }
}

/// What a minion returned of each job: its retcode, and its number.
pub fn has_outcomes(rt: &impl Abort, node: &Node, minion: &str, rows: &[(u32, Option<(u8, i64)>)]) {
    for (seq, wanted) in rows {
        let outcome = told(node.outcome(&id(rt, minion), *seq));
        assert_eq!(rt; outcome, *wanted, "of job {seq}");
    }
}

/// How many jobs the node holds.
pub fn has_jobs(rt: &impl Abort, node: &Node, count: usize) {
    assert_eq!(rt; node.jobs().len(), count);
}
