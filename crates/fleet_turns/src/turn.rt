//! One turn.
ghost use Rattle.std.specs.Prelude.{◌↔◌, ◌≡◌, ◌<◌, ◌≤◌, ◌^◌, IsTrue, length, true};
ghost use Rattle.salt_value.specs.Jid.{greatest_jid};
ghost use Rattle.fleet_config.specs.Tree.{is_minion};
ghost use Rattle.fleet_turns.specs.Turns.{IsTurn, AreNeighbours};

use fleet_config::Fleet;
use salt_value::{Items, Jid, NodeId, Text, Word};
use target_tree::Kind;

/// One line of a schedule. What a turn asks of a node, it asks of the top where it names none.
#[derive(Drop)]
pub enum Turn {
    /// Publishes a job at the top, a function with its arguments for a target by its text of this kind, at a moment in microseconds since
    /// 1970-01-01 UTC.
    Publish {
        moment: u64,
        kind: Kind,
        tgt: Text,
        fun: Word,
        args: Items,
    },
    /// Appends the first pending messages of a node for its neighbour to the packets. A count over 4,294,967,295 means that number.
    Send {
        from: NodeId,
        to: NodeId,
        count: u64,
    },
    /// The receiver takes the packet with this number, from 0. One that is not there does nothing.
    Deliver {
        packet: u64,
    },
    /// Hands over all that is pending: each job down the tree and then each entry up, one message after the other, each of them taken and
    /// answered.
    Settle,
    /// Prints the report of a job.
    Report {
        jid: Jid,
    },
    /// Prints of each row of a job's report whether its retcode is 0.
    Exit {
        jid: Jid,
    },
    /// Prints the list of jobs.
    Jobs,
    /// Prints how many jobs there are, and how many rows all their reports have.
    Summary,
    /// Prints what a minion holds.
    Data {
        node: NodeId,
    },
    /// Prints how many jobs a node holds, and how many entries it has of each minion at or below it.
    Counts {
        node: NodeId,
    },
    /// Prints the packet with this number, from 0.
    Packet {
        packet: u64,
    },
}

impl Turn {
    /// Does this fleet have the turn? Its nodes are of the fleet, those of `Send` are neighbours, and that of `Data` is a minion.
    pub fn is_of(&self, fleet: &Fleet) -> bool
        ensures ok { IsTrue result ↔ IsTurn fleet.now self.now }
    {
        match self {
            Turn::Publish { moment, .. } => is_number(*moment),
            Turn::Send { from, to, count } => {
                is_number(*count) && are_neighbours(fleet, *from, *to)
            }
            Turn::Deliver { packet } => is_number(*packet),
            Turn::Settle => true,
            Turn::Report { jid } => is_jid(*jid),
            Turn::Exit { jid } => is_jid(*jid),
            Turn::Jobs => true,
            Turn::Summary => true,
            Turn::Data { node } => fleet.is_minion(*node),
            Turn::Counts { node } => node.place() < fleet.count(),
            Turn::Packet { packet } => is_number(*packet),
        }
    }
}

// Is a number one of 64 bits? Each is.
fn is_number(number: u64) -> bool
    ensures ok { IsTrue result ↔ (number < 2 ^ 64) }
{
    let _ = number;
    true
}

// Is a jid at most the greatest one? Each is.
fn is_jid(jid: Jid) -> bool
    ensures ok { IsTrue result ↔ (jid ≤ greatest_jid) }
{
    let _ = jid.micros();
    true
}

// Are these two nodes of a fleet, and is one the parent of the other?
fn are_neighbours(fleet: &Fleet, a: NodeId, b: NodeId) -> bool
    ensures ok { IsTrue result ↔ AreNeighbours fleet.now.tree a b }
{
    a.place() < fleet.count()
        && b.place() < fleet.count()
        && (fleet.is_parent(a, b) || fleet.is_parent(b, a))
}
