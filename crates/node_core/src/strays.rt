//! What is tested of a message, of a job and of an entry.
ghost use Rattle.std.specs.Prelude.{◌≡◌};
ghost use Rattle.std.specs.Option.{option_copied};
ghost use Rattle.fleet_config.specs.Causes.{first_cause};
ghost use Rattle.fleet_config.specs.Tree as tree;
ghost use Rattle.minion_core.specs.Flat as flat;
ghost use Rattle.node_core.specs.Node as node;
ghost use Rattle.node_core.specs.Steps as step;

use crate::{Stray, TakeFault};
use fleet_config::Fleet;
use minion_core::RunFault;
use salt_value::{Jid, MinionId, NodeId};
use salt_wire::{Entry, Job};

/// The cause of the first test that does not hold.
pub fn first_cause(tests: &[(bool, Stray)]) -> Option<Stray>
    ensures { result ≡ first_cause tests.now }
{
    for (holds, cause) in tests {
        if !*holds {
            return Some(*cause);
        }
    }
    None
}

/// Why a message of a kind that no node takes is not taken.
pub fn stray_other(fleet: &Fleet, me: NodeId, from: NodeId) -> Option<Stray>
    ensures { result ≡ first_cause (node.other_tests fleet.now.tree me from) }
{
    first_cause(&[
        (is_neighbour(fleet, me, from), Stray::NotNeighbour),
        (false, Stray::WrongWay),
    ])
}

/// Is one of the two nodes the parent of the other?
pub fn is_neighbour(fleet: &Fleet, a: NodeId, b: NodeId) -> bool
    ensures { result ≡ node.is_neighbour fleet.now.tree a b }
{
    fleet.is_parent(a, b) || fleet.is_parent(b, a)
}

/// Does the minion lie below a node through its child?
pub fn is_below(fleet: &Fleet, me: NodeId, child: NodeId, id: &MinionId) -> bool
    ensures { result ≡ node.is_below fleet.now.tree me child id.now }
{
    match fleet.find(id) {
        Some(minion) => fleet.is_minion(minion) && fleet.branch(me, minion) == child,
        None => false,
    }
}

/// Is the minion this node, or below it?
pub fn is_here(fleet: &Fleet, me: NodeId, id: &MinionId) -> bool
    ensures { result ≡ node.is_here fleet.now.tree me id.now }
{
    match fleet.find(id) {
        Some(minion) => fleet.is_minion(minion) && fleet.is_within(me, minion),
        None => false,
    }
}

/// The place of the node with this id, the number of nodes where there is none.
pub fn place_of(fleet: &Fleet, id: &MinionId) -> NodeId
    ensures { result ≡ tree.place_of fleet.now.tree id.now }
{
    match fleet.find(id) {
        Some(place) => place,
        None => NodeId::new(fleet.count()),
    }
}

/// Is a job later than the last of these?
pub fn is_later(jobs: &[Job], job: &Job) -> bool
    ensures { result ≡ flat.is_later jobs.now job.now }
{
    match jobs.last() {
        Some(last) => last.jid < job.jid,
        None => true,
    }
}

/// The jid of the last job.
pub fn last_jid(jobs: &[Job]) -> Option<Jid>
    ensures { result ≡ flat.last_jid jobs.now }
{
    match jobs.last() {
        Some(last) => Some(last.jid),
        None => None,
    }
}

/// Does an entry name a job number below this count?
pub fn names_held(count: u32, entry: &Entry) -> bool
    ensures { result ≡ node.names_held count entry.now }
{
    match entry {
        Entry::Return { seq, .. } => *seq < count,
        Entry::Fired { .. } => true,
        Entry::Start { .. } => true,
        Entry::Mine { seq, .. } => *seq < count,
    }
}

/// The number of the job that an entry names, 0 where it names none.
pub fn seq_of(entry: &Entry) -> u32
    ensures { result ≡ node.seq_of entry.now }
{
    match entry {
        Entry::Return { seq, .. } => *seq,
        Entry::Fired { .. } => 0,
        Entry::Start { .. } => 0,
        Entry::Mine { seq, .. } => *seq,
    }
}

/// The fault of a message whose job was not run.
pub fn take_fault(fault: RunFault) -> TakeFault
    ensures { result ≡ step.take_fault fault }
{
    match fault {
        RunFault::NoMemory => TakeFault::NoMemory,
        RunFault::BadPattern { leaf } => TakeFault::Stray {
            cause: Stray::BadPattern { leaf },
        },
        RunFault::TooBig { leaf } => TakeFault::TooBig { leaf },
    }
}
