//! What the tests make: ids, words, fleets and jobs.
ghost use Rattle.salt_wire.specs.Limits.{JobFits, TreeFits};

use exec_functions::Holdings;
use fleet_config::{Fleet, FleetNode, Role};
use salt_value::{Items, Jid, MinionId, NodeId, Text, Word};
use salt_wire::{Job, tree_fits};
use sqlite_items::Boxed;
use std::alloc::Global;
use std::process::Abort;
use target_tree::{Groups, Kind, Target, read_target};

/// What is said where a step that must succeed doesn't.
pub const FAILED: &str = "memory, or a right text";

/// A node to add to a fleet: its id, its role and the place of its parent.
pub type Sown = (&'static str, Role, Option<u32>);

/// A tree with two syndics, the one under the other.
pub static TREE: [Sown; 6] = [
    ("top", Role::Top, None),
    ("sa", Role::Syndic, Some(0)),
    ("m1", Role::Minion, Some(1)),
    ("sb", Role::Syndic, Some(1)),
    ("m2", Role::Minion, Some(3)),
    ("m3", Role::Minion, Some(0)),
];

/// The id that a text is.
pub fn id(rt: &impl Abort, text: &str) -> MinionId {
    MinionId::read(text).expect(rt, FAILED)
}

/// The word that a text is.
pub fn word(rt: &impl Abort, alloc: Global, text: &str) -> Word {
    Word::read(alloc, text).expect(rt, FAILED)
}

// Adds a node that holds nothing.
fn sow(rt: &impl Abort, alloc: Global, fleet: &mut Fleet, node: Sown) {
    let (text, role, parent) = node;
    let parent = match parent {
        Some(place) => Some(NodeId::new(place)),
        None => None,
    };
    let node = FleetNode {
        id: id(rt, text),
        role,
        parent,
        port: 0,
        held: Holdings::none(alloc),
    };
    if fleet.add(node).is_err() {
        panic!(rt; "{FAILED}");
    }
}

/// A fleet of the tree's nodes, which hold nothing.
pub fn grown(rt: &impl Abort, alloc: Global) -> Fleet {
    let mut fleet = Fleet::new(alloc);
    for node in &TREE {
        sow(rt, alloc, &mut fleet, *node);
    }
    fleet
}

// The target `*`, within the limits of a job's.
fn everyone(rt: &impl Abort, alloc: Global) -> Boxed<Target>
    ensures value { TreeFits result }
{
    let groups = Groups::new(alloc);
    let tree = read_target(alloc, Kind::Glob, "*", &groups).expect(rt, FAILED);
    let tree = Boxed::new(alloc, tree).expect(rt, FAILED);
    if !tree_fits(tree.get()) {
        panic!(rt; "{FAILED}");
    }
    tree
}

// A job of this function for these minions, without an argument.
fn job_of(rt: &impl Abort, alloc: Global, moment: u64, target: Boxed<Target>, fun: Word) -> Job
    requires tree { TreeFits target }
    ensures value { JobFits result }
{
    let jid = Jid::next(None, moment).expect(rt, FAILED);
    let tgt = Text::new(String::from_str(alloc, "*").expect(rt, FAILED));
    let args = Items::new(alloc);
    let _micros = jid.micros();
    let _text = tgt.as_str();
    let _word = fun.as_bytes();
    Job {
        jid,
        kind: Kind::Glob,
        tgt,
        target,
        fun,
        args,
    }
}

/// The job `test.ping` for all minions, with the jid of this moment.
pub fn job(rt: &impl Abort, alloc: Global, moment: u64) -> Job
    ensures value { JobFits result }
{
    job_of(
        rt,
        alloc,
        moment,
        everyone(rt, alloc),
        word(rt, alloc, "test.ping"),
    )
}
