//! What the tests make: ids, values, fleets, what minions hold, and jobs.
ghost use Rattle.std.specs.Prelude.{◌≤◌, length};
ghost use Rattle.salt_value.specs.WellFormed.{ValueFits};
ghost use Rattle.salt_value.specs.declared.value.Value.TheVariants as v;
ghost use Rattle.exec_functions.specs.Limits.{AreWithin};
ghost use Rattle.salt_wire.specs.Limits.{JobFits, TreeFits, most_target_bytes};

use exec_functions::Holdings;
use fleet_config::{Fleet, FleetNode, NodeFault, Role};
use salt_value::{Fields, Items, Jid, MinionId, NodeId, Text, Value, Word, list_fits};
use salt_wire::{Job, tree_fits};
use sqlite_items::Boxed;
use std::alloc::Global;
use std::process::Abort;
use target_tree::{GroupFault, Groups, Kind, MOST_TEXT_BYTES, Target, read_target};

/// What is said where a step that must succeed doesn't.
pub const FAILED: &str = "memory, or a right text";

/// A node to add to a fleet: its id, its role and the place of its parent.
pub type Sown = (&'static str, Role, Option<u32>);

/// A tree with two syndics, the one under the other.
pub static TREE: [Sown; 6] = [
    ("top", Role::Top, None),
    ("sa", Role::Syndic, Some(0)),
    ("m1", Role::Minion, Some(1)),
    ("sb", Role::Syndic, Some(1)),
    ("m2", Role::Minion, Some(3)),
    ("m3", Role::Minion, Some(0)),
];

/// A flat tree.
pub static PAIR: [Sown; 3] = [
    ("top", Role::Top, None),
    ("m2", Role::Minion, Some(0)),
    ("m1", Role::Minion, Some(0)),
];

/// Texts under their keys.
pub type Texts = &'static [(&'static str, &'static str)];

/// A minion, with its grains and its pillar.
pub type Holder = (&'static str, Texts, Texts);

/// Two minions that hold other grains and other pillars.
pub static HOLDERS: [Holder; 2] = [
    ("m2", &[("os", "Arch")], &[("role", "web")]),
    ("m1", &[("os", "Debian")], &[("role", "db")]),
];

/// What is given as an argument, or as a part of what a minion holds.
#[derive(Clone, Copy, Debug)]
pub enum Given {
    /// Nothing.
    Nothing,
    /// Lists in one another, so many levels deep.
    Levels(u32),
    /// A text of so many bytes.
    Bytes(u32),
}

/// The id that a text is.
pub fn id(rt: &impl Abort, text: &str) -> MinionId {
    MinionId::read(text).expect(rt, FAILED)
}

/// The text that these bytes are.
pub fn text(rt: &impl Abort, alloc: Global, text: &str) -> Text {
    Text::new(String::from_str(alloc, text).expect(rt, FAILED))
}

fn nested(rt: &impl Abort, alloc: Global, levels: u32) -> Value {
    let mut value = Value::List(Items::new(alloc));
    for _ in 1..levels {
        let mut items = Items::new(alloc);
        items.push(value).expect(rt, FAILED);
        value = Value::List(items);
    }
    value
}

fn long(rt: &impl Abort, alloc: Global, length: u32) -> Value {
    let mut text = String::new(alloc);
    for _ in 0..length {
        text.push('x').expect(rt, FAILED);
    }
    Value::Str(Text::new(text))
}

/// The value that is given.
pub fn value(rt: &impl Abort, alloc: Global, given: Given) -> Value {
    match given {
        Given::Nothing => Value::Null,
        Given::Levels(levels) => nested(rt, alloc, levels),
        Given::Bytes(length) => long(rt, alloc, length),
    }
}

/// A top with the minions m2 and m1, in this order.
pub fn pair(rt: &impl Abort, alloc: Global) -> Fleet {
    grown(rt, alloc, &PAIR)
}

/// What a fleet answers where this node, which holds nothing, is added.
pub fn sow(
    alloc: Global,
    fleet: &mut Fleet,
    id: MinionId,
    role: Role,
    parent: Option<u32>,
) -> Result<u32, NodeFault> {
    let parent = match parent {
        Some(place) => Some(NodeId::new(place)),
        None => None,
    };
    let held = Holdings::none(alloc);
    plant(
        fleet,
        FleetNode {
            id,
            role,
            parent,
            port: 0,
            held,
        },
    )
}

/// The place at which a node is added, or why it isn't.
pub fn plant(fleet: &mut Fleet, node: FleetNode) -> Result<u32, NodeFault> {
    match fleet.add(node) {
        Ok(place) => Ok(place.place()),
        Err(fault) => Err(fault),
    }
}

/// A fleet of these nodes, which hold nothing.
pub fn grown(rt: &impl Abort, alloc: Global, nodes: &[Sown]) -> Fleet {
    let mut fleet = Fleet::new(alloc);
    for (text, role, parent) in nodes {
        let node = id(rt, text);
        sow(alloc, &mut fleet, node, *role, *parent).expect(rt, FAILED);
    }
    fleet
}

fn fields(rt: &impl Abort, alloc: Global, texts: &[(&'static str, &'static str)]) -> Fields {
    let mut fields = Fields::new(alloc);
    for (key, under) in texts {
        let value = Value::Str(text(rt, alloc, under));
        fields = fields.with(alloc, key, value).expect(rt, FAILED);
    }
    fields
}

/// What holds these grains and this pillar, and nothing else.
pub fn holdings(rt: &impl Abort, alloc: Global, grains: Texts, pillar: Texts) -> Holdings
    ensures fits { AreWithin result }
{
    let mut held = Holdings::none(alloc);
    held.grains = fields(rt, alloc, grains);
    held.pillar = fields(rt, alloc, pillar);
    if !held.fits() {
        panic!(rt; "{FAILED}");
    }
    held
}

/// A top with these minions under it.
pub fn peopled(rt: &impl Abort, alloc: Global, holders: &[Holder]) -> Fleet {
    let mut fleet = grown(rt, alloc, &PAIR[..1]);
    for (text, grains, pillar) in holders {
        let node = FleetNode {
            id: id(rt, text),
            role: Role::Minion,
            parent: Some(NodeId::TOP),
            port: 0,
            held: holdings(rt, alloc, grains, pillar),
        };
        plant(&mut fleet, node).expect(rt, FAILED);
    }
    fleet
}

/// Adds a nodegroup to a fleet, or tells why it isn't added.
pub fn group(
    rt: &impl Abort,
    alloc: Global,
    fleet: &mut Fleet,
    name: &str,
    of: &str,
) -> Option<GroupFault> {
    fleet.add_group(id(rt, name), text(rt, alloc, of)).err()
}

/// The word that a text is.
pub fn word(rt: &impl Abort, alloc: Global, text: &str) -> Word {
    Word::read(alloc, text).expect(rt, FAILED)
}

/// These texts as arguments.
pub fn arguments(rt: &impl Abort, alloc: Global, texts: &[&'static str]) -> Items {
    let mut items = Items::new(alloc);
    for argument in texts {
        items
            .push(Value::Str(text(rt, alloc, argument)))
            .expect(rt, FAILED);
    }
    items
}

// The tree of a target's text, within the limits of a job's.
fn tree(rt: &impl Abort, alloc: Global, kind: Kind, tgt: &str) -> Boxed<Target>
    ensures value { TreeFits result }
{
    let groups = Groups::new(alloc);
    let tree = Boxed::new(
        alloc,
        read_target(alloc, kind, tgt, &groups).expect(rt, FAILED),
    )
    .expect(rt, FAILED);
    if !tree_fits(tree.get()) {
        panic!(rt; "{FAILED}");
    }
    tree
}

// A job with this tree.
fn job_of(
    rt: &impl Abort,
    alloc: Global,
    moment: u64,
    kind: Kind,
    tgt: &str,
    tree: Boxed<Target>,
    fun: Word,
    args: Items,
) -> Job
    requires short { length tgt.now ≤ most_target_bytes }
    requires tree { TreeFits tree }
    requires args { ValueFits (v.List args) }
    ensures value { JobFits result }
{
    let jid = Jid::next(None, moment).expect(rt, FAILED);
    let tgt = Text::new(String::from_str(alloc, tgt).expect(rt, FAILED));
    let _micros = jid.micros();
    let _text = tgt.as_str();
    let _word = fun.as_bytes();
    Job {
        jid,
        kind,
        tgt,
        target: tree,
        fun,
        args,
    }
}

/// A job of this function with these arguments, for the minions that a target's text of this kind means, with the jid of this moment.
pub fn job_for(
    rt: &impl Abort,
    alloc: Global,
    moment: u64,
    kind: Kind,
    tgt: &str,
    fun: &str,
    args: &[&'static str],
) -> Job
    ensures value { JobFits result }
{
    let args = arguments(rt, alloc, args);
    if !list_fits(args.as_slice()) {
        panic!(rt; "{FAILED}");
    }
    if tgt.len() > MOST_TEXT_BYTES {
        panic!(rt; "{FAILED}");
    }
    let tree = tree(rt, alloc, kind, tgt);
    job_of(
        rt,
        alloc,
        moment,
        kind,
        tgt,
        tree,
        word(rt, alloc, fun),
        args,
    )
}

/// The same for all minions.
pub fn job(rt: &impl Abort, alloc: Global, moment: u64, fun: &str, args: &[&'static str]) -> Job
    ensures value { JobFits result }
{
    job_for(rt, alloc, moment, Kind::Glob, "*", fun, args)
}
