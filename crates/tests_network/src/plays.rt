//! The turns of a play, and the worlds in which they are performed.
use exec_functions::Holdings;
use fleet_config::{Fleet, FleetNode, Role};
use salt_outside::MemSink;
use salt_value::{Fields, Items, Jid, MinionId, NodeId, Text, Value, Word};
use std::alloc::Global;
use std::process::Abort;
use target_tree::Kind;
use tree_world::{StepFault, Turn, World};
use value_json::from_text;

/// What is said where a step that must succeed doesn't.
pub const FAILED: &str = "memory, or a right text";

/// One turn of a play, or a few of them.
#[derive(Clone, Copy, Debug)]
pub enum Play {
    /// `test.ping`, for a target.
    Publish(u64, Kind, &'static str),
    /// The same for a target that is so many of this part.
    Repeat(u64, Kind, &'static str, u32),
    /// A function with these arguments, each as JSON, for all minions.
    Run(u64, &'static str, &'static [&'static str]),
    Send(u32, u32, u64),
    Deliver(u64),
    /// The packets from this number on, up to before that one.
    DeliverEach(u64, u64),
    Settle,
    Report(&'static str),
    Exit(&'static str),
    Jobs,
    Summary,
    Data(u32),
    Counts(u32),
    Packet(u64),
}

/// A node to add to a fleet: its id, its role, the place of its parent, and its grains and its pillar as JSON.
pub type Sown = (&'static str, Role, u32, &'static str, &'static str);

/// A top with the minions m2 and m1, in this order.
pub static PAIR: [Sown; 2] = [
    ("m2", Role::Minion, 0, "{}", "{}"),
    ("m1", Role::Minion, 0, "{}", "{}"),
];

// The map of a JSON text, and none where it is another value.
fn fields(rt: &impl Abort, alloc: Global, json: &str) -> Fields {
    match from_text(alloc, json).expect(rt, FAILED) {
        Value::Map(fields) => fields,
        _ => Fields::new(alloc),
    }
}

fn held(rt: &impl Abort, alloc: Global, grains: &str, pillar: &str) -> Holdings {
    Holdings {
        grains: fields(rt, alloc, grains),
        pillar: fields(rt, alloc, pillar),
        store: Fields::new(alloc),
        mine: Fields::new(alloc),
    }
}

fn top(rt: &impl Abort, alloc: Global) -> FleetNode {
    FleetNode {
        id: MinionId::read("top").expect(rt, FAILED),
        role: Role::Top,
        parent: None,
        port: 0,
        held: Holdings::none(alloc),
    }
}

fn node(rt: &impl Abort, alloc: Global, sown: &Sown) -> FleetNode {
    let (id, role, parent, grains, pillar) = sown;
    FleetNode {
        id: MinionId::read(id).expect(rt, FAILED),
        role: *role,
        parent: Some(NodeId::new(*parent)),
        port: 0,
        held: held(rt, alloc, grains, pillar),
    }
}

/// A top, and these nodes.
pub fn fleet(rt: &impl Abort, alloc: Global, nodes: &[Sown]) -> Fleet {
    let mut fleet = Fleet::new(alloc);
    fleet.add(top(rt, alloc)).expect(rt, FAILED);
    for sown in nodes {
        fleet.add(node(rt, alloc, sown)).expect(rt, FAILED);
    }
    fleet
}

/// The world of a fleet.
pub fn world_of<'f>(rt: &impl Abort, alloc: Global, fleet: &'f Fleet) -> World<'f> {
    if fleet.count() == 0 {
        panic!(rt; "no node");
    }
    World::of(alloc, fleet).expect(rt, FAILED)
}

/// A text that is so many of this part.
pub fn repeated(rt: &impl Abort, alloc: Global, part: &str, count: u32) -> String {
    let mut text = String::new(alloc);
    for _ in 0..count {
        text.push_str(part).expect(rt, FAILED);
    }
    text
}

// Each argument of its JSON.
fn arguments(rt: &impl Abort, alloc: Global, texts: &[&str]) -> Items {
    let mut items = Items::new(alloc);
    for text in texts {
        let value = from_text(alloc, text).expect(rt, FAILED);
        items.push(value).expect(rt, FAILED);
    }
    items
}

// A function with its arguments, each as JSON, for a target by its text of this kind.
fn publication(
    rt: &impl Abort,
    alloc: Global,
    moment: u64,
    (kind, tgt): (Kind, &str),
    (fun, args): (&str, &[&str]),
) -> Turn {
    Turn::Publish {
        moment,
        kind,
        tgt: Text::new(String::from_str(alloc, tgt).expect(rt, FAILED)),
        fun: Word::read(alloc, fun).expect(rt, FAILED),
        args: arguments(rt, alloc, args),
    }
}

fn jid(rt: &impl Abort, text: &str) -> Jid {
    Jid::read(text.as_bytes()).expect(rt, FAILED)
}

// The first turn of a play that asks for something, and `Jobs` of another one.
fn question(rt: &impl Abort, play: Play) -> Turn {
    match play {
        Play::Report(text) => Turn::Report { jid: jid(rt, text) },
        Play::Exit(text) => Turn::Exit { jid: jid(rt, text) },
        Play::Summary => Turn::Summary,
        Play::Data(node) => Turn::Data {
            node: NodeId::new(node),
        },
        Play::Counts(node) => Turn::Counts {
            node: NodeId::new(node),
        },
        Play::Packet(packet) => Turn::Packet { packet },
        _ => Turn::Jobs,
    }
}

/// The turn of a play, the first one where it has more.
pub fn turn_of(rt: &impl Abort, alloc: Global, play: Play) -> Turn {
    match play {
        Play::Publish(moment, kind, tgt) => {
            publication(rt, alloc, moment, (kind, tgt), ("test.ping", &[]))
        }
        Play::Repeat(moment, kind, part, count) => {
            let tgt = repeated(rt, alloc, part, count);
            publication(rt, alloc, moment, (kind, tgt.as_str()), ("test.ping", &[]))
        }
        Play::Run(moment, fun, args) => {
            publication(rt, alloc, moment, (Kind::Glob, "*"), (fun, args))
        }
        Play::Send(from, to, count) => Turn::Send {
            from: NodeId::new(from),
            to: NodeId::new(to),
            count,
        },
        Play::Deliver(packet) => Turn::Deliver { packet },
        Play::DeliverEach(first, _) => Turn::Deliver { packet: first },
        Play::Settle => Turn::Settle,
        other => question(rt, other),
    }
}

// The packets from the first number up to before the last, up to the first fault.
fn deliver_each(
    world: &mut World,
    sink: &mut MemSink,
    first: u64,
    last: u64,
) -> Result<(), StepFault> {
    for packet in first..last {
        world.step(&Turn::Deliver { packet }, sink)?;
    }
    Ok(())
}

// A turn that the fleet doesn't have does nothing.
fn step(world: &mut World, sink: &mut MemSink, turn: &Turn) -> Result<(), StepFault> {
    if turn.is_of(world.fleet()) {
        world.step(turn, sink)
    } else {
        Ok(())
    }
}

fn perform(
    rt: &impl Abort,
    alloc: Global,
    world: &mut World,
    sink: &mut MemSink,
    play: Play,
) -> Result<(), StepFault> {
    match play {
        Play::DeliverEach(first, last) => deliver_each(world, sink, first, last),
        other => step(world, sink, &turn_of(rt, alloc, other)),
    }
}

/// The turns in order, up to the first fault.
pub fn perform_all(
    rt: &impl Abort,
    alloc: Global,
    world: &mut World,
    sink: &mut MemSink,
    plays: &[Play],
) -> Result<(), StepFault> {
    for one in plays {
        perform(rt, alloc, world, sink, *one)?;
    }
    Ok(())
}

/// How a play ended, and what it printed.
pub fn printed(
    rt: &impl Abort,
    sink: &MemSink,
    ended: Result<(), StepFault>,
    wanted: Result<(), StepFault>,
    text: &str,
) {
    assert_eq!(rt; (ended, sink.bytes()), (wanted, text.as_bytes()));
}
